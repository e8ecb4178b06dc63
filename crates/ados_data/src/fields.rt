//! The fields that lead to a file's data.

ghost use Rattle.std.specs.Prelude.{◌≡◌, ◌<◌, ◌-◌, ◌%◌};
ghost use Rattle.adf_block.specs.Image.{block_count, long};
ghost use Rattle.adf_block.specs.Fields.{format_of};

use adf_block::layout::{FIRST_POINTER, TABLE_LONGS};
use adf_block::{Format, Image};

/// The layout of the volume's data blocks.
pub fn format_of(image: &Image) -> Format
    ensures { result ≡ format_of image.now }
{
    image.format()
}

/// The block number in data pointer `i` of a file. `holder` is the pointer block with this pointer.
pub fn data_block(image: &Image, holder: u32, i: u64) -> u32
    requires { holder < block_count image.now }
    ensures { result ≡ long image.now holder (FIRST_POINTER - i % TABLE_LONGS) }
{
    image.long(holder, FIRST_POINTER - (i % TABLE_LONGS as u64) as u32)
}
