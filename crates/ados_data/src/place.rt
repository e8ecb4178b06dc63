//! Positions among the pointer blocks of a file.

ghost use Rattle.std.specs.Prelude.{◌≡◌, ◌≤◌, ◌/◌, List, ℕ, length, min};
ghost use Rattle.ados_model.specs.Tree.{data_size};
ghost use Rattle.ados_model.specs.File.{ReadableFile, extension_blocks, pointer_block};
ghost use Rattle.adf_block.specs.Fields.{format_of};
ghost use Rattle.ados_data.specs.Place.{IsPlace};

use crate::cost::{data_count, data_size, extension_count};
use adf_block::Image;
use adf_block::layout::{FILE_SIZE, NEXT_EXTENSION, TABLE_LONGS};

/// A pointer block of a file (its header or an extension block), and the number of those before it. A call with a
/// `Place` starts its walk there, and not at the header, unless it needs a pointer block before it.
#[derive(Clone, Copy)]
pub struct Place {
    /// The number of pointer blocks before it; 0 for the header.
    pub index: u64,
    /// Its block number.
    pub block: u32,
}

impl Place {
    /// The header of a file.
    pub fn header(file: u32) -> Place
        ensures first { result.index ≡ 0 }
        ensures place { (image : List ℕ) → IsPlace image file result }
    {
        Place {
            index: 0,
            block: file,
        }
    }
}

/// The pointer block for byte `pos` of a file. For a position after the end it is at most the last pointer block.
pub fn place_at(image: &Image, file: u32, near: Place, pos: u64) -> Place
    requires readable { ReadableFile image.now file }
    requires near { IsPlace image.now file near }
    ensures place { IsPlace image.now file result }
    ensures index { result.index ≡ min (pos / data_size (format_of image.now) / TABLE_LONGS) (length (extension_blocks image.now file)) }
{
    let format = image.format();
    let last = extension_count(data_count(format, image.long(file, FILE_SIZE) as u64));
    let index = (pos / data_size(format) as u64 / TABLE_LONGS as u64).min(last);
    let block = pointer_block(image, file, near, index);
    Place { index, block }
}

/// Pointer block `q` of a file: 0 is the header, 1 the first extension block.
pub fn pointer_block(image: &Image, file: u32, near: Place, q: u64) -> u32
    requires readable { ReadableFile image.now file }
    requires near { IsPlace image.now file near }
    requires within { q ≤ length (extension_blocks image.now file) }
    ensures { result ≡ pointer_block image.now file q }
{
    let start = start_of(file, near, q);
    let mut holder = start.block;
    for _passed in start.index..q {
        holder = image.long(holder, NEXT_EXTENSION);
    }
    holder
}

/// The start of the walk to pointer block `q`.
fn start_of(file: u32, near: Place, q: u64) -> Place
    ensures place { (image : List ℕ) → IsPlace image file near → IsPlace image file result }
    ensures front { result.index ≤ q }
{
    if near.index <= q {
        near
    } else {
        Place::header(file)
    }
}
