//! The links to a new block of a file.

ghost use Rattle.std.specs.Prelude.{◌≡◌, ◌≢◌, ◌<◌, ℕ};
ghost use Rattle.adf_block.specs.declared.layout.TheConstants.{BLOCK_BYTES};
ghost use Rattle.adf_block.specs.Image.{block_count, block_sum, byte_at, long};
ghost use Rattle.adf_block.specs.Frame.{SameBut};
ghost use Rattle.ados_data.specs.steps.Blocks.{AtLink, IsExtended};

use crate::edit::{make_extension, set_settled};
use crate::grow::End;
use adf_block::beside::CHECKSUM;
use adf_block::layout::{NEXT_DATA, NEXT_EXTENSION};
use adf_block::{Format, Image};

/// Makes the empty block `e` an extension block of a file. It follows `holder`, the last pointer block.
pub fn attach_extension(image: &mut Image, file: u32, holder: u32, e: u32)
    requires holder { holder < block_count image.old }
    requires inside { e < block_count image.old }
    requires apart { e ≢ holder }
    requires empty { (k : ℕ) → k < BLOCK_BYTES → byte_at image.old e k ≡ 0 }
    ensures { IsExtended image.old file holder e image.new }
{
    make_extension(image, e, file);
    set_settled(image, holder, NEXT_EXTENSION, e);
}

/// Sets the link from the last data block to the data block `b`. FFS has no such link.
pub fn link_data(image: &mut Image, format: Format, end: End, b: u32)
    requires last { 0 < end.count → end.last < block_count image.old }
    ensures link { format ≡ Format.Ofs → 0 < end.count → long image.new end.last NEXT_DATA ≡ b }
    ensures sum { format ≡ Format.Ofs → 0 < end.count → block_sum image.old end.last ≡ 0 → block_sum image.new end.last ≡ 0 }
    ensures rest { SameBut (AtLink format end.count end.last) image.old image.new }
{
    if format == Format::Ofs && end.count > 0 {
        image.set_summed(end.last, NEXT_DATA, b, CHECKSUM);
    }
}
