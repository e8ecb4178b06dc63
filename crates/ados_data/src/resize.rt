//! The size of a file, and the fields that depend on it.

ghost use Rattle.std.specs.Prelude.{◌≡◌, ◌≢◌, ◌<◌, ◌≤◌, ◌-◌, ◌*◌};
ghost use Rattle.adf_block.specs.Image.{block_count, block_sum, long};
ghost use Rattle.adf_block.specs.Fields.{held_count};
ghost use Rattle.adf_block.specs.Frame.{SameBut};
ghost use Rattle.ados_data.specs.steps.Blocks.{AtEnd, IsResized};

use crate::edit::set_settled;
use crate::grow::End;
use adf_block::beside::CHECKSUM;
use adf_block::layout::{
    FILE_SIZE, HELD, NEXT_DATA, NEXT_EXTENSION, OFS_ROOM, POINTER_COUNT, TABLE_LONGS,
};
use adf_block::{Format, Image};

/// Makes this the end of a file, and sets its size in bytes. The checksum of the header is made anew.
pub fn resize(image: &mut Image, format: Format, file: u32, end: End, size: u32)
    requires file { file < block_count image.old }
    requires holder { end.holder < block_count image.old }
    requires last { 0 < end.count → end.last < block_count image.old }
    requires apart { 0 < end.count → (end.last ≢ end.holder) × (end.last ≢ file) }
    requires size { OFS_ROOM * (end.count - 1) ≤ size }
    ensures { IsResized image.old format file end.holder end.last end.count size image.new }
{
    end_data(image, format, end, size);
    let pointers = end.count - TABLE_LONGS * (end.count.saturating_sub(1) / TABLE_LONGS);
    image.set_summed(end.holder, POINTER_COUNT, pointers, CHECKSUM);
    image.set_summed(end.holder, NEXT_EXTENSION, 0, CHECKSUM);
    let first = if end.count == 0 {
        0
    } else {
        image.long(file, NEXT_DATA)
    };
    image.set_summed(file, NEXT_DATA, first, CHECKSUM);
    set_settled(image, file, FILE_SIZE, size);
}

/// Ends the data of a file with `size` bytes in its last data block. FFS data blocks have no fields for it.
fn end_data(image: &mut Image, format: Format, end: End, size: u32)
    requires last { 0 < end.count → end.last < block_count image.old }
    requires size { OFS_ROOM * (end.count - 1) ≤ size }
    ensures held { format ≡ Format.Ofs → 0 < end.count → held_count image.new end.last ≡ size - OFS_ROOM * (end.count - 1) }
    ensures next { format ≡ Format.Ofs → 0 < end.count → long image.new end.last NEXT_DATA ≡ 0 }
    ensures sum { format ≡ Format.Ofs → 0 < end.count → block_sum image.old end.last ≡ 0 → block_sum image.new end.last ≡ 0 }
    ensures rest { SameBut (AtEnd format end.count end.last) image.old image.new }
{
    if format == Format::Ofs && end.count > 0 {
        let held = size - OFS_ROOM * (end.count - 1);
        image.set_summed(end.last, HELD, held, CHECKSUM);
        image.set_summed(end.last, NEXT_DATA, 0, CHECKSUM);
    }
}
