//! Writes to a file.

ghost use Rattle.std.specs.Prelude.{◌≡◌, ◌≤◌, ◌+◌, ◌-◌, ◌++◌, length, max, replicate};
ghost use Rattle.ados_map.specs.Pages.{NoneFreeBelow};
ghost use Rattle.ados_model.specs.File.{contents};
ghost use Rattle.ados_model.specs.Edits.{overlaid};
ghost use Rattle.ados_data.specs.Changing.{HasFree, WritableFile};
ghost use Rattle.ados_data.specs.Growth.{GrowsFile};
ghost use Rattle.ados_data.specs.Place.{IsPlace};

use crate::cost::{data_size, data_start};
use crate::fields::data_block;
use crate::grow::lengthen;
use crate::place::{Place, pointer_block};
use adf_block::beside::CHECKSUM;
use adf_block::layout::{
    BOOT_BLOCKS, FFS_ROOM, FILE_SIZE, MOST_BLOCKS, NEXT_EXTENSION, TABLE_LONGS,
};
use adf_block::{Format, Image};

/// The most data bytes of a data block.
const ROOM: usize = FFS_ROOM as usize;

/// Writes bytes to a file from byte `pos`, at most its size. The file grows if they reach past its end.
///
/// Each new block is the lowest free one. As in `extend`, bytes that need no change are unchanged, and the checksum of
/// each changed block is right afterwards.
pub fn write_at(image: &mut Image, file: u32, pos: u64, bytes: &[u8])
    requires writable { WritableFile image.old file }
    requires start { pos ≤ length (contents image.old file) }
    requires free { HasFree image.old file (max (length (contents image.old file)) (pos + length bytes.now)) }
    ensures grown { GrowsFile image.old file (max (length (contents image.old file)) (pos + length bytes.now)) image.new }
    ensures bytes { contents image.new file ≡ overlaid (contents image.old file) pos bytes.now }
{
    write_near(image, file, Place::header(file), pos, bytes, BOOT_BLOCKS);
}

/// `write_at` with a walk that starts at `near`. No block below `from` may be free. The result is such a bound for the
/// next search.
pub fn write_near(
    image: &mut Image,
    file: u32,
    near: Place,
    pos: u64,
    bytes: &[u8],
    from: u32,
) -> u32
    requires writable { WritableFile image.old file }
    requires near { IsPlace image.old file near }
    requires below { NoneFreeBelow image.old from }
    requires start { pos ≤ length (contents image.old file) }
    requires free { HasFree image.old file (max (length (contents image.old file)) (pos + length bytes.now)) }
    ensures grown { GrowsFile image.old file (max (length (contents image.old file)) (pos + length bytes.now)) image.new }
    ensures bytes { contents image.new file ≡ overlaid (contents image.old file) pos bytes.now }
    ensures below { NoneFreeBelow image.new result }
{
    prove!(image.blocks() <= MOST_BLOCKS);
    let size = (image.long(file, FILE_SIZE) as u64).max(pos + bytes.len() as u64);
    let bound = lengthen(image, file, near, size as u32, from);
    if bytes.is_empty() {
        return bound;
    }
    let format = image.format();
    let room = data_size(format);
    let start = data_start(format);
    let mut holder = pointer_block(image, file, near, pos / room as u64 / TABLE_LONGS as u64);
    let mut done = 0;
    while done < bytes.len() {
        let at = pos + done as u64;
        let from = (at % room as u64) as usize;
        let part = (room - from).min(bytes.len() - done);
        let block = data_block(image, holder, at / room as u64);
        image.put_bytes(block, start + from, &bytes[done..done + part]);
        match format {
            Format::Ofs => image.settle(block, CHECKSUM),
            Format::Ffs => {}
        }
        done += part;
        if (at + part as u64) % (TABLE_LONGS as u64 * room as u64) == 0 {
            holder = image.long(holder, NEXT_EXTENSION);
        }
    }
    bound
}

/// Makes a file longer, to `size` bytes. The added bytes are 0, and each new block is the lowest free one.
///
/// The file keeps its blocks. Their bytes outside all fields and after the file's end are unchanged, and so is each
/// block that is neither the file's nor a bitmap block. Unused bytes of a new block are 0. The checksum of each changed
/// block is right afterwards, also if it was wrong before.
pub fn extend(image: &mut Image, file: u32, size: u32)
    requires writable { WritableFile image.old file }
    requires longer { length (contents image.old file) ≤ size }
    requires free { HasFree image.old file size }
    ensures grown { GrowsFile image.old file size image.new }
    ensures bytes { contents image.new file ≡ contents image.old file ++ replicate (size - length (contents image.old file)) 0 }
{
    extend_near(image, file, Place::header(file), size, BOOT_BLOCKS);
}

/// `extend` with a walk to the file's end that starts at `near`. No block below `from` may be free. The result is such
/// a bound for the next search.
pub fn extend_near(image: &mut Image, file: u32, near: Place, size: u32, from: u32) -> u32
    requires writable { WritableFile image.old file }
    requires near { IsPlace image.old file near }
    requires below { NoneFreeBelow image.old from }
    requires longer { length (contents image.old file) ≤ size }
    requires free { HasFree image.old file size }
    ensures grown { GrowsFile image.old file size image.new }
    ensures bytes { contents image.new file ≡ contents image.old file ++ replicate (size - length (contents image.old file)) 0 }
    ensures below { NoneFreeBelow image.new result }
{
    prove!(image.blocks() <= MOST_BLOCKS);
    let room = data_size(image.format());
    let old = image.long(file, FILE_SIZE);
    let part = (room - old as usize % room).min((size - old) as usize);
    let zeros = [0; ROOM];
    let bound = lengthen(image, file, near, size, from);
    write_near(image, file, near, old as u64, &zeros[..part], bound)
}
