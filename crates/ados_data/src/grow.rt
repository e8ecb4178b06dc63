//! A file made longer.

ghost use Rattle.std.specs.Prelude.{◌≡◌, ◌<◌, ◌≤◌, ◌+◌, ◌-◌, ◌*◌, ◌/◌, ◌++◌, length, replicate};
ghost use Rattle.adf_block.specs.declared.layout.TheConstants.{TABLE_LONGS};
ghost use Rattle.adf_block.specs.Fields.{format_of};
ghost use Rattle.adf_block.specs.Whole.{free_bit_count};
ghost use Rattle.ados_map.specs.Pages.{NoneFreeBelow};
ghost use Rattle.ados_model.specs.Tree.{data_size};
ghost use Rattle.ados_model.specs.File.{LawfulFile, contents};
ghost use Rattle.ados_data.specs.Changing.{HasFree, WritableFile};
ghost use Rattle.ados_data.specs.Growth.{GrowsFile};
ghost use Rattle.ados_data.specs.Place.{IsPlace};
ghost use Rattle.ados_data.specs.steps.FileEnd.{IsEnd, IsLonger};

use crate::attach::link_data;
use crate::blocks::{new_block, pointer_room};
use crate::cost::{data_count, data_size, extension_count};
use crate::edit::{make_data, set_settled};
use crate::fields::data_block;
use crate::place::{Place, pointer_block};
use crate::resize::resize;
use adf_block::beside::CHECKSUM;
use adf_block::layout::{
    FILE_SIZE, FIRST_POINTER, MOST_BLOCKS, NEXT_DATA, POINTER_COUNT, TABLE_LONGS,
};
use adf_block::{Format, Image};

/// The end of a file.
#[derive(Clone, Copy)]
pub struct End {
    /// The number of data blocks.
    pub count: u32,
    /// The last pointer block.
    pub holder: u32,
    /// The last data block, or 0 if there is none.
    pub last: u32,
}

/// The end of a lawful file. The walk to it starts at `near`.
pub fn end_of(image: &Image, format: Format, file: u32, near: Place) -> End
    requires lawful { LawfulFile image.now file }
    requires near { IsPlace image.now file near }
    requires format { format ≡ format_of image.now }
    ensures { IsEnd image.now file result }
{
    let count = data_count(format, image.long(file, FILE_SIZE) as u64);
    let holder = pointer_block(image, file, near, extension_count(count));
    let last = if count == 0 {
        0
    } else {
        data_block(image, holder, count - 1)
    };
    End {
        count: count as u32,
        holder,
        last,
    }
}

/// Makes a file longer within its last data block, to `size` bytes or to the end of the block. It returns the new size
/// in bytes. The added bytes are those already in the block.
fn fill_last(image: &mut Image, format: Format, file: u32, end: End, size: u32) -> u32
    requires writable { WritableFile image.old file }
    requires format { format ≡ format_of image.old }
    requires end { IsEnd image.old file end }
    requires size { length (contents image.old file) ≤ size }
    ensures grown { GrowsFile image.old file result image.new }
    ensures reached { result ≤ size }
    ensures full { result < size → result ≡ data_size format * end.count }
    ensures end { IsEnd image.new file end }
    ensures bytes { IsLonger format (contents image.old file) result (contents image.new file) }
{
    prove!(image.blocks() <= MOST_BLOCKS);
    let room = data_size(format);
    let old = image.long(file, FILE_SIZE);
    let from = old as usize % room;
    if size == old || from == 0 {
        return old;
    }
    let part = (room - from).min((size - old) as usize);
    let reached = old + part as u32;
    resize(image, format, file, end, reached);
    reached
}

/// Appends a data block to a file with full data blocks, and sets the size in bytes. The added bytes are 0. No block
/// below `from` may be free.
fn append(image: &mut Image, format: Format, file: u32, end: End, size: u32, from: u32) -> End
    requires writable { WritableFile image.old file }
    requires below { NoneFreeBelow image.old from }
    requires format { format ≡ format_of image.old }
    requires end { IsEnd image.old file end }
    requires full { length (contents image.old file) ≡ data_size format * end.count }
    requires over { data_size format * end.count < size }
    requires within { size ≤ data_size format * (end.count + 1) }
    requires free { end.count / TABLE_LONGS - (end.count - 1) / TABLE_LONGS < free_bit_count image.old }
    ensures grown { GrowsFile image.old file size image.new }
    ensures end { IsEnd image.new file result }
    ensures count { result.count ≡ end.count + 1 }
    ensures bytes { contents image.new file ≡ contents image.old file ++ replicate (size - length (contents image.old file)) 0 }
{
    prove!(image.blocks() <= MOST_BLOCKS);
    let holder = pointer_room(image, file, end.holder, end.count, from);
    let last = new_block(image, from);
    make_data(image, format, last, file, end.count + 1);
    link_data(image, format, end, last);
    let place = end.count % TABLE_LONGS;
    image.set_summed(holder, FIRST_POINTER - place, last, CHECKSUM);
    image.set_summed(holder, POINTER_COUNT, place + 1, CHECKSUM);
    let first = if end.count == 0 {
        last
    } else {
        image.long(file, NEXT_DATA)
    };
    set_settled(image, file, NEXT_DATA, first);
    let longer = End {
        count: end.count + 1,
        holder,
        last,
    };
    resize(image, format, file, longer, size);
    longer
}

/// Makes a file longer, to `size` bytes.
///
/// The added bytes are those already in the last data block, then 0. Each new block is the lowest free one, and its
/// unused bytes are 0. The file keeps its blocks. No block below `from` may be free. The result is such a bound for
/// the next search.
pub fn lengthen(image: &mut Image, file: u32, near: Place, size: u32, from: u32) -> u32
    requires writable { WritableFile image.old file }
    requires near { IsPlace image.old file near }
    requires below { NoneFreeBelow image.old from }
    requires longer { length (contents image.old file) ≤ size }
    requires free { HasFree image.old file size }
    ensures grown { GrowsFile image.old file size image.new }
    ensures bytes { IsLonger (format_of image.old) (contents image.old file) size (contents image.new file) }
    ensures below { NoneFreeBelow image.new result }
{
    prove!(image.blocks() <= MOST_BLOCKS);
    if image.long(file, FILE_SIZE) == size {
        return from;
    }
    let format = image.format();
    let room = data_size(format) as u64;
    let mut end = end_of(image, format, file, near);
    let mut reached = fill_last(image, format, file, end, size);
    let mut bound = from;
    while reached < size {
        let next = (size as u64).min(reached as u64 + room) as u32;
        end = append(image, format, file, end, next, bound);
        bound = end.last;
        reached = next;
    }
    bound
}
