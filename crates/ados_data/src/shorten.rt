//! A file made shorter.

ghost use Rattle.std.specs.Prelude.{◌≡◌, ℕ, true, ◌<◌, ◌≤◌, ◌-◌, ◌%◌, length, take};
ghost use Rattle.adf_block.specs.Image.{IsInside, has_free_bit, block_count, long};
ghost use Rattle.adf_block.specs.Fields.{format_of};
ghost use Rattle.ados_map.specs.Pages.{LawfulPages};
ghost use Rattle.ados_model.specs.Tree.{data_count, extension_count};
ghost use Rattle.ados_model.specs.File.{contents, data_blocks, extension_blocks};
ghost use Rattle.ados_data.specs.Cut.{CutsHeader, FreesData, FreesExtensions, KeepsData};
ghost use Rattle.ados_data.specs.Changing.{PaysFor, WritableFile};
ghost use Rattle.ados_data.specs.Others.{LeavesOthers};
ghost use Rattle.ados_data.specs.Sums.{ChangedAreSummed};
ghost use Rattle.ados_data.specs.Unnamed.{FileKeepsUnnamed};
ghost use Rattle.ados_data.specs.steps.Giving.{IsEntered};

use crate::cost::{data_count, extension_count};
use crate::fields::data_block;
use crate::grow::End;
use crate::place::{Place, pointer_block};
use crate::resize::resize;
use adf_block::Image;
use adf_block::layout::{FILE_SIZE, MOST_BLOCKS, NEXT_EXTENSION, TABLE_LONGS};
use ados_map::give_back;

/// The current pointer block while blocks are freed, and the next one.
#[derive(Clone, Copy)]
struct Cursor {
    holder: u32,
    next: u32,
}

/// Cuts a file to `size` bytes and frees the blocks after them. The bytes of freed blocks are unchanged, and so is
/// each byte outside all fields. The checksum of each changed block is right afterwards, also if it was wrong before.
pub fn cut(image: &mut Image, file: u32, size: u32)
    requires writable { WritableFile image.old file }
    requires shorter { size ≤ length (contents image.old file) }
    ensures writable { WritableFile image.new file }
    ensures format { format_of image.new ≡ format_of image.old }
    ensures bytes { contents image.new file ≡ take size (contents image.old file) }
    ensures free { PaysFor image.old file size image.new }
    ensures leaves { LeavesOthers image.old file image.new }
    ensures keeps { FileKeepsUnnamed image.old file image.new }
    ensures free_stays { (c : ℕ) → IsInside (block_count image.old) c → has_free_bit image.old c ≡ true → has_free_bit image.new c ≡ true }
    ensures data_stays { KeepsData image.old file size image.new }
    ensures header { CutsHeader image.old file image.new }
    ensures blocks { data_blocks image.new file ≡ take (data_count (format_of image.old) size) (data_blocks image.old file) }
    ensures extensions { extension_blocks image.new file ≡ take (extension_count (data_count (format_of image.old) size)) (extension_blocks image.old file) }
    ensures freed { FreesData image.old file size image.new }
    ensures freed_extensions { FreesExtensions image.old file size image.new }
    ensures sums { ChangedAreSummed image.old file image.new }
{
    prove!(image.blocks() <= MOST_BLOCKS);
    let format = image.format();
    let old = image.long(file, FILE_SIZE);
    if size == old {
        return;
    }
    let all = data_count(format, old as u64);
    let count = data_count(format, size as u64);
    let holder = pointer_block(image, file, Place::header(file), extension_count(count));
    let next = image.long(holder, NEXT_EXTENSION);
    let last = data_block(image, holder, count.saturating_sub(1));
    let end = End {
        count: count as u32,
        holder,
        last,
    };
    resize(image, format, file, end, size);
    let mut cursor = Cursor { holder, next };
    for i in count..all {
        cursor = enter(image, cursor, i);
        let block = data_block(image, cursor.holder, i);
        give_back(image, block);
    }
}

/// Moves on to the pointer block of pointer `i`. If this is the next extension block, it is freed. Its bytes are
/// unchanged.
fn enter(image: &mut Image, at: Cursor, i: u64) -> Cursor
    requires pages { LawfulPages image.old }
    requires inside { 0 < i → i % TABLE_LONGS ≡ 0 → IsInside (block_count image.old) at.next }
    ensures { IsEntered image.old at.holder at.next i result.holder result.next image.new }
{
    if i == 0 || i % TABLE_LONGS as u64 != 0 {
        return at;
    }
    let next = image.long(at.next, NEXT_EXTENSION);
    give_back(image, at.next);
    Cursor {
        holder: at.next,
        next,
    }
}
