//! The place of a data block in its file, by the marks.
ghost use Rattle.std.specs.Prelude.{◌≡◌, ◌<◌, ◌^◌, IfSome};
ghost use Rattle.adf_block.specs.Image.{block_count};
ghost use Rattle.ados_model.specs.Faults.{InImage};
ghost use Rattle.ados_faults.specs.Values.{data_place, extensions_to, next_data, pointed_by, position_of};

use crate::bits::is_inside;
use crate::marked::mark_at;
use adf_block::Image;
use adf_block::layout::{FIRST_POINTER, MOST_BLOCKS, NEXT_EXTENSION, POINTER_COUNT, TABLE_LONGS};
use ados_check::{Mark, Place};
use ados_model::Role;

/// The data block of a mark at this position of its file.
pub(crate) fn data_place(image: &Image, mark: Mark, block: u32, position: u64) -> Place
    requires { InImage image.now mark.holder }
    ensures { result ≡ data_place image.now mark block position }
{
    Place {
        block,
        position,
        next: next_data(image, mark),
    }
}

/// The number of data blocks of the file before that of a mark: 72 for each extension block, then those before its own
/// pointer.
pub(crate) fn position_of(image: &Image, marks: &[Option<Mark>], mark: Mark) -> Option<u64>
    ensures position { result ≡ position_of image.now marks.now mark }
    ensures few { IfSome result (λ position. position < 2 ^ 63) }
{
    prove!(image.blocks() <= MOST_BLOCKS);
    match extensions_to(image, marks, mark.holder) {
        Some(above) => {
            let before = TABLE_LONGS * above + FIRST_POINTER.saturating_sub(mark.long);
            Some(u64::from(before))
        }
        None => None,
    }
}

/// The number of extension blocks from a file's header to a block, by the marks.
fn extensions_to(image: &Image, marks: &[Option<Mark>], block: u32) -> Option<u32>
    ensures number { result ≡ extensions_to marks.now (block_count image.now) block }
    ensures few { IfSome result (λ number. number < block_count image.now) }
{
    let mut here = block;
    for passed in 0..image.blocks() {
        let mark = mark_at(marks, here)?;
        let Role::Extension(_) = mark.role else {
            return Some(passed);
        };
        here = mark.holder;
    }
    None
}

/// The data block after the place of a mark, by the holder and the extension block that follows it.
fn next_data(image: &Image, mark: Mark) -> Option<u32>
    requires { InImage image.now mark.holder }
    ensures { result ≡ next_data image.now mark }
{
    let here = FIRST_POINTER.saturating_sub(mark.long) + 1;
    if let Some(next) = pointed_by(image, mark.holder, here) {
        return Some(next);
    }
    pointed_by(image, image.long(mark.holder, NEXT_EXTENSION), 0)
}

/// The data block of pointer `k` of a block of the image, if it is in use.
fn pointed_by(image: &Image, block: u32, k: u32) -> Option<u32>
    ensures { result ≡ pointed_by image.now block k }
{
    if !is_inside(image, block) {
        return None;
    }
    let count = image.long(block, POINTER_COUNT);
    if k >= count || count > TABLE_LONGS {
        return None;
    }
    Some(image.long(block, FIRST_POINTER - k))
}
