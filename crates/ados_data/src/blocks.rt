//! New blocks for a file.

ghost use Rattle.std.specs.Prelude.{◌≡◌, ◌<◌, ◌%◌, false};
ghost use Rattle.adf_block.specs.Image.{IsInside, block_count, has_free_bit};
ghost use Rattle.adf_block.specs.Whole.{free_bit_count};
ghost use Rattle.ados_map.specs.Pages.{NoneFreeBelow};
ghost use Rattle.ados_data.specs.Changing.{LawfulMap};
ghost use Rattle.ados_data.specs.steps.Blocks.{HasPointerRoom, IsNewBlock};

use crate::attach::attach_extension;
use adf_block::Image;
use adf_block::layout::{MOST_BLOCKS, TABLE_LONGS};
use ados_map::take_first_from;

/// Allocates the lowest free block and fills it with zeros. No block below `from` may be free.
pub fn new_block(image: &mut Image, from: u32) -> u32
    requires map { LawfulMap image.old }
    requires below { NoneFreeBelow image.old from }
    requires free { 0 < free_bit_count image.old }
    ensures { IsNewBlock image.old result image.new }
{
    prove!(image.blocks() <= MOST_BLOCKS);
    let Some(block) = take_first_from(image, from) else {
        unreachable!()
    };
    image.clear(block);
    block
}

/// The pointer block for pointer `count` of a file. It is `holder`, the last one, or a new one after it if `holder` is
/// full. No block below `from` may be free.
pub fn pointer_room(image: &mut Image, file: u32, holder: u32, count: u32, from: u32) -> u32
    requires map { LawfulMap image.old }
    requires below { NoneFreeBelow image.old from }
    requires inside { IsInside (block_count image.old) holder }
    requires used { has_free_bit image.old holder ≡ false }
    requires free { 0 < count → count % TABLE_LONGS ≡ 0 → 0 < free_bit_count image.old }
    ensures { HasPointerRoom image.old file holder count result image.new }
{
    if count == 0 || count % TABLE_LONGS != 0 {
        return holder;
    }
    let extension = new_block(image, from);
    attach_extension(image, file, holder, extension);
    extension
}
