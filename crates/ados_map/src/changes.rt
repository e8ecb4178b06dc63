//! One block allocated or freed.

ghost use Rattle.std.specs.Prelude.{◌≡◌, true, false};
ghost use Rattle.adf_block.specs.Whole.{IsImage};
ghost use Rattle.adf_block.specs.Image.{IsInside, block_count};
ghost use Rattle.ados_map.specs.Pages.{LawfulPages, NoneFreeBelow};
ghost use Rattle.ados_map.specs.Changes.{BitChanged, TakesFirst};

use crate::bits::{page_at, with_bit};
use crate::reading::first_free;
use adf_block::Image;
use adf_block::beside::PAGE_CHECKSUM;
use adf_block::layout::{BOOT_BLOCKS, FIRST_MAP_LONG, LONG_BITS, PAGE_BITS};

/// Marks the lowest free block used and returns it, or `None` if no block is free. The bytes of the block do not
/// change. The checksum of its bitmap block is right afterwards, also if it was wrong before.
pub fn take_first(image: &mut Image) -> Option<u32>
    requires { LawfulPages image.old }
    ensures none { TakesFirst image.old result image.new }
    ensures count { block_count image.new ≡ block_count image.old }
    ensures pages { LawfulPages image.new }
    ensures image { IsImage image.new }
{
    take_first_from(image, BOOT_BLOCKS)
}

/// `take_first` with a search that starts at block `from`. No block below `from` may be free.
pub fn take_first_from(image: &mut Image, from: u32) -> Option<u32>
    requires pages { LawfulPages image.old }
    requires below { NoneFreeBelow image.old from }
    ensures none { TakesFirst image.old result image.new }
    ensures count { block_count image.new ≡ block_count image.old }
    ensures pages { LawfulPages image.new }
    ensures image { IsImage image.new }
{
    let block = first_free(image, from)?;
    put_mark(image, block, false);
    Some(block)
}

/// Marks block `b` free. It must be a block of the volume after the boot blocks. The checksum of its bitmap block is
/// right afterwards, also if it was wrong before.
pub fn give_back(image: &mut Image, b: u32)
    requires pages { LawfulPages image.old }
    requires inside { IsInside (block_count image.old) b }
    ensures freed { BitChanged image.old b true image.new }
    ensures pages { LawfulPages image.new }
    ensures image { IsImage image.new }
{
    put_mark(image, b, true);
}

/// Sets or clears the bit of block `b`. The checksum of its bitmap block is made anew: its longs add up to 0 afterwards,
/// also if it was wrong before.
fn put_mark(image: &mut Image, b: u32, free: bool)
    requires pages { LawfulPages image.old }
    requires inside { IsInside (block_count image.old) b }
    ensures marked { BitChanged image.old b free image.new }
    ensures pages { LawfulPages image.new }
    ensures image { IsImage image.new }
{
    let page = page_at(image, (b - BOOT_BLOCKS) / PAGE_BITS);
    let long = FIRST_MAP_LONG + (b - BOOT_BLOCKS) % PAGE_BITS / LONG_BITS;
    let old = image.long(page, long);
    let new = with_bit(old, (b - BOOT_BLOCKS) % LONG_BITS, free);
    image.set_long(page, long, new);
    image.settle(page, PAGE_CHECKSUM);
}
