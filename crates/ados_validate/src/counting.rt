//! The number of blocks whose bits changed.
ghost use Rattle.std.specs.Prelude.{◌≡◌, ◌≤◌, not, ◌&&◌, if◌then◌else◌};
ghost use Rattle.adf_block.specs.Image.{block_count};
ghost use Rattle.ados_map.specs.Pages.{LawfulPages};
ghost use Rattle.ados_validate.specs.Validated.{free_only_in};

use crate::old_bitmap::OldBitmap;
use adf_block::Image;
use adf_block::layout::BOOT_BLOCKS;
use ados_map::is_free;

/// The number of blocks that were marked free and are marked used now, and that of blocks that were marked used and are
/// marked free now.
pub(crate) fn changed_marks(old: &OldBitmap, new: &Image) -> (u32, u32)
    requires pages { LawfulPages new.now }
    requires size { block_count new.now ≡ block_count old.now }
    ensures were_free { result.0 ≡ free_only_in old.now new.now }
    ensures were_used { result.1 ≡ free_only_in new.now old.now }
{
    let mut were_free = 0;
    let mut were_used = 0;
    for block in BOOT_BLOCKS..new.blocks() {
        let was_free = old.is_free(block);
        let is_free = is_free(new, block);
        were_free += one_if_only(was_free, is_free);
        were_used += one_if_only(is_free, was_free);
    }
    (were_free, were_used)
}

/// 1 if the first is true and the second is not, else 0.
fn one_if_only(first: bool, second: bool) -> u32
    ensures one { result ≡ (if first && not second then 1 else 0) }
    ensures few { result ≤ 1 }
{
    u32::from(first && !second)
}
