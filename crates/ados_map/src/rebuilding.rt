//! Rebuilding of the whole bitmap.

ghost use Rattle.std.specs.Prelude.{◌≡◌, ◌<◌, ◌+◌, ◌*◌, ℕ, length};
ghost use Rattle.adf_block.specs.declared.beside.TheConstants.{PAGE_LONGS};
ghost use Rattle.adf_block.specs.Whole.{IsImage};
ghost use Rattle.adf_block.specs.Image.{block_count, block_sum, long};
ghost use Rattle.adf_block.specs.Frame.{OnlyBlock};
ghost use Rattle.ados_map.specs.Pages.{LawfulPages};
ghost use Rattle.ados_map.specs.Bits.{IsUnnamedBits};
ghost use Rattle.ados_map.specs.Changes.{PagesRebuilt};

use crate::bits::{page_at, unnamed_bits};
use adf_block::beside::PAGE_CHECKSUM;
use adf_block::layout::{FIRST_MAP_LONG, MAP_LONGS};
use adf_block::{Image, page_count};

/// Marks a block free exactly if it is not named. `named` has one truth value for each block, boot blocks included.
/// Bits past the volume's end become 0, and the checksum of each bitmap block becomes right. The root and its flag of
/// a valid bitmap do not change.
pub fn rebuild(image: &mut Image, named: &[bool])
    requires pages { LawfulPages image.old }
    requires named { length named.now ≡ block_count image.old }
    ensures rebuilt { PagesRebuilt image.old named.now image.new }
    ensures pages { LawfulPages image.new }
    ensures image { IsImage image.new }
{
    for p in 0..page_count(image.blocks()) {
        let page = page_at(image, p);
        fill_page(image, page, p, named);
    }
}

/// Writes bitmap block `p` of the volume. Its block number is `page`.
fn fill_page(image: &mut Image, page: u32, p: u32, named: &[bool])
    requires inside { page < block_count image.old }
    requires page { p < PAGE_LONGS }
    ensures longs { (j : ℕ) → j < MAP_LONGS → IsUnnamedBits named.now (MAP_LONGS * p + j) (long image.new page (FIRST_MAP_LONG + j)) }
    ensures sum { block_sum image.new page ≡ 0 }
    ensures rest { OnlyBlock page image.old image.new }
    ensures image { IsImage image.new }
{
    for j in 0..MAP_LONGS {
        image.set_long(
            page,
            FIRST_MAP_LONG + j,
            unnamed_bits(named, MAP_LONGS * p + j),
        );
    }
    image.settle(page, PAGE_CHECKSUM);
}
