//! Reads of the bitmap.

ghost use Rattle.std.specs.Prelude.{◌≡◌, ◌+◌, ◌-◌, ◌/◌, ◌≤◌, MatchBool, MatchOption};
ghost use Rattle.adf_block.specs.Whole.{IsImage, free_bit_count, IsSize};
ghost use Rattle.adf_block.specs.Image.{IsInside, block_count, has_free_bit};
ghost use Rattle.ados_map.specs.Pages.{IsLowestFree, LawfulPages, NoneFree, NoneFreeBelow};

use crate::bits::{free_bits, page_at};
use adf_block::Image;
use adf_block::layout::{BOOT_BLOCKS, FIRST_MAP_LONG, LONG_BITS, PAGE_BITS};

/// Whether block `b` is marked free. It must be a block of the volume after the boot blocks.
pub fn is_free(image: &Image, b: u32) -> bool
    requires pages { LawfulPages image.now }
    requires inside { IsInside (block_count image.now) b }
    ensures { result ≡ has_free_bit image.now b }
{
    let page = page_at(image, (b - BOOT_BLOCKS) / PAGE_BITS);
    image.long(
        page,
        FIRST_MAP_LONG + (b - BOOT_BLOCKS) % PAGE_BITS / LONG_BITS,
    ) & (1 << ((b - BOOT_BLOCKS) % LONG_BITS))
        != 0
}

/// The number of blocks that are marked free.
pub fn count_free(image: &Image) -> u32
    requires { LawfulPages image.now }
    ensures { result ≡ free_bit_count image.now }
{
    let mut count = 0;
    for w in 0..map_longs(image) {
        count += free_bits(image, w).count_ones();
    }
    count
}

/// Whether at least `needed` blocks are marked free. No block below `from` may be free. Reading stops as soon as
/// enough are found.
pub fn has_free(image: &Image, from: u32, needed: u64) -> bool
    requires pages { LawfulPages image.now }
    requires below { NoneFreeBelow image.now from }
    ensures { MatchBool result (needed ≤ free_bit_count image.now) (¬ (needed ≤ free_bit_count image.now)) }
{
    let mut found = 0;
    for w in map_long_of(from)..map_longs(image) {
        if needed <= found as u64 {
            return true;
        }
        found += free_bits(image, w).count_ones();
    }
    needed <= found as u64
}

/// The lowest block that is marked free, or `None`. No block below `from` may be free.
pub fn first_free(image: &Image, from: u32) -> Option<u32>
    requires pages { LawfulPages image.now }
    requires below { NoneFreeBelow image.now from }
    ensures lowest { MatchOption result (NoneFree image.now) (λ b. IsLowestFree image.now b) }
    ensures image { IsImage image.now }
{
    for w in map_long_of(from)..map_longs(image) {
        let bits = free_bits(image, w);
        if bits != 0 {
            return Some(BOOT_BLOCKS + LONG_BITS * w + bits.trailing_zeros());
        }
    }
    None
}

/// The index, over all bitmap blocks, of the long with the bit of block `b`. A boot block counts as block 2.
fn map_long_of(b: u32) -> u32
    ensures { result ≡ (b - BOOT_BLOCKS) / LONG_BITS }
{
    b.saturating_sub(BOOT_BLOCKS) / LONG_BITS
}

/// The number of bitmap longs that have bits of blocks in the volume.
fn map_longs(image: &Image) -> u32
    ensures count { result ≡ (block_count image.now - BOOT_BLOCKS + (LONG_BITS - 1)) / LONG_BITS }
    ensures size { IsSize (block_count image.now) }
    ensures image { IsImage image.now }
{
    (image.blocks() - BOOT_BLOCKS).div_ceil(LONG_BITS)
}
