//! One bitmap block, and one long of it.

ghost use Rattle.std.specs.Prelude.{◌≡◌, ◌<◌, ◌+◌, ◌*◌};
ghost use Rattle.adf_block.specs.declared.beside.TheConstants.{PAGE_LONGS};
ghost use Rattle.adf_block.specs.Image.{IsInside, block_count};
ghost use Rattle.adf_block.specs.Whole.{IsSize};
ghost use Rattle.ados_map.specs.Pages.{LawfulPages, page_block, pages_of};
ghost use Rattle.ados_map.specs.Bits.{IsBitPut, IsFreeBits, IsUnnamedBits, is_unnamed};

use adf_block::Image;
use adf_block::layout::{
    BOOT_BLOCKS, FIRST_MAP_LONG, FIRST_PAGE, LONG_BITS, MAP_LONGS, MOST_BLOCKS,
};

/// The block number of bitmap block `p`, from 0.
pub fn page_at(image: &Image, p: u32) -> u32
    requires pages { LawfulPages image.now }
    requires within { p < pages_of image.now }
    ensures page { result ≡ page_block image.now p }
    ensures inside { IsInside (block_count image.now) result }
    ensures size { IsSize (block_count image.now) }
{
    prove!(image.blocks() <= MOST_BLOCKS);
    image.long(image.root(), FIRST_PAGE + p)
}

/// Long `w` of the bitmap, with the bits past the volume's end cleared. Longs are counted from 0 over all bitmap
/// blocks.
pub fn free_bits(image: &Image, w: u32) -> u32
    requires pages { LawfulPages image.now }
    requires within { BOOT_BLOCKS + LONG_BITS * w < block_count image.now }
    ensures { IsFreeBits image.now w result }
{
    let bits = image.long(
        page_at(image, w / MAP_LONGS),
        FIRST_MAP_LONG + w % MAP_LONGS,
    );
    let left = image.blocks() - BOOT_BLOCKS - LONG_BITS * w;
    if left < LONG_BITS {
        bits & ((1 << left) - 1)
    } else {
        bits
    }
}

/// The bits with bit `i` set (`free`) or cleared.
pub fn with_bit(bits: u32, i: u32, free: bool) -> u32
    requires { i < LONG_BITS }
    ensures { IsBitPut bits i free result }
{
    if free {
        bits | (1 << i)
    } else {
        bits & !(1 << i)
    }
}

/// Long `w` of the bitmap in which each block that is not named is free. Bits past the volume's end are 0.
pub fn unnamed_bits(named: &[bool], w: u32) -> u32
    requires { w < PAGE_LONGS * MAP_LONGS }
    ensures { IsUnnamedBits named.now w result }
{
    let mut bits = 0;
    for i in 0..LONG_BITS {
        let free = is_unnamed_block(named, (BOOT_BLOCKS + LONG_BITS * w + i) as usize);
        bits = with_bit(bits, i, free);
    }
    bits
}

/// Whether the block is inside the volume and not named.
fn is_unnamed_block(named: &[bool], block: usize) -> bool
    ensures { result ≡ is_unnamed named.now block }
{
    block < named.len() && !named[block]
}
