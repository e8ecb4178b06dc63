//! The entries that would be deleted ones by a bitmap that cannot be trusted.
ghost use Rattle.std.specs.Prelude.{◌≡◌, ◌<◌, IfOk, MatchBool};
ghost use Rattle.adf_block.specs.Image.{IsInside, block_count, has_free_bit};
ghost use Rattle.adf_rescue.specs.Untrusted.{AreMarked, IsFreeHeader, WouldBeDeleted, is_marked_free, page_for};

use adf_block::Image;
use adf_block::layout::{
    BOOT_BLOCKS, FIRST_MAP_LONG, FIRST_PAGE, LONG_BITS, MOST_BLOCKS, PAGE_BITS,
};
use ados_salvage::{Salvage, Salvaged, is_sound_header};
use std::alloc::{AllocError, Global};

/// For each entry of a salvage, whether it would be a deleted one if its bitmap could be trusted.
pub(crate) fn untrusted_marks(alloc: Global, salvage: &Salvage) -> Result<Vec<bool>, AllocError>
    ensures { IfOk result (λ marks. AreMarked salvage.now marks.items) }
{
    let entries = salvage.entries();
    let mut marks = Vec::with_capacity(alloc, entries.len())?;
    for entry in entries {
        marks.push(would_be_deleted(salvage, entry))?;
    }
    Ok(marks)
}

/// Whether an entry would be a deleted one if the bitmap could be trusted.
fn would_be_deleted(salvage: &Salvage, entry: &Salvaged) -> bool
    ensures { MatchBool result (WouldBeDeleted salvage.now entry.now) (¬ WouldBeDeleted salvage.now entry.now) }
{
    if salvage.is_bitmap_trusted() || !entry.found {
        return false;
    }
    is_free_header(salvage.image(), entry.header)
}

/// Whether a block is a sound header that the bitmap marks free.
fn is_free_header(image: &Image, block: u32) -> bool
    ensures { MatchBool result (IsFreeHeader image.now block) (¬ IsFreeHeader image.now block) }
{
    if block < BOOT_BLOCKS || block >= image.blocks() {
        return false;
    }
    is_sound_header(image, block) && is_marked_free(image, block)
}

/// Whether the bitmap block for a block is one of the volume and marks it free.
fn is_marked_free(image: &Image, block: u32) -> bool
    requires inside { IsInside (block_count image.now) block }
    ensures { result ≡ is_marked_free image.now block }
{
    let page = page_for(image, block);
    page >= BOOT_BLOCKS && page < image.blocks() && has_free_bit(image, page, block)
}

/// The bitmap block that the root names for a block.
fn page_for(image: &Image, block: u32) -> u32
    requires inside { IsInside (block_count image.now) block }
    ensures { result ≡ page_for image.now block }
{
    prove!(image.blocks() <= MOST_BLOCKS);
    image.long(image.root(), FIRST_PAGE + (block - BOOT_BLOCKS) / PAGE_BITS)
}

/// Whether the bitmap block for a block marks it free.
fn has_free_bit(image: &Image, page: u32, block: u32) -> bool
    requires inside { IsInside (block_count image.now) block }
    requires page { page ≡ page_for image.now block }
    requires there { page < block_count image.now }
    ensures { result ≡ has_free_bit image.now block }
{
    let bit = block - BOOT_BLOCKS;
    image.long(page, FIRST_MAP_LONG + bit % PAGE_BITS / LONG_BITS) & (1 << (bit % LONG_BITS)) != 0
}
