//! The bitmap of an image with known reached blocks.
ghost use Rattle.std.specs.Prelude.{◌≡◌, ◌↔◌, IsTrue, map, is_some, IfOk, IfErr, MatchOption};
ghost use Rattle.adf_block.specs.Whole.{IsImage};
ghost use Rattle.adf_block.specs.Image.{has_free_bit};
ghost use Rattle.ados_model.specs.Accepted.{ShowsNoFault};
ghost use Rattle.ados_model.specs.Rebuilt.{HasValidBitmap};
ghost use Rattle.ados_model.specs.Faults.{InImage, IsReachedAndFree};
ghost use Rattle.ados_map.specs.Pages.{page_block, page_of};
ghost use Rattle.ados_check.specs.Laws.{AreInUse, IsMended};
ghost use Rattle.ados_check.specs.Marks.{IsChecked};
ghost use Rattle.ados_check.specs.BitmapTold.{IsFree, TellsBitmap};

use crate::mark::Mark;
use crate::source::Source;
use adf_block::Image;
use adf_block::beside::CHECKSUM;
use adf_block::layout::{
    BITMAP_FLAG, BITMAP_VALID, BOOT_BLOCKS, FEWEST_BLOCKS, FIRST_MAP_LONG, FIRST_PAGE, LONG_BITS,
    MOST_BLOCKS, PAGE_BITS,
};
use ados_map::rebuild;
use std::alloc::{AllocError, Global};

/// Whether the root's flag says that the bitmap is valid.
pub fn has_valid_bitmap(source: &Source<'_>) -> bool
    requires { TellsBitmap source.now }
    ensures { IsTrue result ↔ HasValidBitmap source.now.bytes }
{
    prove!(source.blocks() >= FEWEST_BLOCKS);
    source.long(source.root(), BITMAP_FLAG) == BITMAP_VALID
}

/// Whether a checked image shows no fault: its bitmap is not valid, or marks no reached block free.
#[tactic(auto, using(crate::proofs::Accepted::checked_is_accepted))]
pub(crate) fn has_sound_bitmap(source: &Source<'_>, marks: &[Option<Mark>]) -> bool
    requires checked { IsChecked source.now.bytes marks.now }
    requires told { TellsBitmap source.now }
    ensures { IsTrue result → ShowsNoFault source.now.bytes }
{
    prove!(source.blocks() >= FEWEST_BLOCKS);
    if !has_valid_bitmap(source) {
        return true;
    }
    reached_and_free(source, marks).is_none()
}

/// The first reached block that the bitmap marks free.
pub(crate) fn reached_and_free(source: &Source<'_>, marks: &[Option<Mark>]) -> Option<u32>
    requires checked { IsChecked source.now.bytes marks.now }
    requires valid { HasValidBitmap source.now.bytes }
    requires told { TellsBitmap source.now }
    ensures found { MatchOption result (AreInUse source.now.bytes marks.now) (λ block. IsReachedAndFree source.now.bytes block) }
    ensures image { IsImage source.now.bytes }
{
    for block in BOOT_BLOCKS..source.blocks() {
        if marks[block as usize].is_some() && is_free(source, block) {
            return Some(block);
        }
    }
    None
}

/// Whether the bitmap block with the bit of a block is inside the image, and marks the block free.
pub fn is_free(source: &Source<'_>, block: u32) -> bool
    requires inside { InImage source.now.bytes block }
    requires told { TellsBitmap source.now }
    ensures { IsTrue result ↔ IsFree source.now.bytes block }
{
    let page = page_with(source, block);
    source.contains(page) && has_bit(source, page, block)
}

/// The bitmap block with the bit of a block.
fn page_with(source: &Source<'_>, block: u32) -> u32
    requires inside { InImage source.now.bytes block }
    requires told { TellsBitmap source.now }
    ensures { result ≡ page_block source.now.bytes (page_of block) }
{
    prove!(source.blocks() <= MOST_BLOCKS);
    source.long(
        source.root(),
        FIRST_PAGE + (block - BOOT_BLOCKS) / PAGE_BITS,
    )
}

/// Whether the bit of a block is set in its bitmap block.
fn has_bit(source: &Source<'_>, page: u32, block: u32) -> bool
    requires inside { InImage source.now.bytes block }
    requires told { TellsBitmap source.now }
    requires page { page ≡ page_block source.now.bytes (page_of block) }
    requires within { InImage source.now.bytes page }
    ensures { result ≡ has_free_bit source.now.bytes block }
{
    let bit = block - BOOT_BLOCKS;
    let bits = source.long(page, FIRST_MAP_LONG + bit % PAGE_BITS / LONG_BITS);
    bits & (1 << (bit % LONG_BITS)) != 0
}

/// Whether each block is reached.
fn reached_blocks(alloc: Global, marks: &[Option<Mark>]) -> Result<Vec<bool>, AllocError>
    ensures { IfOk result (λ named. named.items ≡ map is_some marks.now) }
{
    marks.iter().map(|mark| mark.is_some()).collect(alloc)
}

/// Rebuilds the bitmap so that exactly the reached blocks are in use, and sets the root's flag. All memory is
/// allocated before the first change.
#[tactic(auto, using(crate::proofs::Accepted::lawful_pages))]
pub fn mend(alloc: Global, image: &mut Image, marks: &[Option<Mark>]) -> Result<(), AllocError>
    requires { IsChecked image.old marks.now }
    ensures mended { IfOk result (λ _. IsMended image.old marks.now image.new) }
    ensures refused { IfErr result (λ _. image.new ≡ image.old) }
    ensures was { IsImage image.old }
    ensures image { IsImage image.new }
{
    prove!(image.blocks() >= FEWEST_BLOCKS);
    let named = reached_blocks(alloc, marks)?;
    let root = image.root();
    rebuild(image, &named);
    image.set_long(root, BITMAP_FLAG, BITMAP_VALID);
    image.settle(root, CHECKSUM);
    Ok(())
}
