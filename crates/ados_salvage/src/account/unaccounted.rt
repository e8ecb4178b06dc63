//! The account of an image: the blocks that are used and belong to nothing that a salvage tells.
ghost use Rattle.std.specs.Prelude.{◌≡◌, IfOk, MatchBool, MatchOption, is_none};
ghost use Rattle.ados_model.specs.Faults.{InImage};
ghost use Rattle.ados_salvage.specs.Deleted.{IsTrustedBitmap};
ghost use Rattle.ados_salvage.specs.Account.{AreUnaccounted, CountsAsUsed, HasContent, IsUnaccounted};
ghost use Rattle.ados_salvage.specs.steps.Accounting.{AreAccounted, needed};

use crate::Salvage;
use crate::account::accounted::accounted_marks;
use crate::known::is_hole;
use adf_block::Image;
use adf_block::layout::{BLOCK_BYTES, BOOT_BLOCKS};
use ados_census::{Reached, reached_blocks};
use ados_map::is_free;
use std::alloc::{AllocError, Global};

/// The blocks of the volume that are used and belong to nothing that a salvage tells, in order.
///
/// The root, the bitmap blocks and the headers of all entries are accounted for, all blocks of whole files, the blocks given
/// to files that are not whole, and their extension blocks. If the bitmap can be trusted, all blocks that it does not mark
/// free are used; else all that are not filled with zeros, and all that the root leads to. A hole is not used.
///
/// Time and memory grow about linearly with the size of the image.
pub fn unaccounted_blocks(alloc: Global, salvage: &Salvage) -> Result<Vec<u32>, AllocError>
    ensures { IfOk result (λ blocks. AreUnaccounted salvage.now blocks.items) }
{
    let marks = accounted_marks(alloc, salvage)?;
    let reached = needed_reached(alloc, salvage)?;
    unmarked_blocks(alloc, salvage, &marks, &reached)
}

/// The reached blocks, if the bitmap is not trusted.
fn needed_reached(alloc: Global, salvage: &Salvage) -> Result<Option<Reached<'_>>, AllocError>
    ensures { IfOk result (λ reached. reached ≡ needed salvage.now.trusted salvage.now.image) }
{
    if salvage.is_bitmap_trusted() {
        return Ok(None);
    }
    let reached = reached_blocks(alloc, salvage.image())?;
    Ok(Some(reached))
}

/// The blocks of the volume that are used and have no mark.
fn unmarked_blocks(
    alloc: Global,
    salvage: &Salvage,
    marks: &[bool],
    reached: &Option<Reached<'_>>,
) -> Result<Vec<u32>, AllocError>
    requires marks { AreAccounted salvage.now marks.now }
    requires reached { reached.now ≡ needed salvage.now.trusted salvage.now.image }
    ensures { IfOk result (λ blocks. AreUnaccounted salvage.now blocks.items) }
{
    let count = salvage.image().blocks();
    let mut blocks = Vec::new(alloc);
    for block in BOOT_BLOCKS..count {
        if is_unaccounted(salvage, marks, reached, block) {
            blocks.push(block)?;
        }
    }
    Ok(blocks)
}

/// Whether a block is used and has no mark.
fn is_unaccounted(
    salvage: &Salvage,
    marks: &[bool],
    reached: &Option<Reached<'_>>,
    block: u32,
) -> bool
    requires inside { InImage salvage.now.image block }
    requires marks { AreAccounted salvage.now marks.now }
    requires reached { reached.now ≡ needed salvage.now.trusted salvage.now.image }
    ensures { MatchBool result (IsUnaccounted salvage.now block) (¬ IsUnaccounted salvage.now block) }
{
    if marks[block as usize] {
        return false;
    }
    if is_hole(salvage.holes(), block) {
        return false;
    }
    counts_as_used(salvage.image(), reached, block)
}

/// Whether a block counts as used. The bitmap is trusted, or the reached blocks are there.
#[tactic(auto, using(crate::proofs::Trusting::trusted_pages))]
fn counts_as_used(image: &Image, reached: &Option<Reached<'_>>, block: u32) -> bool
    requires inside { InImage image.now block }
    requires reached { MatchOption reached.now (IsTrustedBitmap image.now) (λ them. them ≡ image.now) }
    ensures { MatchBool result (CountsAsUsed image.now (is_none reached.now) block) (¬ CountsAsUsed image.now (is_none reached.now) block) }
{
    match reached {
        Some(reached) => has_content(image, block) || reached.has(block),
        None => !is_free(image, block),
    }
}

/// Whether a byte of a block is not 0.
fn has_content(image: &Image, block: u32) -> bool
    requires { InImage image.now block }
    ensures { MatchBool result (HasContent image.now block) (¬ HasContent image.now block) }
{
    for at in 0..BLOCK_BYTES {
        if image.byte(block, at) != 0 {
            return true;
        }
    }
    false
}
