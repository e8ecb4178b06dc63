//! Blocks that nobody read, and fillers in place of what nobody read.
ghost use Rattle.std.specs.Prelude.{◌≡◌, ◌<◌, ℕ, false, IfOk};
ghost use Rattle.adf_block.specs.Frame.{OnlyBlock};
ghost use Rattle.adf_block.specs.Image.{block_count};
ghost use Rattle.ados_census.specs.Fillers.{HoldsFiller};
ghost use Rattle.ados_census.specs.Reached.{IsReached};
ghost use Rattle.ados_model.specs.declared.role.Role.TheVariants.{Data as data_of};
ghost use Rattle.ados_model.specs.Faults.{InImage, Reached as IsReachedAs};
ghost use Rattle.ados_salvage.specs.Marks.{IsHole};
ghost use Rattle.ados_salvage.specs.Holes.{IsEmptied, IsEmpty, LeadsToNoFiller, LeadsToNoHole, LeadsToNone};

use crate::known::is_hole;
use adf_block::Image;
use adf_block::layout::BOOT_BLOCKS;
use ados_census::{Reached, holds_filler, reached_blocks};
use std::alloc::{AllocError, Global};

/// The image with nothing in its holes.
pub(crate) fn emptied(image: Image, holes: &[bool]) -> Image
    ensures { IsEmptied holes.now image result }
{
    let mut image = image;
    for block in 0..image.blocks() {
        if is_hole(holes, block) {
            empty(&mut image, block);
        }
    }
    image
}

/// Empties a block. It has no type of the disk and a wrong checksum then, so that it is taken for no header, no extension block, no
/// OFS data block and no bitmap block.
fn empty(image: &mut Image, block: u32)
    requires { block < block_count image.old }
    ensures empty { IsEmpty image.new block }
    ensures rest { OnlyBlock block image.old image.new }
{
    image.clear(block);
    image.put_bytes(block, 3, &[1]);
}

/// Whether the root leads to a hole, or if a list of unread blocks was given, to a data block that holds a known filler.
pub(crate) fn leads_to_unread(
    alloc: Global,
    image: &Image,
    holes: &[bool],
    listed: bool,
) -> Result<bool, AllocError>
    ensures { IfOk result (λ leads. leads ≡ false → LeadsToNone holes.now listed image.now) }
{
    let hole = reaches_hole(alloc, image, holes)?;
    if hole {
        return Ok(true);
    }
    if !listed {
        return Ok(false);
    }
    reaches_filler(alloc, image)
}

/// Whether the root leads to a hole.
fn reaches_hole(alloc: Global, image: &Image, holes: &[bool]) -> Result<bool, AllocError>
    ensures { IfOk result (λ reaches. reaches ≡ false → LeadsToNoHole holes.now image.now) }
{
    if holes.is_empty() {
        return Ok(false);
    }
    let reached = reached_blocks(alloc, image)?;
    for block in BOOT_BLOCKS..image.blocks() {
        if is_reached_hole(&reached, holes, block) {
            return Ok(true);
        }
    }
    Ok(false)
}

/// Whether a block is a hole to which the root leads.
fn is_reached_hole(reached: &Reached<'_>, holes: &[bool], block: u32) -> bool
    requires { InImage reached.now block }
    ensures { result ≡ false → IsReached reached.now block → ¬ IsHole holes.now block }
{
    is_hole(holes, block) && reached.has(block)
}

/// Whether the root leads to a data block that holds a known filler. A bitmap block counts as one.
fn reaches_filler(alloc: Global, image: &Image) -> Result<bool, AllocError>
    ensures { IfOk result (λ reaches. reaches ≡ false → LeadsToNoFiller image.now) }
{
    let reached = reached_blocks(alloc, image)?;
    for block in BOOT_BLOCKS..image.blocks() {
        if is_reached_filler(image, &reached, block) {
            return Ok(true);
        }
    }
    Ok(false)
}

/// Whether a block holds a known filler, and the root leads to it as a data block or as a bitmap block.
fn is_reached_filler(image: &Image, reached: &Reached<'_>, block: u32) -> bool
    requires inside { block < block_count image.now }
    requires reached { reached.now ≡ image.now }
    ensures { result ≡ false → (file : ℕ) → IsReachedAs image.now block (data_of file) → ¬ HoldsFiller image.now block }
{
    if !holds_filler(image, block) {
        return false;
    }
    reached.has_leaf(block)
}
