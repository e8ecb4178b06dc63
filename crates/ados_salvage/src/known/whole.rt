//! The whole files of an image.
ghost use Rattle.std.specs.Prelude.{◌≡◌, ◌<◌, ℕ, List, All, IfOk, MatchBool};
ghost use Rattle.adf_block.specs.Image.{block_count};
ghost use Rattle.ados_census.specs.Fillers.{HoldsFiller};
ghost use Rattle.ados_model.specs.File.{data_blocks};
ghost use Rattle.ados_salvage.specs.Found.{HasItsBlocks, HasNoFiller, IsSavedWhole};
ghost use Rattle.ados_salvage.specs.Sound.{IsIntact, IsWhole, own_blocks};
ghost use Rattle.ados_salvage.specs.Known.{AreAllClaims, AreKnown, HasClaim};

use crate::known::claims::{Claim, are_alone};
use crate::known::holders::data_needed;
use crate::known::holes::are_there;
use crate::known::image_known::Known;
use crate::known::intact::named_blocks;
use adf_block::Image;
use ados_census::holds_filler;
use std::alloc::{AllocError, Global};

/// Whether a file is saved whole: it has all its blocks, and if fillers count, none of its data blocks holds one.
pub fn is_whole(known: &Known, file: u32) -> Result<bool, AllocError>
    requires inside { file < block_count known.now.image }
    requires known { AreKnown known.now }
    ensures { IfOk result (λ whole. MatchBool whole (IsSavedWhole known.now.left_out known.now.holes.items known.now.fillers known.now.image file) (¬ IsSavedWhole known.now.left_out known.now.holes.items known.now.fillers known.now.image file)) }
{
    let has = has_its_blocks(known, file)?;
    if !has {
        return Ok(false);
    }
    if !known.fillers {
        return Ok(true);
    }
    has_no_filler(known.alloc, &known.image, file)
}

/// Whether a file has all its blocks. Files that are left out claim no blocks. If the root leads to it, it keeps its blocks against
/// files to which the root does not lead.
fn has_its_blocks(known: &Known, file: u32) -> Result<bool, AllocError>
    requires inside { file < block_count known.now.image }
    requires known { AreKnown known.now }
    ensures { IfOk result (λ has. MatchBool has (HasItsBlocks known.now.left_out known.now.holes.items known.now.image file) (¬ HasItsBlocks known.now.left_out known.now.holes.items known.now.image file)) }
{
    if is_whole_by(known, &known.claims, file)? {
        return Ok(true);
    }
    is_whole_by(known, &known.reached_claims, file)
}

/// Whether a file is whole by these claims. If only this file claims its header, its blocks are sound, and need no second look.
fn is_whole_by(known: &Known, claims: &[Claim], file: u32) -> Result<bool, AllocError>
    requires inside { file < block_count known.now.image }
    requires claims { (out : List ℕ) × AreAllClaims (HasClaim out known.now.image) (block_count known.now.image) claims.now }
    ensures { IfOk result (λ whole. (out : List ℕ) → AreAllClaims (HasClaim out known.now.image) (block_count known.now.image) claims.now → MatchBool whole (IsWhole out known.now.holes.items known.now.image file) (¬ IsWhole out known.now.holes.items known.now.image file)) }
{
    if claims[file as usize] != Claim::One(file) {
        return Ok(false);
    }
    let Some(blocks) = named_blocks(known.alloc, &known.image, file)? else {
        return Ok(false);
    };
    if !are_there(&known.holes, &blocks) {
        return Ok(false);
    }
    Ok(are_alone(claims, file, &blocks))
}

/// Whether no data block of a sound file holds a known filler.
fn has_no_filler(alloc: Global, image: &Image, file: u32) -> Result<bool, AllocError>
    requires { IsIntact image.now file }
    ensures { IfOk result (λ none. MatchBool none (HasNoFiller image.now file) (¬ HasNoFiller image.now file)) }
{
    let Some(blocks) = named_blocks(alloc, image, file)? else {
        return Ok(true);
    };
    Ok(hold_no_filler(image, data_among(image, file, &blocks)))
}

/// The data blocks of a file, among all blocks that its pointers name.
fn data_among<'a>(image: &Image, file: u32, blocks: &'a [u32]) -> &'a [u32]
    requires file { file < block_count image.now }
    requires blocks { blocks.now ≡ own_blocks image.now file }
    ensures { result.now ≡ data_blocks image.now file }
{
    let first = blocks.len() - data_needed(image, file) as usize;
    &blocks[first..]
}

/// Whether none of these blocks holds a known filler.
fn hold_no_filler(image: &Image, blocks: &[u32]) -> bool
    requires { All (λ block. block < block_count image.now) blocks.now }
    ensures { MatchBool result (All (λ block. ¬ HoldsFiller image.now block) blocks.now) (¬ All (λ block. ¬ HoldsFiller image.now block) blocks.now) }
{
    for block in blocks {
        if holds_filler(image, *block) {
            return false;
        }
    }
    true
}
