//! The headers to which the root does not lead, and what files claim without them.
ghost use Rattle.std.specs.Prelude.{◌≡◌, ◌<◌, ◌⊎◌, All, Contains, IfOk, MatchBool};
ghost use Rattle.adf_block.specs.Image.{block_count};
ghost use Rattle.ados_model.specs.Faults.{IsEntry};
ghost use Rattle.ados_salvage.specs.Found.{AreUnreached};
ghost use Rattle.ados_salvage.specs.Known.{AreReachedClaims};
ghost use Rattle.ados_salvage.specs.Sound.{IsSoundHeader};
ghost use Rattle.ados_salvage.specs.steps.Heading.{AreSound};

use crate::known::claims::{Claim, claims};
use crate::known::header::is_sound;
use crate::known::left_out::LeftOut;
use adf_block::Image;
use ados_census::{Reached, reached_blocks};
use std::alloc::{AllocError, Global};

/// For each block of an image, the sound files that claim it. Those that are left out claim none, nor do those to which the root
/// does not lead. `sound` marks the sound headers.
pub(crate) fn reached_claims(
    alloc: Global,
    image: &Image,
    left_out: &LeftOut,
    sound: &[bool],
) -> Result<Vec<Claim>, AllocError>
    requires sound { AreSound image.now sound.now }
    requires inside { All (λ header. header < block_count image.now) left_out.now }
    ensures { IfOk result (λ claims. AreReachedClaims left_out.now image.now claims.items) }
{
    let unreached = unreached_headers(alloc, image, left_out, sound)?;
    claims(alloc, image, &unreached, sound)
}

/// The headers that are left out, and all other sound headers to which the root does not lead as entries.
fn unreached_headers(
    alloc: Global,
    image: &Image,
    left_out: &LeftOut,
    sound: &[bool],
) -> Result<LeftOut, AllocError>
    requires sound { AreSound image.now sound.now }
    requires inside { All (λ header. header < block_count image.now) left_out.now }
    ensures { IfOk result (λ unreached. AreUnreached left_out.now image.now unreached) }
{
    let reached = reached_blocks(alloc, image)?;
    let mut headers = Vec::new(alloc);
    for block in 0..image.blocks() {
        if is_unreached(image, &reached, left_out, sound, block) {
            headers.push(block)?;
        }
    }
    LeftOut::of(alloc, image, headers)
}

/// Whether a block is left out, or is a sound header to which the root does not lead as an entry.
fn is_unreached(
    image: &Image,
    reached: &Reached<'_>,
    left_out: &LeftOut,
    sound: &[bool],
    block: u32,
) -> bool
    requires inside { block < block_count image.now }
    requires reached { reached.now ≡ image.now }
    requires sound { AreSound image.now sound.now }
    ensures { MatchBool result (Contains left_out.now block ⊎ ¬ IsEntry image.now block)
        ((¬ Contains left_out.now block) × (IsSoundHeader image.now block → IsEntry image.now block)) }
{
    if left_out.has(block) {
        return true;
    }
    is_sound(sound, block) && !reached.has_entry(block)
}
