//! The headers of an image that its tree does not have: those among its lost blocks, and those that are hidden.
ghost use Rattle.std.specs.Prelude.{◌≡◌, ◌⊎◌, IfOk, MatchBool};
ghost use Rattle.ados_model.specs.Faults.{InImage, IsEntry};
ghost use Rattle.ados_salvage.specs.Deleted.{IsTrustedBitmap};
ghost use Rattle.ados_salvage.specs.Doubtful.{LooksLikeHeader};
ghost use Rattle.ados_salvage.specs.Found.{AreHidden, IsHidden, IsLostHeader};
ghost use Rattle.ados_salvage.specs.steps.Heading.{AreSound};

use crate::known::header::{is_sound, looks_like_header};
use crate::known::left_out::LeftOut;
use crate::known::trust::is_used;
use adf_block::Image;
use adf_block::layout::BOOT_BLOCKS;
use ados_census::{Reached, reached_blocks};
use std::alloc::{AllocError, Global};

/// The blocks of an image that look like headers, but for its entries and the sound headers among its lost blocks. `sound` marks the
/// sound headers.
pub(crate) fn hidden_headers(
    alloc: Global,
    image: &Image,
    sound: &[bool],
) -> Result<LeftOut, AllocError>
    requires trusted { IsTrustedBitmap image.now }
    requires sound { AreSound image.now sound.now }
    ensures { IfOk result (λ hidden. AreHidden image.now hidden) }
{
    prove!(image.blocks() >= 16);
    let reached = reached_blocks(alloc, image)?;
    let mut headers = Vec::new(alloc);
    for block in BOOT_BLOCKS..image.blocks() {
        if is_hidden(image, &reached, sound, block) {
            headers.push(block)?;
        }
    }
    LeftOut::of(alloc, image, headers)
}

/// Whether a block looks like a header, and is neither an entry nor a sound header among the lost blocks.
fn is_hidden(image: &Image, reached: &Reached<'_>, sound: &[bool], block: u32) -> bool
    requires inside { InImage image.now block }
    requires trusted { IsTrustedBitmap image.now }
    requires reached { reached.now ≡ image.now }
    requires sound { AreSound image.now sound.now }
    ensures { MatchBool result (IsHidden image.now block) (LooksLikeHeader image.now block → IsEntry image.now block ⊎ IsLostHeader image.now block) }
{
    if !looks_like_header(image, block) {
        return false;
    }
    if reached.has_entry(block) {
        return false;
    }
    !is_lost_header(image, reached, sound, block)
}

/// Whether a block is a sound header that is marked used, and to which the root does not lead.
fn is_lost_header(image: &Image, reached: &Reached<'_>, sound: &[bool], block: u32) -> bool
    requires inside { InImage image.now block }
    requires trusted { IsTrustedBitmap image.now }
    requires reached { reached.now ≡ image.now }
    requires sound { AreSound image.now sound.now }
    ensures { MatchBool result (IsLostHeader image.now block) (¬ IsLostHeader image.now block) }
{
    if !is_sound(sound, block) || !is_used(image, block) {
        return false;
    }
    !reached.has(block)
}
