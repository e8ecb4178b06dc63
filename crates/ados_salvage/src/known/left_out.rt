//! The headers that are left out of a salvage.
ghost use Rattle.std.specs.Prelude.{◌≡◌, ◌<◌, ℕ, List, [], All, Contains, IfOk, IfSome, MatchBool, MatchOption};
ghost use Rattle.adf_block.specs.Image.{block_count};
ghost use Rattle.ados_model.specs.Accepted.{ShowsNoFault};
ghost use Rattle.ados_salvage.specs.Deleted.{AreDeleted, IsTrustedBitmap, TellsTrust};
ghost use Rattle.ados_salvage.specs.steps.Heading.{AreSound};

use crate::known::trust::{is_deleted, is_trusted, marks_of_faulty};
use adf_block::Image;
use adf_block::layout::BOOT_BLOCKS;
use std::alloc::{AllocError, Global};
use std::marker::Model;

/// Headers that are left out: there is no entry of them, and they claim no blocks.
///
/// Contracts see the list of them.
#[derive(Drop)]
pub struct LeftOut {
    headers: Vec<u32>,
    /// For each block, whether it is one of them. A block without a mark is none.
    marks: Vec<bool>,
}

impl Model for LeftOut {
    ghost use Rattle.std.specs.Prelude.{List, ℕ};
    ghost use Rattle.ados_salvage.specs.steps.Leaving.{AreMarked};

    ghost Value = { List ℕ };

    ghost view = { λ l. l.headers.items };

    ghost invariant = { λ l. AreMarked l.marks.items l.headers.items };
}

/// The headers of the deleted entries of an image, and whether its bitmap is trusted. `sound` marks the sound headers.
pub(crate) fn left_out_of(
    alloc: Global,
    image: &Image,
    sound: &[bool],
) -> Result<(LeftOut, bool), AllocError>
    requires { AreSound image.now sound.now }
    ensures deleted { IfOk result (λ left. AreDeleted image.now left.0) }
    ensures trust { IfOk result (λ left. TellsTrust image.now left.1) }
{
    if marks_of_faulty(alloc, image)?.is_none() {
        return Ok((LeftOut::none(alloc), false));
    }
    let headers = deleted_headers(alloc, image, Some(sound))?;
    let left_out = LeftOut::of(alloc, image, headers)?;
    Ok((left_out, true))
}

/// The headers of the deleted entries of an image without faults, or `None` if its bitmap cannot be trusted. No fault has to
/// be looked for again.
pub fn faultless_deleted(alloc: Global, image: &Image) -> Result<Option<Vec<u32>>, AllocError>
    requires { ShowsNoFault image.now }
    ensures { IfOk result (λ found. MatchOption found (¬ IsTrustedBitmap image.now) (λ headers. IsTrustedBitmap image.now × AreDeleted image.now headers.items)) }
{
    if !is_trusted(image, &[]) {
        return Ok(None);
    }
    let headers = deleted_headers(alloc, image, None)?;
    Ok(Some(headers))
}

/// The headers of the deleted entries of an image with a trusted bitmap. `sound` marks the sound headers, if they are known.
/// Otherwise only free blocks are looked at.
pub(crate) fn deleted_headers(
    alloc: Global,
    image: &Image,
    sound: Option<&[bool]>,
) -> Result<Vec<u32>, AllocError>
    requires trusted { IsTrustedBitmap image.now }
    requires marks { IfSome sound (λ marks. AreSound image.now marks.now) }
    ensures { IfOk result (λ headers. AreDeleted image.now headers.items) }
{
    prove!(image.blocks() >= 16);
    let mut headers = Vec::new(alloc);
    for block in BOOT_BLOCKS..image.blocks() {
        if is_deleted(image, sound, block) {
            headers.push(block)?;
        }
    }
    Ok(headers)
}

impl LeftOut {
    /// No header is left out.
    pub(crate) fn none(alloc: Global) -> LeftOut
        ensures { result ≡ [] }
    {
        LeftOut {
            headers: Vec::new(alloc),
            marks: Vec::new(alloc),
        }
    }

    /// These headers.
    pub(crate) fn of(alloc: Global, image: &Image, headers: Vec<u32>) -> Result<LeftOut, AllocError>
        requires { All (λ header. header < block_count image.now) headers.items }
        ensures { IfOk result (λ left_out. left_out ≡ headers.items) }
    {
        let mut marks = vec![in alloc; false; image.blocks() as usize]?;
        for header in &headers {
            marks[*header as usize] = true;
        }
        Ok(LeftOut { headers, marks })
    }

    /// Whether a block is one of them.
    pub fn has(&self, block: u32) -> bool
        ensures { MatchBool result (Contains self.now block) (¬ Contains self.now block) }
    {
        match self.marks.get(block as usize) {
            Some(mark) => *mark,
            None => false,
        }
    }

    /// The list of them.
    pub fn into_headers(self) -> Vec<u32>
        ensures { result.items ≡ self }
    {
        self.headers
    }
}
