//! Whether the bitmap of an image can be trusted, and which entries it says are deleted.
ghost use Rattle.std.specs.Prelude.{◌≡◌, ◌≢◌, ◌<◌, ◌↔◌, ℕ, false, All, IfOk, IfSome, IsTrue, MatchBool, MatchOption};
ghost use Rattle.adf_block.specs.Image.{block_count};
ghost use Rattle.adf_block.specs.Whole.{IsImage};
ghost use Rattle.ados_faults.specs.Listed.{ListsAll};
ghost use Rattle.ados_map.specs.Pages.{page_block, pages_of};
ghost use Rattle.ados_model.specs.Accepted.{ShowsNoFault};
ghost use Rattle.ados_model.specs.Faults.{InImage, Shows};
ghost use Rattle.ados_salvage.specs.Deleted.{AreTrustedPages, IsDeleted, IsTrustedBitmap, IsTrustedPage, is_used};
ghost use Rattle.ados_salvage.specs.Sound.{IsSoundHeader};
ghost use Rattle.ados_salvage.specs.steps.Deleting.{AreOfReached, IsDoubt};
ghost use Rattle.ados_salvage.specs.steps.Heading.{AreSound};

use crate::known::header::{is_sound, is_sound_header};
use adf_block::layout::{BITMAP_FLAG, BITMAP_VALID, BOOT_BLOCKS, FIRST_PAGE, MOST_BLOCKS};
use adf_block::{Image, page_count};
use ados_check::{Mark, faultless_marks};
use ados_faults::faults_of_any_disk;
use ados_map::is_free;
use ados_model::{FaultKind, VolumeFault};
use std::alloc::{AllocError, Global};

/// For each block the first place that names it, if one does; or `None` if the bitmap of the image cannot be trusted. An
/// image that the check accepts is not searched for faults.
pub(crate) fn trusted_marks(
    alloc: Global,
    image: &Image,
) -> Result<Option<Vec<Option<Mark>>>, AllocError>
    ensures { IfOk result (λ found. MatchOption found (¬ IsTrustedBitmap image.now) (λ marks. IsTrustedBitmap image.now × AreOfReached image.now marks.items)) }
{
    let Some(marks) = faultless_marks(alloc, image) else {
        return marks_of_faulty(alloc, image);
    };
    if !is_trusted(image, &[]) {
        return Ok(None);
    }
    Ok(Some(marks))
}

/// Whether an image shows no fault, if its bitmap is valid. Of one whose bitmap is not valid nothing is decided.
pub fn is_faultless(alloc: Global, image: &Image) -> bool
    ensures { IsTrue result → ShowsNoFault image.now }
{
    faultless_marks(alloc, image).is_some()
}

/// The same for an image that may show faults.
pub(crate) fn marks_of_faulty(
    alloc: Global,
    image: &Image,
) -> Result<Option<Vec<Option<Mark>>>, AllocError>
    ensures { IfOk result (λ found. MatchOption found (¬ IsTrustedBitmap image.now) (λ marks. IsTrustedBitmap image.now × AreOfReached image.now marks.items)) }
{
    let found = faults_of_any_disk(alloc, image)?;
    if !is_trusted(image, &found.faults) {
        return Ok(None);
    }
    Ok(Some(found.marks))
}

/// Whether the bitmap of an image with these faults can be trusted.
pub(crate) fn is_trusted(image: &Image, faults: &[VolumeFault]) -> bool
    requires shown { All (λ fault. Shows image.now fault.kind fault.block) faults.now }
    requires all { ListsAll image.now faults.now }
    ensures { MatchBool result (IsTrustedBitmap image.now) (¬ IsTrustedBitmap image.now) }
{
    prove!(image.blocks() >= 16);
    if image.long(image.root(), BITMAP_FLAG) != BITMAP_VALID {
        return false;
    }
    if !are_trusted_pages(image) {
        return false;
    }
    are_no_doubts(image, faults)
}

/// Whether none of these faults is one for which the bitmap is not trusted.
fn are_no_doubts(image: &Image, faults: &[VolumeFault]) -> bool
    ensures doubt { MatchBool result (All (λ fault. ¬ IsDoubt image.now fault) faults.now) (¬ All (λ fault. ¬ IsDoubt image.now fault) faults.now) }
    ensures image { IsImage image.now }
{
    prove!(image.blocks() >= 16);
    faults.iter().all(|fault| !is_doubt(image, *fault))
}

/// Whether a fault is one for which the bitmap is not trusted.
fn is_doubt(image: &Image, fault: VolumeFault) -> bool
    ensures { IsTrue result ↔ IsDoubt image.now fault }
{
    fault.kind == FaultKind::MarkedFree || fault.block == image.root()
}

/// Whether each bitmap block can be trusted by itself.
fn are_trusted_pages(image: &Image) -> bool
    ensures { MatchBool result (AreTrustedPages image.now) (¬ AreTrustedPages image.now) }
{
    for p in 0..page_count(image.blocks()) {
        if !is_trusted_page(image, p) {
            return false;
        }
    }
    true
}

/// Whether a bitmap block is inside the image, has a right checksum, and is none of those before it.
fn is_trusted_page(image: &Image, p: u32) -> bool
    requires { p < pages_of image.now }
    ensures { MatchBool result (IsTrustedPage image.now p) (¬ IsTrustedPage image.now p) }
{
    let page = page_at(image, p);
    if page < BOOT_BLOCKS || page >= image.blocks() || image.sum(page) != 0 {
        return false;
    }
    !is_page_before(image, p, page)
}

/// Whether one of the first bitmap blocks is this block.
fn is_page_before(image: &Image, count: u32, page: u32) -> bool
    requires { count < pages_of image.now }
    ensures { MatchBool result ((q : ℕ) × (q < count) × (page_block image.now q ≡ page)) ((q : ℕ) → q < count → page_block image.now q ≢ page) }
{
    for q in 0..count {
        if page_at(image, q) == page {
            return true;
        }
    }
    false
}

/// A bitmap block, by the root.
fn page_at(image: &Image, p: u32) -> u32
    requires { p < pages_of image.now }
    ensures { result ≡ page_block image.now p }
{
    prove!(image.blocks() <= MOST_BLOCKS);
    image.long(image.root(), FIRST_PAGE + p)
}

/// Whether a block is a deleted entry, by a trusted bitmap. `sound` marks the sound headers, if they are known.
#[tactic(auto, using(crate::proofs::Trusting::trusted_pages))]
pub(crate) fn is_deleted(image: &Image, sound: Option<&[bool]>, block: u32) -> bool
    requires inside { InImage image.now block }
    requires trusted { IsTrustedBitmap image.now }
    requires marks { IfSome sound (λ marks. AreSound image.now marks.now) }
    ensures { MatchBool result (IsDeleted image.now block) (¬ IsDeleted image.now block) }
{
    is_free(image, block) && is_sound_by(image, sound, block)
}

/// Whether a block is a sound header, by the marks of all blocks if there are some.
fn is_sound_by(image: &Image, sound: Option<&[bool]>, block: u32) -> bool
    requires inside { block < block_count image.now }
    requires marks { IfSome sound (λ marks. AreSound image.now marks.now) }
    ensures { IsTrue result ↔ IsSoundHeader image.now block }
{
    match sound {
        Some(marks) => is_sound(marks, block),
        None => is_sound_header(image, block),
    }
}

/// Whether a block is one of the volume that is marked used.
#[tactic(auto, using(crate::proofs::Trusting::trusted_pages))]
pub fn is_used(image: &Image, block: u32) -> bool
    requires { IsTrustedBitmap image.now }
    ensures { result ≡ is_used image.now block }
{
    BOOT_BLOCKS <= block && block < image.blocks() && !is_free(image, block)
}
