//! The faults that a new bitmap mends, and others.
ghost use Rattle.std.specs.Prelude.{◌<◌, ◌↔◌, IsTrue, MatchOption, MatchResult, All, Bool, Contains};
ghost use Rattle.ados_validate.specs.Answer.{IsReason};
ghost use Rattle.ados_map.specs.Pages.{IsPage};
ghost use Rattle.ados_validate.specs.Mendable.{IsMendable, ShowsOnlyMendable};

use crate::answer::NotValidated;
use adf_block::layout::{FIRST_PAGE, MOST_BLOCKS};
use adf_block::{Image, page_count};
use ados_faults::faults_of_any_disk;
use ados_model::{FaultKind, VolumeFault};
use std::alloc::Global;

/// Refuses an image that shows a fault which a new bitmap does not mend.
pub(crate) fn refuse_other_faults(alloc: Global, image: &Image) -> Result<(), NotValidated>
    ensures { (force : Bool) → MatchResult result (λ _. ShowsOnlyMendable image.now) (IsReason image.now force) }
{
    let Ok(found) = faults_of_any_disk(alloc, image) else {
        return Err(NotValidated::Memory);
    };
    match first_other(image, &found.faults) {
        Some(fault) => Err(NotValidated::OtherFault(fault)),
        None => Ok(()),
    }
}

/// The first of these faults that a new bitmap does not mend.
fn first_other(image: &Image, faults: &[VolumeFault]) -> Option<VolumeFault>
    ensures { MatchOption result
        (All (λ fault. IsMendable image.now fault.kind fault.block) faults.now)
        (λ fault. Contains faults.now fault × ¬ IsMendable image.now fault.kind fault.block) }
{
    for fault in faults {
        if !is_mendable(image, *fault) {
            return Some(*fault);
        }
    }
    None
}

/// Whether a new bitmap mends a fault.
fn is_mendable(image: &Image, fault: VolumeFault) -> bool
    ensures { IsTrue result ↔ IsMendable image.now fault.kind fault.block }
{
    match fault.kind {
        FaultKind::MarkedFree => true,
        FaultKind::BadSum => is_page(image, fault.block),
        _ => false,
    }
}

/// Whether the root names a block as a bitmap block.
fn is_page(image: &Image, block: u32) -> bool
    ensures { IsTrue result ↔ IsPage image.now block }
{
    prove!(image.blocks() <= MOST_BLOCKS);
    for p in 0..page_count(image.blocks()) {
        if image.long(image.root(), FIRST_PAGE + p) == block {
            return true;
        }
    }
    false
}
