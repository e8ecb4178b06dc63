//! A new volume with what was saved of a damaged image.
ghost use Rattle.std.specs.Prelude.{IfOk};
ghost use Rattle.adf_import.specs.SavedLeft.{IsVolumeOf};

use crate::bundle_put::with_head;
use crate::saved_fill::fill;
use crate::saved_head::{boot_for, has_boot, has_head, head_of};
use crate::saved_left::{LeftOut, left_entries};
use crate::saved_look::look_through;
use crate::saved_names::OwnNames;
use crate::saved_plan::SavedPlan;
use adf_block::{Image, size_ok};
use adf_record::BundleHead;
use ados_name::Date3;
use ados_salvage::Salvage;
use ados_volume::{Volume, blank, check};
use std::alloc::{AllocError, Global};

/// A new volume with what was saved of a damaged image.
#[derive(Drop)]
pub struct SavedVolume {
    pub volume: Volume,
    /// The names of its directories for what is not whole and for what was found, if there are any.
    pub own: OwnNames,
    /// The entries of the salvage that it has not.
    pub left: Vec<LeftEntry>,
}

/// An entry of a salvage that is left out of a new volume.
#[derive(Clone, Copy)]
pub struct LeftEntry {
    /// Its position.
    pub place: usize,
    pub why: LeftOut,
}

/// A new volume with the entries of a salvage: whole ones at their paths, others below `Damaged`, each with its bytes and its metadata.
/// The comment of one that is not whole says why.
///
/// It has the kind of the image, its number of blocks, and its label, dates and boot block, if these are sound; without them it has the
/// date `moment`. What is whole comes first, then what was found, then what is doubtful, then what is broken. What does not fit is
/// left out.
///
/// The volume is checked and looked through when it is made: each entry is there with all that was saved of it, or it is left out for
/// a reason that holds. There is no volume if memory runs out, or if it is not so.
pub fn volume_of_salvage(
    alloc: Global,
    salvage: &Salvage,
    moment: Date3,
) -> Result<SavedVolume, AllocError>
    ensures { IfOk result (λ saved. IsVolumeOf salvage.now moment saved.volume.image saved.own saved.left.items) }
{
    let head = head_of(salvage.image(), moment);
    let plan = SavedPlan::of(alloc, salvage.entries())?;
    let image = image_of(alloc, salvage, &plan, &head)?;
    let Ok(mut volume) = check(alloc, image) else {
        return Err(AllocError);
    };
    let is_headed = has_head(alloc, &volume, &head)?;
    if !is_headed || !has_boot(volume.image(), salvage) {
        return Err(AllocError);
    }
    let looked = look_through(alloc, &mut volume, salvage, &plan)?;
    let left = left_entries(alloc, &volume, salvage, &plan, &looked)?;
    let own = plan.own;
    Ok(SavedVolume { volume, own, left })
}

/// The image with the entries of a salvage and this head.
fn image_of(
    alloc: Global,
    salvage: &Salvage,
    plan: &SavedPlan,
    head: &BundleHead,
) -> Result<Image, AllocError> {
    if !size_ok(head.blocks) {
        return Err(AllocError);
    }
    let mut volume = blank(alloc, head.format, head.blocks, head.label, head.created)?;
    fill(alloc, &mut volume, salvage, &plan.items, head.changed)?;
    match with_head(volume, head, boot_for(salvage)) {
        Ok(image) => Ok(image),
        Err(_) => Err(AllocError),
    }
}
