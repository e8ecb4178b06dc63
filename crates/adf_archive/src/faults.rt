//! The faults of a refused image.
ghost use Rattle.std.specs.Prelude.{◌≡◌, ◌<◌, ℕ, List, All, IfOk, IsTrue, length, map, true, false};
ghost use Rattle.ados_model.specs.Faults.{Shows};
ghost use Rattle.ados_faults.specs.Listed.{AreAllFaults, AreMarks};
ghost use Rattle.adf_archive.specs.Report.{HasValues, IsOfMarks, IsReportFor, ShowsOnlyMarks};

use crate::checking::Detail;
use crate::report::{ImageReport, RefusedImage, ShownFault};
use adf_block::Image;
use ados_faults::{AllFaults, Mark, all_faults, explain, place_of, second_places, values_of};
use ados_model::{FaultKind, Role, VolumeFault};
use std::alloc::{AllocError, Global};

/// The most faults reported for an image.
pub const MOST_FAULTS: usize = 1_000;

/// The report on a refused image, one of whose faults is known: only that one, or all in order.
pub(crate) fn refused(
    alloc: Global,
    image: &Image,
    fault: VolumeFault,
    detail: Detail<'_>,
) -> Result<ImageReport, AllocError>
    requires { Shows image.now fault.kind fault.block }
    ensures { IfOk result (IsReportFor detail.entry image.now) }
{
    let found = all_faults(alloc, image, MOST_FAULTS)?;
    if detail.all {
        return told(alloc, image, &found, &found.faults, found.more, detail);
    }
    told(alloc, image, &found, &[fault], false, detail)
}

/// The report with these faults, which are all or one of those that were found.
fn told(
    alloc: Global,
    image: &Image,
    found: &AllFaults,
    faults: &[VolumeFault],
    more: bool,
    detail: Detail<'_>,
) -> Result<ImageReport, AllocError>
    requires some { 0 < length faults.now }
    requires shown { All (λ fault. Shows image.now fault.kind fault.block) faults.now }
    requires marks { AreMarks image.now found.now.marks.items }
    requires found { AreAllFaults image.now 1000 found.now.more found.now.faults.items }
    requires each { detail.all ≡ true → AreAllFaults image.now 1000 more faults.now }
    requires one { detail.all ≡ false → (length faults.now ≡ 1) × (more ≡ false) }
    ensures { IfOk result (IsReportFor detail.entry image.now) }
{
    Ok(ImageReport::Refused(RefusedImage {
        kind: image.boot_kind(),
        blocks: image.blocks(),
        faults: shown_faults(alloc, image, &found.marks, faults, detail)?,
        more,
        only_bitmap: has_only_bitmap_faults(found),
    }))
}

/// Whether all faults of an image are those of its bitmap.
fn has_only_bitmap_faults(found: &AllFaults) -> bool
    ensures { (image : List ℕ) → AreAllFaults image 1000 found.now.more found.now.faults.items → IsTrue result → ShowsOnlyMarks image }
{
    if found.more {
        return false;
    }
    are_of_bitmap(&found.marks, &found.faults)
}

/// Whether these are all faults of the bitmap.
fn are_of_bitmap(marks: &[Option<Mark>], faults: &[VolumeFault]) -> bool
    ensures { IsTrue result → All (λ fault. IsOfMarks fault.kind) faults.now }
{
    for fault in faults {
        if !is_of_bitmap(marks, *fault) {
            return false;
        }
    }
    true
}

/// Whether a fault is that of a block which is marked free, or of the checksum of a bitmap block.
fn is_of_bitmap(marks: &[Option<Mark>], fault: VolumeFault) -> bool
    ensures { IsTrue result → IsOfMarks fault.kind }
{
    match fault.kind {
        FaultKind::MarkedFree => true,
        FaultKind::BadSum => matches!(
            marks.get(fault.block as usize),
            Some(Some(Mark {
                role: Role::Page,
                ..
            }))
        ),
        _ => false,
    }
}

/// These faults as reported, in order.
fn shown_faults(
    alloc: Global,
    image: &Image,
    marks: &[Option<Mark>],
    faults: &[VolumeFault],
    detail: Detail<'_>,
) -> Result<Vec<ShownFault>, AllocError>
    ensures faults { IfOk result (λ shown. map (λ each. each.fault) shown.items ≡ faults.now) }
    ensures values { IfOk result (λ shown. All (HasValues image.now marks.now) shown.items) }
{
    let seconds = wanted_seconds(alloc, image, marks, faults)?;
    let mut shown = Vec::new(alloc);
    for fault in faults {
        let path = if detail.contents {
            place_of(alloc, image, marks, fault.block)?
        } else {
            None
        };
        shown.push(ShownFault {
            fault: *fault,
            path,
            values: values_of(image, marks, fault),
            text: explain(alloc, image, marks, &seconds, fault)?,
        })?;
    }
    Ok(shown)
}

/// A second place of each block that two places name, if the texts of these faults need them.
fn wanted_seconds(
    alloc: Global,
    image: &Image,
    marks: &[Option<Mark>],
    faults: &[VolumeFault],
) -> Result<Vec<Option<Mark>>, AllocError> {
    let of_two = faults.iter().any(|fault| matches!(
        fault.kind,
        FaultKind::BlockUsedTwice | FaultKind::BadParent
    ));
    if of_two {
        return second_places(alloc, image, marks);
    }
    Ok(Vec::new(alloc))
}
