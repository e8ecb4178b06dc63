//! All faults of an image, in order.
ghost use Rattle.std.specs.Prelude.{◌≡◌, ◌<◌, ◌≤◌, ◌*◌, ◌↔◌, [], IfOk, false, length};
ghost use Rattle.adf_block.specs.Image.{block_count};
ghost use Rattle.ados_model.specs.Accepted.{ShowsNoFault};
ghost use Rattle.ados_faults.specs.Listed.{AreFirstFaults, AreMarks, IsOtherKind, ListsAll, ListsEach, ListsFaults, ListsKindAlone, ShowsOtherKind};

use crate::kinds::other_kind;
use crate::search::search;
use crate::walk::walked;
use adf_block::Image;
use ados_check::Mark;
use ados_model::{FaultKind, VolumeFault};
use std::alloc::{AllocError, Global};

/// The first faults of an image, and the first place that names each block.
#[derive(Drop)]
pub struct AllFaults {
    /// By block, then by kind, each once. Never `NoMemory`.
    pub faults: Vec<VolumeFault>,
    /// Whether the image shows faults that are not in the list.
    pub more: bool,
    /// A cell for each block, with the place that named it first and the role by that place.
    pub marks: Vec<Option<Mark>>,
}

/// All faults of a disk, and the first place that names each block.
#[derive(Drop)]
pub struct DiskFaults {
    /// By block, then by kind, each once. Never `NoMemory`.
    pub faults: Vec<VolumeFault>,
    /// A cell for each block, with the place that named it first and the role by that place.
    pub marks: Vec<Option<Mark>>,
}

/// The first `most` of all faults of an image, as a user sees them.
///
/// Of an image that is no DOS disk, or one of an unsupported kind, this is the one fault: the rest of the image is not of
/// this file system. Of any other each fault that it shows is in the list, unless `more` is true. The list is empty
/// exactly if the image is accepted.
///
/// `more` is true exactly if the image shows more than `most`. Then the list has the first ones.
///
/// Time is linear in the size of the image, the number of entries of all directories, and the number of header and
/// extension blocks of all files. These are fewer than the blocks, unless directories or files share some. A directory
/// whose chains all start among the entries of the one before it counts as empty, and of a file the blocks of a chain that
/// is known from other files do not count.
pub fn all_faults(alloc: Global, image: &Image, most: usize) -> Result<AllFaults, AllocError>
    ensures lists { IfOk result (λ found. ListsFaults image.now most found.faults.items) }
    ensures none { IfOk result (λ found. 1 ≤ most → (found.faults.items ≡ []) ↔ ShowsNoFault image.now) }
    ensures whole { IfOk result (λ found. ShowsNoFault image.now → found.more ≡ false) }
    ensures alone { IfOk result (λ found. 1 ≤ most → ListsKindAlone image.now found.more found.faults.items) }
    ensures each { IfOk result (λ found. ¬ ShowsOtherKind image.now → ListsEach image.now found.more found.faults.items) }
    ensures first { IfOk result (λ found. ¬ ShowsOtherKind image.now → AreFirstFaults image.now most found.more found.faults.items) }
    ensures marked { IfOk result (λ found. AreMarks image.now found.marks.items) }
{
    match other_kind(image) {
        Some(kind) => kind_alone(alloc, image, kind, most),
        None => first_faults(alloc, image, most),
    }
}

/// All faults that an image shows, of whatever kind its disk is.
///
/// The list is empty exactly if the image is accepted. A walk that goes on after each fault finds the others, also below
/// a boot block of another kind. Time is as for `all_faults`.
pub fn faults_of_any_disk(alloc: Global, image: &Image) -> Result<DiskFaults, AllocError>
    ensures lists { IfOk result (λ found. ListsFaults image.now (17 * block_count image.now) found.faults.items) }
    ensures none { IfOk result (λ found. (found.faults.items ≡ []) ↔ ShowsNoFault image.now) }
    ensures all { IfOk result (λ found. ListsAll image.now found.faults.items) }
    ensures marked { IfOk result (λ found. AreMarks image.now found.marks.items) }
{
    let found = search(alloc, image)?;
    let faults = found.notes.all(alloc, image)?;
    Ok(DiskFaults {
        faults,
        marks: found.marks,
    })
}

/// The first `most` of all faults, of whatever kind the disk is.
fn first_faults(alloc: Global, image: &Image, most: usize) -> Result<AllFaults, AllocError>
    ensures lists { IfOk result (λ found. ListsFaults image.now most found.faults.items) }
    ensures none { IfOk result (λ found. 1 ≤ most → (found.faults.items ≡ []) ↔ ShowsNoFault image.now) }
    ensures whole { IfOk result (λ found. ShowsNoFault image.now → found.more ≡ false) }
    ensures each { IfOk result (λ found. ListsEach image.now found.more found.faults.items) }
    ensures first { IfOk result (λ found. AreFirstFaults image.now most found.more found.faults.items) }
    ensures marked { IfOk result (λ found. AreMarks image.now found.marks.items) }
{
    let found = search(alloc, image)?;
    let listed = found.notes.listed(alloc, image, most)?;
    Ok(AllFaults {
        faults: listed.faults,
        more: listed.more,
        marks: found.marks,
    })
}

/// Only that an image is no DOS disk, or one of an unsupported kind.
fn kind_alone(
    alloc: Global,
    image: &Image,
    kind: FaultKind,
    most: usize,
) -> Result<AllFaults, AllocError>
    requires { IsOtherKind image.now kind }
    ensures lists { IfOk result (λ found. ListsFaults image.now most found.faults.items) }
    ensures some { IfOk result (λ found. 1 ≤ most → 0 < length found.faults.items) }
    ensures alone { IfOk result (λ found. 1 ≤ most → ListsKindAlone image.now found.more found.faults.items) }
    ensures marked { IfOk result (λ found. AreMarks image.now found.marks.items) }
{
    let walk = walked(alloc, image)?;
    let mut faults = Vec::new(alloc);
    if most > 0 {
        faults.push(VolumeFault { kind, block: 0 })?;
    }
    Ok(AllFaults {
        faults,
        more: most == 0,
        marks: walk.marks,
    })
}
