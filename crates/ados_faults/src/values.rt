//! The long of a block that shows a fault: what it holds, and what it should hold, by the rules of the check.
ghost use Rattle.std.specs.Prelude.{◌≡◌, ◌<◌, ◌^◌, ◌↔◌, IsTrue, MatchOption, None};
ghost use Rattle.adf_block.specs.Image.{block_count};
ghost use Rattle.adf_block.specs.declared.layout.TheConstants.{BLOCK_LONGS, FILE_SIZE};
ghost use Rattle.ados_check.specs.declared.evidence.Evidence.{Evidence};
ghost use Rattle.ados_check.specs.Evidence.{evidence_of};
ghost use Rattle.ados_model.specs.Faults.{HasFileType};
ghost use Rattle.ados_faults.specs.Values.{AreValues, BreaksData, BreaksField, HasFields, IsAPlace, IsCountEvidence, IsEvidenceOf, IsFirstOut, IsPointerEvidence, IsSequenceEvidence, IsTheEvidence, LeadsOut, NoneShows, ShowsDisk};

use crate::bits::is_inside;
use crate::data_places::{data_place, position_of};
use crate::kinds::other_kind;
use crate::marked::mark_at;
use adf_block::Image;
use adf_block::beside::{KIND, KIND_BYTE};
use adf_block::layout::{BLOCK_LONGS, FEWEST_BLOCKS, FILE_SIZE, FILE_TYPE, SECONDARY_TYPE};
use ados_check::{
    DataRule, Evidence, FieldRule, Mark, Place, Source, data_evidence, field_evidence, place_role,
    sum_evidence, type_evidence,
};
use ados_model::{FaultKind, Role, VolumeFault};

/// The long of the fault's block that shows the fault, in the role of the block's mark, by the first rule of its kind
/// that the block breaks. `marks` are those of the walk over the image.
///
/// It is `None` if no long of the block does. So it is for these kinds: of a block used twice each of the places that
/// name it is right by itself; of a wrong hash chain the name is right, and a place of the directory leads to it; a
/// duplicate name stands in another entry too; the bit of a block that is marked free stands in a bitmap block. And so
/// it is if the block shows the fault in another role than that of its mark.
///
/// The size in a file's header shows a bad count if the number of pointers there is right: whether the data blocks hold
/// so many bytes is not looked at again.
pub fn values_of(image: &Image, marks: &[Option<Mark>], fault: &VolumeFault) -> Option<Evidence>
    ensures { MatchOption result (NoneShows image.now marks.now fault.now.kind fault.now.block) (AreValues image.now marks.now fault.now.kind fault.now.block) }
{
    prove!(image.blocks() >= FEWEST_BLOCKS);
    if fault.block >= image.blocks() {
        return None;
    }
    if shows_disk(image, *fault) {
        return Some(Evidence::of(&Source::whole(image), 0, KIND, None));
    }
    let Some(mark) = mark_at(marks, fault.block) else {
        return None;
    };
    if !has_fields(image, mark) {
        return None;
    }
    evidence_in_role(image, marks, mark, *fault)
}

/// Whether the fault is that of a disk of another kind than OFS and FFS.
fn shows_disk(image: &Image, fault: VolumeFault) -> bool
    ensures { IsTrue result ↔ ShowsDisk image.now fault.kind fault.block }
{
    match other_kind(image) {
        Some(kind) => fault.kind == kind && fault.block == 0,
        None => false,
    }
}

/// Whether the block has fields in the role of its mark: in FFS a data block has none.
fn has_fields(image: &Image, mark: Mark) -> bool
    ensures { IsTrue result ↔ HasFields image.now mark mark.role }
{
    prove!(image.blocks() >= FEWEST_BLOCKS);
    match mark.role {
        Role::Data(_) => image.byte(0, KIND_BYTE) == 0 && is_inside(image, mark.holder),
        Role::Root | Role::Page | Role::Entry(_, _) | Role::Extension(_) => true,
    }
}

/// What shows the fault of a block in the role of its mark.
fn evidence_in_role(
    image: &Image,
    marks: &[Option<Mark>],
    mark: Mark,
    fault: VolumeFault,
) -> Option<Evidence>
    requires block { fault.block < block_count image.now }
    requires fields { HasFields image.now mark mark.role }
    ensures { IsTheEvidence (IsEvidenceOf image.now marks.now mark fault.kind fault.block) result }
{
    let (block, role) = (fault.block, mark.role);
    match fault.kind {
        FaultKind::BadSum => sum_evidence(image, block, role),
        FaultKind::BadType => type_evidence(&Source::whole(image), block, role),
        FaultKind::BadOwnKey => bad_field(image, block, role, FieldRule::OwnKey),
        FaultKind::BadParent => bad_field(image, block, role, FieldRule::Parent),
        FaultKind::BadName => bad_field(image, block, role, FieldRule::Name),
        FaultKind::BadComment => bad_field(image, block, role, FieldRule::Comment),
        FaultKind::LinkEntry => bad_field(image, block, role, FieldRule::NoLink),
        FaultKind::BadPointer => bad_pointer(image, mark, block),
        FaultKind::BadCount => bad_count(image, mark, block),
        FaultKind::BadSequence => bad_sequence(image, marks, mark, block),
        FaultKind::NotADosDisk
        | FaultKind::UnsupportedKind
        | FaultKind::BlockUsedTwice
        | FaultKind::WrongChain
        | FaultKind::DuplicateName
        | FaultKind::MarkedFree
        | FaultKind::NoMemory => None,
    }
}

/// The field of a block that breaks the rule in this role.
fn bad_field(image: &Image, block: u32, role: Role, rule: FieldRule) -> Option<Evidence>
    requires block { block < block_count image.now }
    ensures { IsTheEvidence (BreaksField image.now block role rule) result }
{
    field_evidence(&Source::whole(image), block, role, rule)
}

/// The field of a data block that breaks the rule at its place.
fn bad_data(image: &Image, place: Place, rule: DataRule) -> Option<Evidence>
    requires block { place.block < block_count image.now }
    requires few { place.position < 2 ^ 63 }
    ensures { IsTheEvidence (BreaksData image.now place rule) result }
{
    data_evidence(&Source::whole(image), place, rule)
}

/// The wrong link to a data block, or else the first place that names no block of the image.
fn bad_pointer(image: &Image, mark: Mark, block: u32) -> Option<Evidence>
    requires block { block < block_count image.now }
    requires fields { HasFields image.now mark mark.role }
    ensures { IsTheEvidence (IsPointerEvidence image.now mark mark.role block) result }
{
    match mark.role {
        Role::Data(_) => bad_data(image, data_place(image, mark, block, 0), DataRule::Link),
        role => {
            let first = bad_field(image, block, role, FieldRule::FirstData);
            first.or(first_out(image, block, role))
        }
    }
}

/// The wrong number of bytes in a data block, or of pointers. A file's header has a wrong size if these are right.
fn bad_count(image: &Image, mark: Mark, block: u32) -> Option<Evidence>
    requires block { block < block_count image.now }
    requires fields { HasFields image.now mark mark.role }
    ensures { IsTheEvidence (IsCountEvidence image.now mark mark.role block) result }
{
    match mark.role {
        Role::Data(_) => {
            let place = data_place(image, mark, block, 0);
            let few = bad_data(image, place, DataRule::TooFew);
            few.or(bad_data(image, place, DataRule::TooMany))
        }
        Role::Entry(_, _) => {
            let count = bad_field(image, block, mark.role, FieldRule::PointerCount);
            count.or(size_of_file(image, block))
        }
        _ => bad_field(image, block, mark.role, FieldRule::PointerCount),
    }
}

/// The size of a file.
fn size_of_file(image: &Image, block: u32) -> Option<Evidence>
    requires block { block < block_count image.now }
    ensures { IsTheEvidence (λ e. HasFileType image.now block × (e ≡ evidence_of image.now block FILE_SIZE None)) result }
{
    if image.long(block, SECONDARY_TYPE) != FILE_TYPE {
        return None;
    }
    Some(Evidence::of(&Source::whole(image), block, FILE_SIZE, None))
}

/// The wrong sequence number of a data block, if its position is known.
fn bad_sequence(image: &Image, marks: &[Option<Mark>], mark: Mark, block: u32) -> Option<Evidence>
    requires block { block < block_count image.now }
    requires fields { HasFields image.now mark mark.role }
    ensures { IsTheEvidence (IsSequenceEvidence image.now marks.now mark mark.role block) result }
{
    let Role::Data(_) = mark.role else {
        return None;
    };
    let Some(position) = position_of(image, marks, mark) else {
        return None;
    };
    let place = data_place(image, mark, block, position);
    bad_data(image, place, DataRule::Sequence)
}

/// The first place of a block that names no block of the image.
fn first_out(image: &Image, block: u32, role: Role) -> Option<Evidence>
    requires block { block < block_count image.now }
    ensures { IsTheEvidence (IsFirstOut image.now role block) result }
{
    for i in 0..BLOCK_LONGS {
        if leads_out(image, block, role, i) {
            return Some(Evidence::of(&Source::whole(image), block, i, None));
        }
    }
    None
}

/// Whether the long is a place, and names no block of the image.
fn leads_out(image: &Image, block: u32, role: Role, i: u32) -> bool
    requires block { block < block_count image.now }
    requires long { i < BLOCK_LONGS }
    ensures { IsTrue result ↔ LeadsOut image.now role block i }
{
    is_place(image, block, role, i) && !is_inside(image, image.long(block, i))
}

/// Whether the long is a place.
fn is_place(image: &Image, block: u32, role: Role, i: u32) -> bool
    requires block { block < block_count image.now }
    requires long { i < BLOCK_LONGS }
    ensures { IsTrue result ↔ IsAPlace image.now role block i }
{
    let source = Source::whole(image);
    match place_role(&source, block, role, i) {
        Some(_) => true,
        None => false,
    }
}
