//! The faults that a block shows in a role, as far as that needs no other block.
ghost use Rattle.std.specs.Prelude.{All, length};
ghost use Rattle.ados_model.specs.Faults.{InImage, Reached};
ghost use Rattle.ados_model.specs.declared.fault.FaultKind.{FaultKind};
ghost use Rattle.ados_faults.specs.Listed.{IsOtherKind};
ghost use Rattle.ados_faults.specs.steps.Noted.{AreNoted, AreStillNoted, IsNoted, cell_of};
ghost use Rattle.ados_faults.specs.steps.Looks.{AreLookedAt, AreWrongsNoted, IsFieldNoted};
ghost use Rattle.ados_faults.specs.steps.Walked.{IsStep};

use crate::bits::is_marked_free;
use crate::kinds::other_kind;
use crate::notes::Notes;
use crate::walk::Step;
use adf_block::Image;
use adf_block::beside::KIND_BYTE;
use adf_block::layout::FEWEST_BLOCKS;
use ados_check::{
    FIELD_RULES, FieldRule, POINTER_RULES, Source, field_evidence, has_bad_sum, type_evidence,
};
use ados_model::{FaultKind, Role};

/// Checks that the disk is OFS or FFS.
pub(crate) fn look_at_disk(image: &Image, notes: &mut Notes)
    requires noted { AreNoted image.now notes.old.cells.items }
    ensures noted { AreNoted image.now notes.new.cells.items }
    ensures stays { AreStillNoted notes.old.cells.items notes.new.cells.items }
    ensures whole { (kind : FaultKind) → IsOtherKind image.now kind → IsNoted notes.new.cells.items (cell_of kind 0) }
{
    prove!(image.blocks() >= FEWEST_BLOCKS);
    if let Some(kind) = other_kind(image) {
        notes.note(image, kind, 0);
    }
}

/// Checks the block of each step.
pub(crate) fn look_at_all(image: &Image, steps: &[Step], notes: &mut Notes)
    requires noted { AreNoted image.now notes.old.cells.items }
    requires steps { All (IsStep image.now) steps.now }
    ensures noted { AreNoted image.now notes.new.cells.items }
    ensures stays { AreStillNoted notes.old.cells.items notes.new.cells.items }
    ensures looked { AreLookedAt image.now notes.new.cells.items steps.now (length steps.now) }
{
    for step in steps {
        let free = is_marked_free(image, step.block);
        notes.note_if(image, FaultKind::MarkedFree, step.block, free);
        look(image, step.block, step.role, notes);
    }
}

/// Checks a block in a role, as far as it needs no other block.
fn look(image: &Image, block: u32, role: Role, notes: &mut Notes)
    requires noted { AreNoted image.now notes.old.cells.items }
    requires inside { InImage image.now block }
    requires reached { Reached image.now block role }
    ensures noted { AreNoted image.now notes.new.cells.items }
    ensures stays { AreStillNoted notes.old.cells.items notes.new.cells.items }
    ensures whole { AreWrongsNoted image.now notes.new.cells.items block role }
{
    prove!(image.blocks() >= FEWEST_BLOCKS);
    match role {
        // The data blocks of FFS files have no checksum and no fields.
        Role::Data(_) if image.byte(0, KIND_BYTE) != 0 => return,
        _ => {}
    }
    let source = Source::whole(image);
    let sum = has_bad_sum(&source, block, role);
    notes.note_if(image, FaultKind::BadSum, block, sum);
    let types = type_evidence(&source, block, role).is_some();
    notes.note_if(image, FaultKind::BadType, block, types);
    look_at_fields(image, block, role, &FIELD_RULES, notes);
    look_at_fields(image, block, role, &POINTER_RULES, notes);
}

/// Checks the fields of a block in a role by these rules.
fn look_at_fields(image: &Image, block: u32, role: Role, rules: &[FieldRule], notes: &mut Notes)
    requires noted { AreNoted image.now notes.old.cells.items }
    requires inside { InImage image.now block }
    requires reached { Reached image.now block role }
    ensures noted { AreNoted image.now notes.new.cells.items }
    ensures stays { AreStillNoted notes.old.cells.items notes.new.cells.items }
    ensures fields { All (IsFieldNoted image.now notes.new.cells.items block role) rules.now }
{
    let source = Source::whole(image);
    for rule in rules {
        let wrong = field_evidence(&source, block, role, *rule).is_some();
        notes.note_if(image, rule.kind(), block, wrong);
    }
}
