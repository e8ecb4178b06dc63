//! The walk from the root over every place of every reached block, past all faults.
ghost use Rattle.std.specs.Prelude.{◌≢◌, ◌<◌, ◌⊎◌, ◌↔◌, IfOk, IsTrue, None};
ghost use Rattle.adf_block.specs.declared.layout.TheConstants.{BLOCK_LONGS};
ghost use Rattle.adf_block.specs.Image.{long};
ghost use Rattle.ados_model.specs.Faults.{InImage, Reached};
ghost use Rattle.ados_faults.specs.Listed.{AreClosed, IsNamedAs};
ghost use Rattle.ados_faults.specs.steps.Roles.{AreCovered, AreCoveredBy};
ghost use Rattle.ados_faults.specs.steps.Walked.{AreKept, AreOutsideNoted, AreTwiceNoted, IsMarkedBy, IsPassed, IsStep, IsVisited, IsWalked};

use crate::bits::is_inside;
use crate::notes::Notes;
use crate::roles::Roles;
use adf_block::Image;
use adf_block::layout::{FIRST_SLOT, SECONDARY_TYPE};
use ados_check::{Mark, Source, has_places, place_role};
use ados_model::{FaultKind, Role};
use std::alloc::{AllocError, Global};

/// A block in a role.
#[derive(Clone, Copy)]
pub(crate) struct Step {
    pub(crate) block: u32,
    pub(crate) role: Role,
}

/// The results of a walk.
#[derive(Drop)]
pub(crate) struct Walk {
    pub(crate) notes: Notes,
    /// For each block, the first place that names it, and the role by that place.
    pub(crate) marks: Vec<Option<Mark>>,
    /// Blocks with roles, in the order in which they were found. They cover each role in which a block is reached.
    pub(crate) steps: Vec<Step>,
    roles: Roles,
}

/// Walks from the root. It notes the places that name blocks outside the image, and the blocks that two places name.
pub(crate) fn walked(alloc: Global, image: &Image) -> Result<Walk, AllocError>
    ensures walked { IfOk result (λ walk. IsWalked image.now walk.notes.cells.items walk.marks.items walk.roles.cells.items walk.steps.items) }
    ensures closed { IfOk result (λ walk. AreClosed image.now walk.marks.items) }
    ensures covered { IfOk result (λ walk. AreCovered image.now walk.steps.items) }
    ensures twice { IfOk result (λ walk. AreTwiceNoted image.now walk.notes.cells.items) }
    ensures outside { IfOk result (λ walk. AreOutsideNoted image.now walk.notes.cells.items) }
{
    let mut walk = Walk::start(alloc, image)?;
    let mut i = 0;
    while i < walk.steps.len() {
        let step = walk.steps[i];
        walk.go_through(image, step)?;
        i += 1;
    }
    Ok(walk)
}

impl Walk {
    /// Only the root.
    fn start(alloc: Global, image: &Image) -> Result<Walk, AllocError>
        ensures { IfOk result (λ walk. IsWalked image.now walk.notes.cells.items walk.marks.items walk.roles.cells.items walk.steps.items) }
    {
        let root = image.root();
        let notes = Notes::none(alloc, image)?;
        let mut marks = Vec::from_elem(alloc, None, image.blocks() as usize)?;
        marks[root as usize] = Some(Mark {
            role: Role::Root,
            holder: 0,
            long: 0,
        });
        let mut steps = Vec::new(alloc);
        steps.push(Step {
            block: root,
            role: Role::Root,
        })?;
        let roles = Roles::none(alloc, image)?;
        Ok(Walk {
            notes,
            marks,
            steps,
            roles,
        })
    }

    /// Visits the places of a block in a role.
    fn go_through(&mut self, image: &Image, step: Step) -> Result<(), AllocError>
        requires walked { IsWalked image.now self.old.notes.cells.items self.old.marks.items self.old.roles.cells.items self.old.steps.items }
        requires step { IsStep image.now step }
        ensures walked { IfOk result (λ _. IsWalked image.now self.new.notes.cells.items self.new.marks.items self.new.roles.cells.items self.new.steps.items) }
        ensures kept { IfOk result (λ _. AreKept self.old self.new) }
        ensures visited { IfOk result (λ _. IsVisited image.now self.new step) }
    {
        if !has_places(step.role) {
            return Ok(());
        }
        for i in FIRST_SLOT..SECONDARY_TYPE {
            self.visit(image, step, i)?;
        }
        Ok(())
    }

    /// Visits one long of a block in a role, if it is a place.
    fn visit(&mut self, image: &Image, step: Step, i: u32) -> Result<(), AllocError>
        requires walked { IsWalked image.now self.old.notes.cells.items self.old.marks.items self.old.roles.cells.items self.old.steps.items }
        requires step { IsStep image.now step }
        requires long { i < BLOCK_LONGS }
        ensures walked { IfOk result (λ _. IsWalked image.now self.new.notes.cells.items self.new.marks.items self.new.roles.cells.items self.new.steps.items) }
        ensures kept { IfOk result (λ _. AreKept self.old self.new) }
        ensures passed { IfOk result (λ _. IsPassed image.now self.new step i) }
    {
        let source = Source::whole(image);
        let Some(role) = place_role(&source, step.block, step.role, i) else {
            return Ok(());
        };
        let block = image.long(step.block, i);
        if !is_inside(image, block) {
            self.notes.note(image, FaultKind::BadPointer, step.block);
            return Ok(());
        }
        let holder = step.block;
        let long = i;
        self.mark(image, block, Mark { role, holder, long });
        self.take(image, block, role)
    }

    /// Marks a block, or notes it if another place has marked it.
    fn mark(&mut self, image: &Image, block: u32, mark: Mark)
        requires walked { IsWalked image.now self.old.notes.cells.items self.old.marks.items self.old.roles.cells.items self.old.steps.items }
        requires inside { InImage image.now block }
        requires reached { Reached image.now block mark.role }
        requires named { IsNamedAs image.now block mark }
        ensures walked { IsWalked image.now self.new.notes.cells.items self.new.marks.items self.new.roles.cells.items self.new.steps.items }
        ensures kept { AreKept self.old self.new }
        ensures marked { IsMarkedBy self.new block mark.holder mark.long }
    {
        let Some(first) = self.marks[block as usize] else {
            self.marks[block as usize] = Some(mark);
            return;
        };
        let twice = is_other_place(first, mark);
        self.notes
            .note_if(image, FaultKind::BlockUsedTwice, block, twice);
    }

    /// Adds the step of a block in a role, unless other steps of the block cover it.
    fn take(&mut self, image: &Image, block: u32, role: Role) -> Result<(), AllocError>
        requires walked { IsWalked image.now self.old.notes.cells.items self.old.marks.items self.old.roles.cells.items self.old.steps.items }
        requires inside { InImage image.now block }
        requires reached { Reached image.now block role }
        ensures walked { IfOk result (λ _. IsWalked image.now self.new.notes.cells.items self.new.marks.items self.new.roles.cells.items self.new.steps.items) }
        ensures kept { IfOk result (λ _. AreKept self.old self.new) }
        ensures covered { IfOk result (λ _. AreCoveredBy self.new.steps.items block role) }
    {
        if !self.roles.take(image, block, role) {
            return Ok(());
        }
        self.steps.push(Step { block, role })?;
        Ok(())
    }
}

/// Whether two marks are from different places.
pub(crate) fn is_other_place(first: Mark, mark: Mark) -> bool
    ensures { IsTrue result ↔ (first.holder ≢ mark.holder) ⊎ (first.long ≢ mark.long) }
{
    if first.holder != mark.holder {
        return true;
    }
    first.long != mark.long
}
