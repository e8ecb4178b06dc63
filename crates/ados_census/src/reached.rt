//! The blocks that are reached from the root, whatever faults an image shows.
ghost use Rattle.std.specs.Prelude.{◌≡◌, ◌*◌, ◌<◌, ℕ, length, IfOk, MatchBool, OnOk};
ghost use Rattle.adf_block.specs.declared.layout.TheConstants.{BLOCK_LONGS};
ghost use Rattle.adf_block.specs.Image.{block_count};
ghost use Rattle.adf_block.specs.Whole.{IsImage};
ghost use Rattle.ados_model.specs.Faults.{InImage, IsEntry};
ghost use Rattle.ados_census.specs.Reached.{IsLeaf, IsReached};
ghost use Rattle.ados_census.specs.steps.Marks.{IsMarked};
ghost use Rattle.ados_census.specs.steps.Reaching.{AreKept, AreWalked, IsPassed, IsReachedIn, IsStep, cell, form};

use adf_block::Image;
use adf_block::layout::{BOOT_BLOCKS, FIRST_SLOT, MOST_BLOCKS, SECONDARY_TYPE};
use ados_check::{Source, place_role};
use ados_model::Role;
use std::alloc::{AllocError, Global};
use std::marker::Model;

/// The number of forms of roles. A block has the same places in all roles of one form.
pub(crate) const FORMS: u32 = 4;

/// The reached blocks of an image, by the forms of the roles in which they are reached. Contracts see the image's bytes.
#[derive(Drop)]
pub struct Reached<'a> {
    image: &'a Image,
    /// For each block and each form, whether the block is reached in a role of this form.
    cells: Vec<bool>,
}

impl<'a> Model for Reached<'a> {
    ghost use Rattle.std.specs.Prelude.{List, ℕ};
    ghost use Rattle.ados_census.specs.steps.Reaching.{AreCells};

    ghost Value = { List ℕ };

    ghost view = { λ reached. reached.image.now };

    ghost invariant = { λ reached. AreCells reached.image.now reached.cells.items };
}

/// A reached block in a role.
#[derive(Clone, Copy)]
pub(crate) struct Step {
    block: u32,
    role: Role,
}

/// A walk over the reached blocks, each once for each form of its roles.
#[derive(Drop)]
pub(crate) struct Walk {
    /// For each block and each form, whether there is a step.
    cells: Vec<bool>,
    steps: Vec<Step>,
}

/// The reached blocks of an image.
///
/// Time and memory grow linearly with the size of the image, even if its blocks name each other arbitrarily.
pub fn reached_blocks<'a>(alloc: Global, image: &'a Image) -> Result<Reached<'a>, AllocError>
    ensures { IfOk result (λ reached. reached ≡ image.now) }
{
    let mut walk = Walk::none(alloc, image)?;
    let root = Step {
        block: image.root(),
        role: Role::Root,
    };
    walk.take(image, root)?;
    let mut done = 0;
    while done < walk.steps.len() {
        let step = walk.steps[done];
        walk.go_through(image, step)?;
        done += 1;
    }
    Ok(Reached {
        image,
        cells: walk.cells,
    })
}

impl<'a> Reached<'a> {
    /// The image.
    pub(crate) fn image(&self) -> &'a Image
        ensures { result.now ≡ self.now }
    {
        self.image
    }

    /// Whether a block is reached.
    pub fn has(&self, block: u32) -> bool
        requires { InImage self.now block }
        ensures { MatchBool result (IsReached self.now block) (¬ IsReached self.now block) }
    {
        for form in 0..FORMS {
            if self.has_in_form(block, form) {
                return true;
            }
        }
        false
    }

    /// Whether a block is reached as an entry of a directory.
    pub fn has_entry(&self, block: u32) -> bool
        requires { block < block_count self.now }
        ensures { MatchBool result (IsEntry self.now block) (¬ IsEntry self.now block) }
    {
        self.has_in_form(block, form_of(Role::Entry(0, 0)))
    }

    /// Whether a block is reached as a data block of a file, or as a bitmap block.
    pub fn has_leaf(&self, block: u32) -> bool
        requires { block < block_count self.now }
        ensures { MatchBool result (IsLeaf self.now block) (¬ IsLeaf self.now block) }
    {
        self.has_in_form(block, form_of(Role::Data(0)))
    }

    /// Whether a block is reached in a role of a form.
    pub(crate) fn has_in_form(&self, block: u32, form: u32) -> bool
        requires inside { block < block_count self.now }
        requires few { form < 4 }
        ensures { MatchBool result (IsReachedIn self.now block form) (¬ IsReachedIn self.now block form) }
    {
        prove!(self.image.blocks() <= MOST_BLOCKS);
        self.cells[(FORMS * block + form) as usize]
    }
}

impl Walk {
    /// No step.
    fn none(alloc: Global, image: &Image) -> Result<Walk, AllocError>
        ensures { IfOk result (λ walk. AreWalked image.now walk.cells.items walk.steps.items) }
    {
        let cells = no_cells(alloc, image)?;
        let steps = Vec::new(alloc);
        Ok(Walk { cells, steps })
    }

    /// Visits the places of a step.
    fn go_through(&mut self, image: &Image, step: Step) -> Result<(), AllocError>
        requires walked { AreWalked image.now self.old.cells.items self.old.steps.items }
        requires step { IsStep image.now step }
        ensures walked { OnOk result (AreWalked image.now self.new.cells.items self.new.steps.items) }
        ensures kept { OnOk result (AreKept self.old self.new) }
        ensures passed { OnOk result ((i : ℕ) → IsPassed image.now self.new.cells.items step i) }
    {
        for i in FIRST_SLOT..SECONDARY_TYPE {
            self.visit(image, step, i)?;
        }
        Ok(())
    }

    /// Visits one long of a step, if it is a place.
    fn visit(&mut self, image: &Image, step: Step, i: u32) -> Result<(), AllocError>
        requires walked { AreWalked image.now self.old.cells.items self.old.steps.items }
        requires step { IsStep image.now step }
        requires long { i < BLOCK_LONGS }
        ensures walked { OnOk result (AreWalked image.now self.new.cells.items self.new.steps.items) }
        ensures kept { OnOk result (AreKept self.old self.new) }
        ensures passed { OnOk result (IsPassed image.now self.new.cells.items step i) }
    {
        let source = Source::whole(image);
        let Some(role) = place_role(&source, step.block, step.role, i) else {
            return Ok(());
        };
        let block = image.long(step.block, i);
        if block < BOOT_BLOCKS || block >= image.blocks() {
            return Ok(());
        }
        self.take(image, Step { block, role })?;
        Ok(())
    }

    /// Adds a step, unless there is one of its form.
    fn take(&mut self, image: &Image, step: Step) -> Result<(), AllocError>
        requires walked { AreWalked image.now self.old.cells.items self.old.steps.items }
        requires step { IsStep image.now step }
        ensures walked { OnOk result (AreWalked image.now self.new.cells.items self.new.steps.items) }
        ensures kept { OnOk result (AreKept self.old self.new) }
        ensures taken { OnOk result (IsMarked self.new.cells.items (cell step.block step.role)) }
    {
        prove!(image.blocks() <= MOST_BLOCKS);
        let cell = (FORMS * step.block + form_of(step.role)) as usize;
        if self.cells[cell] {
            return Ok(());
        }
        self.cells[cell] = true;
        self.steps.push(step)?;
        Ok(())
    }
}

/// No cell is marked.
fn no_cells(alloc: Global, image: &Image) -> Result<Vec<bool>, AllocError>
    ensures size { IfOk result (λ cells. length cells.items ≡ 4 * block_count image.now) }
    ensures none { IfOk result (λ cells. (c : ℕ) → ¬ IsMarked cells.items c) }
    ensures image { IsImage image.now }
{
    prove!(image.blocks() <= MOST_BLOCKS);
    let cells = vec![in alloc; false; (FORMS * image.blocks()) as usize]?;
    Ok(cells)
}

/// The number of the form of a role.
fn form_of(role: Role) -> u32
    ensures number { result ≡ form role }
    ensures few { result < 4 }
{
    match role {
        Role::Root => 0,
        Role::Entry(_, _) => 1,
        Role::Extension(_) => 2,
        Role::Data(_) | Role::Page => 3,
    }
}
