//! The faults found so far: a cell for each kind of fault of each block.
ghost use Rattle.std.specs.Prelude.{◌≡◌, ◌<◌, ◌≤◌, ◌+◌, ◌*◌, false, length, true, IfOk, IsTrue};
ghost use Rattle.adf_block.specs.Image.{block_count};
ghost use Rattle.ados_model.specs.Faults.{Shows};
ghost use Rattle.ados_faults.specs.Listed.{ListsFaults};
ghost use Rattle.ados_faults.specs.steps.Noted.{AreNoted, AreStillNoted, HasNote, IsFull, IsNoted, ListsNoted, cell_of};

use crate::kinds::{KINDS, kind_at, rank_of};
use adf_block::Image;
use adf_block::layout::FEWEST_BLOCKS;
use ados_model::{FaultKind, VolumeFault};
use std::alloc::{AllocError, Global};

/// The faults found so far.
#[derive(Drop)]
pub(crate) struct Notes {
    /// The cells of a block are together, in the order of the kinds.
    cells: Vec<bool>,
}

/// Faults in order, and whether there are more.
#[derive(Drop)]
pub(crate) struct Listed {
    pub(crate) faults: Vec<VolumeFault>,
    pub(crate) more: bool,
}

impl Notes {
    /// No fault yet.
    pub(crate) fn none(alloc: Global, image: &Image) -> Result<Notes, AllocError>
        ensures { IfOk result (λ notes. AreNoted image.now notes.cells.items) }
    {
        let cells = Vec::from_elem(alloc, false, KINDS * image.blocks() as usize)?;
        Ok(Notes { cells })
    }

    /// Notes the fault of the block if it is `wrong`.
    pub(crate) fn note_if(&mut self, image: &Image, kind: FaultKind, block: u32, wrong: bool)
        requires noted { AreNoted image.now self.old.cells.items }
        requires inside { block < block_count image.now }
        requires shown { IsTrue wrong → Shows image.now kind block }
        ensures noted { AreNoted image.now self.new.cells.items }
        ensures stays { AreStillNoted self.old.cells.items self.new.cells.items }
        ensures set { IsTrue wrong → IsNoted self.new.cells.items (cell_of kind block) }
    {
        if wrong {
            self.note(image, kind, block);
        }
    }

    /// Notes the fault of the block.
    pub(crate) fn note(&mut self, image: &Image, kind: FaultKind, block: u32)
        requires noted { AreNoted image.now self.old.cells.items }
        requires inside { block < block_count image.now }
        requires shown { Shows image.now kind block }
        ensures noted { AreNoted image.now self.new.cells.items }
        ensures stays { AreStillNoted self.old.cells.items self.new.cells.items }
        ensures set { IsNoted self.new.cells.items (cell_of kind block) }
    {
        let _image = image;
        let cell = KINDS * block as usize + rank_of(kind);
        self.cells[cell] = true;
    }

    /// All faults.
    pub(crate) fn all(&self, alloc: Global, image: &Image) -> Result<Vec<VolumeFault>, AllocError>
        requires { AreNoted image.now self.now.cells.items }
        ensures lists { IfOk result (λ faults. ListsFaults image.now (17 * block_count image.now) faults.items) }
        ensures each { IfOk result (λ faults. ListsNoted self.now.cells.items faults.items) }
    {
        let listed = self.listed(alloc, image, self.cells.len())?;
        Ok(listed.faults)
    }

    /// The first `most` of the faults.
    pub(crate) fn listed(
        &self,
        alloc: Global,
        image: &Image,
        most: usize,
    ) -> Result<Listed, AllocError>
        requires noted { AreNoted image.now self.now.cells.items }
        ensures lists { IfOk result (λ listed. ListsFaults image.now most listed.faults.items) }
        ensures some { IfOk result (λ listed. HasNote self.now.cells.items → 1 ≤ most → 0 < length listed.faults.items) }
        ensures each { IfOk result (λ listed. listed.more ≡ false → ListsNoted self.now.cells.items listed.faults.items) }
        ensures full { IfOk result (λ listed. listed.more ≡ true → IsFull image.now self.now.cells.items most listed.faults.items) }
    {
        let mut faults = Vec::new(alloc);
        for cell in 0..self.cells.len() {
            if !self.cells[cell] {
                continue;
            }
            let fault = fault_at(image, cell);
            if faults.len() == most {
                return Ok(Listed { faults, more: true });
            }
            faults.push(fault)?;
        }
        Ok(Listed {
            faults,
            more: false,
        })
    }
}

/// The fault of a cell.
fn fault_at(image: &Image, cell: usize) -> VolumeFault
    requires { cell < 17 * block_count image.now }
    ensures { cell_of result.kind result.block ≡ cell }
{
    prove!(image.blocks() >= FEWEST_BLOCKS);
    VolumeFault {
        kind: kind_at(cell % KINDS),
        block: (cell / KINDS) as u32,
    }
}
