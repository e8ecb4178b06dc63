//! The search for all faults of an image: one walk, then names and files.
ghost use Rattle.std.specs.Prelude.{All, IfOk};
ghost use Rattle.adf_block.specs.Whole.{IsImage};
ghost use Rattle.ados_faults.specs.Listed.{AreMarks};
ghost use Rattle.ados_faults.specs.steps.FileNotes.{AreAllFilesNoted};
ghost use Rattle.ados_faults.specs.steps.Named.{AreDuplicatesNoted};
ghost use Rattle.ados_faults.specs.steps.Noted.{AreNoted, AreStillNoted};
ghost use Rattle.ados_faults.specs.steps.Roles.{AreCovered};
ghost use Rattle.ados_faults.specs.steps.Searched.{IsSearched};
ghost use Rattle.ados_faults.specs.steps.Walked.{IsStep};

use crate::files::look_at_files;
use crate::looks::{look_at_all, look_at_disk};
use crate::names::note_duplicates;
use crate::notes::Notes;
use crate::walk::{Step, walked};
use adf_block::Image;
use adf_block::layout::FEWEST_BLOCKS;
use ados_check::Mark;
use std::alloc::{AllocError, Global};

/// What a search found.
#[derive(Drop)]
pub(crate) struct Findings {
    pub(crate) notes: Notes,
    /// The first place that names each block.
    pub(crate) marks: Vec<Option<Mark>>,
}

/// Notes the faults of an image.
pub(crate) fn search(alloc: Global, image: &Image) -> Result<Findings, AllocError>
    ensures searched { IfOk result (λ found. IsSearched image.now found.notes.cells.items) }
    ensures marked { IfOk result (λ found. AreMarks image.now found.marks.items) }
{
    prove!(image.blocks() >= FEWEST_BLOCKS);
    let mut walk = walked(alloc, image)?;
    look_at_all(image, &walk.steps, &mut walk.notes);
    look_further(alloc, image, &walk.steps, &mut walk.notes)?;
    look_at_disk(image, &mut walk.notes);
    Ok(Findings {
        notes: walk.notes,
        marks: walk.marks,
    })
}

/// Checks names and files.
fn look_further(
    alloc: Global,
    image: &Image,
    steps: &[Step],
    notes: &mut Notes,
) -> Result<(), AllocError>
    requires noted { AreNoted image.now notes.old.cells.items }
    requires steps { All (IsStep image.now) steps.now }
    requires image { IsImage image.now }
    requires covered { AreCovered image.now steps.now }
    ensures noted { IfOk result (λ _. AreNoted image.now notes.new.cells.items) }
    ensures stays { IfOk result (λ _. AreStillNoted notes.old.cells.items notes.new.cells.items) }
    ensures names { IfOk result (λ _. AreDuplicatesNoted image.now notes.new.cells.items) }
    ensures files { IfOk result (λ _. AreAllFilesNoted image.now notes.new.cells.items) }
{
    note_duplicates(alloc, image, steps, notes)?;
    look_at_files(alloc, image, steps, notes)?;
    Ok(())
}
