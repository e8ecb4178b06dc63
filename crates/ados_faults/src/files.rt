//! The files, checked against their sizes.
ghost use Rattle.std.specs.Prelude.{◌↔◌, All, IfOk, IsTrue, false, None, ℕ, List};
ghost use Rattle.ados_model.specs.Faults.{InImage, IsFile, IsOfs};
ghost use Rattle.ados_faults.specs.steps.FileNotes.{AreAllFilesNoted, AreAllSeen, AreHeld, HoldOtherSize, IsFileNoted, IsHeld};
ghost use Rattle.ados_faults.specs.steps.Longs.{AreTabled};
ghost use Rattle.ados_faults.specs.steps.Tails.{AreTails, IsHeaderList};
ghost use Rattle.ados_faults.specs.steps.Noted.{AreNoted, AreStillNoted};
ghost use Rattle.ados_faults.specs.steps.Roles.{AreCovered};
ghost use Rattle.ados_faults.specs.steps.Walked.{IsStep};

use crate::header_list::HeaderList;
use crate::header_table::HeaderTable;
use crate::notes::Notes;
use crate::pieces::{Known, look_along};
use crate::typed::blocks_of_type;
use crate::walk::Step;
use adf_block::Image;
use adf_block::beside::KIND_BYTE;
use adf_block::layout::{FEWEST_BLOCKS, FILE_TYPE};
use ados_check::{Source, has_other_size, needs_other_count};
use ados_model::FaultKind;
use std::alloc::{AllocError, Global};

/// Checks the blocks of each file, once.
pub(crate) fn look_at_files(
    alloc: Global,
    image: &Image,
    steps: &[Step],
    notes: &mut Notes,
) -> Result<(), AllocError>
    requires noted { AreNoted image.now notes.old.cells.items }
    requires steps { All (IsStep image.now) steps.now }
    requires covered { AreCovered image.now steps.now }
    ensures noted { IfOk result (λ _. AreNoted image.now notes.new.cells.items) }
    ensures stays { IfOk result (λ _. AreStillNoted notes.old.cells.items notes.new.cells.items) }
    ensures whole { IfOk result (λ _. AreAllFilesNoted image.now notes.new.cells.items) }
{
    let files = blocks_of_type(alloc, image, steps, FILE_TYPE)?;
    let mut headers = HeaderList::none(alloc, image)?;
    let table = HeaderTable::of(alloc, image)?;
    let mut known = Known {
        seen: Vec::from_elem(alloc, None, image.blocks() as usize)?,
        tails: Vec::from_elem(alloc, None, image.blocks() as usize)?,
    };
    for file in &files {
        headers.list(image, *file, &table, &known.tails)?;
        look_at_file(image, *file, &headers, &table, &mut known, notes);
    }
    Ok(())
}

/// Checks the blocks of a file, by the list of its header and extension blocks.
fn look_at_file(
    image: &Image,
    file: u32,
    headers: &HeaderList,
    table: &HeaderTable,
    known: &mut Known,
    notes: &mut Notes,
)
    requires noted { AreNoted image.now notes.old.cells.items }
    requires file { IsFile image.now file }
    requires within { InImage image.now file }
    requires inside { All (InImage image.now) headers.now.listed.list.items }
    requires list { IsHeaderList image.now notes.old.cells.items file headers.now.listed.list.items headers.now }
    requires table { AreTabled image.now table.now.nexts.items table.now.counts.items table.now.firsts.items }
    requires held { IsOfs image.now → AreHeld image.now table.now.held.items }
    requires seen { AreAllSeen image.now notes.old.cells.items known.old.seen.items }
    requires tails { AreTails image.now notes.old.cells.items known.old.tails.items }
    ensures noted { AreNoted image.now notes.new.cells.items }
    ensures stays { AreStillNoted notes.old.cells.items notes.new.cells.items }
    ensures seen { AreAllSeen image.now notes.new.cells.items known.new.seen.items }
    ensures tails { AreTails image.now notes.new.cells.items known.new.tails.items }
    ensures whole { IsFileNoted image.now notes.new.cells.items file }
{
    let source = Source::whole(image);
    let summary = look_along(image, file, headers, table, known, notes);
    let wrong = needs_other_count(&source, file, summary.count);
    notes.note_if(image, FaultKind::BadCount, file, wrong);
    if image.byte(0, KIND_BYTE) != 0 {
        return;
    }
    let other = holds_other_size(image, file, summary.held);
    notes.note_if(image, FaultKind::BadCount, file, other);
}

/// Whether the data blocks are all inside the image, but hold another number of bytes than the file's size.
fn holds_other_size(image: &Image, file: u32, held: Option<u64>) -> bool
    requires { InImage image.now file }
    ensures { (blocks : List ℕ) → IsHeld image.now blocks held → IsTrue result ↔ HoldOtherSize image.now file blocks }
{
    prove!(image.blocks() >= FEWEST_BLOCKS);
    match held {
        Some(sum) => has_other_size(&Source::whole(image), file, sum),
        None => false,
    }
}
