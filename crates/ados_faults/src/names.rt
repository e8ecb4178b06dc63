//! The names of the entries: each once in its directory.
ghost use Rattle.std.specs.Prelude.{◌≡◌, ◌≢◌, ◌<◌, All, IfOk, None, Some};
ghost use Rattle.adf_block.specs.Image.{block_count};
ghost use Rattle.adf_block.specs.Whole.{IsImage};
ghost use Rattle.ados_check.specs.Entries.{upper_name};
ghost use Rattle.ados_model.specs.Faults.{HasShortName, InImage};
ghost use Rattle.ados_model.specs.declared.fault.FaultKind.TheVariants.{DuplicateName};
ghost use Rattle.ados_faults.specs.steps.Blocks.{AreEntriesOf, IsEntryIn};
ghost use Rattle.ados_faults.specs.steps.Named.{AreDuplicatesNoted, AreFirstNames, AreKnown, AreNamesKept, AreNamesMet, AreNamesNoted, AreStillKnown, HasNameOf, IsFirstName, IsNameMet};
ghost use Rattle.ados_faults.specs.steps.Noted.{AreNoted, AreStillNoted, IsNoted, cell_of};
ghost use Rattle.ados_faults.specs.steps.Roles.{AreCovered};
ghost use Rattle.ados_faults.specs.steps.Walked.{IsStep};

use crate::blocks::Blocks;
use crate::entries::{list_entries, starts_in};
use crate::longs::long_of_each;
use crate::notes::Notes;
use crate::typed::blocks_of_type;
use crate::walk::Step;
use adf_block::Image;
use adf_block::layout::{DIRECTORY_TYPE, NEXT_IN_CHAIN};
use ados_check::{Source, UPPER_BYTES, has_short_name, upper_name};
use ados_model::FaultKind;
use std::alloc::{AllocError, Global};
use std::collections::BTreeMap;

/// An entry of a directory.
#[derive(Clone, Copy)]
struct Named {
    dir: u32,
    block: u32,
}

/// Notes each entry with the name of another one in its directory.
pub(crate) fn note_duplicates(
    alloc: Global,
    image: &Image,
    steps: &[Step],
    notes: &mut Notes,
) -> Result<(), AllocError>
    requires noted { AreNoted image.now notes.old.cells.items }
    requires steps { All (IsStep image.now) steps.now }
    requires image { IsImage image.now }
    requires covered { AreCovered image.now steps.now }
    ensures noted { IfOk result (λ _. AreNoted image.now notes.new.cells.items) }
    ensures stays { IfOk result (λ _. AreStillNoted notes.old.cells.items notes.new.cells.items) }
    ensures whole { IfOk result (λ _. AreDuplicatesNoted image.now notes.new.cells.items) }
{
    let dirs = blocks_of_type(alloc, image, steps, DIRECTORY_TYPE)?;
    let nexts = long_of_each(alloc, image, NEXT_IN_CHAIN)?;
    let first = first_names(alloc, image)?;
    // For each first block with a name the entry with this name that was met first in the last directory that has one.
    let mut met = Vec::from_elem(alloc, None, image.blocks() as usize)?;
    // The entries of the last directory.
    let mut entries = Blocks::none(alloc, image)?;
    for dir in &dirs {
        // (directories of a damaged image may share long chains)
        if starts_in(image, *dir, &entries) {
            continue;
        }
        list_entries(image, *dir, &nexts, &mut entries)?;
        note_names(image, *dir, &entries.list, &first, &mut met, notes);
    }
    Ok(())
}

/// For each block with a short name the first block with the same name.
fn first_names(alloc: Global, image: &Image) -> Result<Vec<Option<u32>>, AllocError>
    requires { IsImage image.now }
    ensures { IfOk result (λ first. AreFirstNames image.now first.items) }
{
    let mut known = BTreeMap::new(alloc);
    let mut first = Vec::new(alloc);
    for block in 0..image.blocks() {
        let same = first_with_name(image, block, &mut known)?;
        first.push(same)?;
    }
    Ok(first)
}

/// The first block with the name of a block, if that is short.
fn first_with_name(
    image: &Image,
    block: u32,
    known: &mut BTreeMap<[u8; UPPER_BYTES], u32>,
) -> Result<Option<u32>, AllocError>
    requires image { IsImage image.now }
    requires inside { block < block_count image.now }
    requires known { AreKnown image.now known.old }
    ensures known { IfOk result (λ _. AreKnown image.now known.new) }
    ensures kept { IfOk result (λ _. AreStillKnown known.old known.new) }
    ensures first { IfOk result (λ first. IsFirstName image.now known.new block first) }
{
    let source = Source::whole(image);
    if !has_short_name(&source, block) {
        return Ok(None);
    }
    let name = upper_name(&source, block);
    if let Some(other) = known.get(&name) {
        return Ok(Some(*other));
    }
    known.insert(name, block)?;
    Ok(Some(block))
}

/// Notes the entries of a directory that have the same name.
fn note_names(
    image: &Image,
    dir: u32,
    entries: &[u32],
    first: &[Option<u32>],
    met: &mut [Option<Named>],
    notes: &mut Notes,
)
    requires noted { AreNoted image.now notes.old.cells.items }
    requires image { IsImage image.now }
    requires inside { All (InImage image.now) entries.now }
    requires entries { AreEntriesOf image.now dir entries.now }
    requires first { AreFirstNames image.now first.now }
    requires met { AreNamesMet image.now met.old }
    ensures noted { AreNoted image.now notes.new.cells.items }
    ensures stays { AreStillNoted notes.old.cells.items notes.new.cells.items }
    ensures met { AreNamesMet image.now met.new }
    ensures whole { AreNamesNoted image.now notes.new.cells.items dir }
{
    for entry in entries {
        let Some(name) = first[*entry as usize] else {
            continue;
        };
        note_name(image, dir, *entry, name, met, notes);
    }
}

/// Notes an entry and the one with its name that was met first in this directory, or keeps it as that.
fn note_name(
    image: &Image,
    dir: u32,
    block: u32,
    name: u32,
    met: &mut [Option<Named>],
    notes: &mut Notes,
)
    requires noted { AreNoted image.now notes.old.cells.items }
    requires image { IsImage image.now }
    requires entry { IsEntryIn image.now dir block }
    requires name { HasNameOf image.now block name }
    requires met { AreNamesMet image.now met.old }
    ensures noted { AreNoted image.now notes.new.cells.items }
    ensures stays { AreStillNoted notes.old.cells.items notes.new.cells.items }
    ensures met { AreNamesMet image.now met.new }
    ensures kept { AreNamesKept dir met.old met.new }
    ensures here { IsNameMet notes.new.cells.items met.new dir block name }
{
    let first = met[name as usize];
    match first {
        Some(named) if named.dir == dir => note_both(image, dir, block, named.block, notes),
        _ => met[name as usize] = Some(Named { dir, block }),
    }
}

/// Notes two entries of a directory with one name, if they are different blocks.
fn note_both(image: &Image, dir: u32, block: u32, other: u32, notes: &mut Notes)
    requires noted { AreNoted image.now notes.old.cells.items }
    requires image { IsImage image.now }
    requires entry { IsEntryIn image.now dir block }
    requires other { IsEntryIn image.now dir other }
    requires short { HasShortName image.now block }
    requires other_short { HasShortName image.now other }
    requires same { upper_name image.now block ≡ upper_name image.now other }
    ensures noted { AreNoted image.now notes.new.cells.items }
    ensures stays { AreStillNoted notes.old.cells.items notes.new.cells.items }
    ensures block { block ≢ other → IsNoted notes.new.cells.items (cell_of DuplicateName block) }
    ensures other { block ≢ other → IsNoted notes.new.cells.items (cell_of DuplicateName other) }
{
    let _dir = dir;
    if block == other {
        return;
    }
    notes.note(image, FaultKind::DuplicateName, block);
    notes.note(image, FaultKind::DuplicateName, other);
}
