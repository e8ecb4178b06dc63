//! The entries of a directory.
ghost use Rattle.std.specs.Prelude.{All, IfOk, IsTrue, length};
ghost use Rattle.adf_block.specs.declared.layout.TheConstants.{NEXT_IN_CHAIN};
ghost use Rattle.ados_model.specs.Faults.{InImage};
ghost use Rattle.ados_faults.specs.steps.Blocks.{AreEntriesOf, AreMet, AreNextMet, AreSlotsMet, HoldsEntries, IsEntryIn};
ghost use Rattle.ados_faults.specs.steps.Longs.{AreLongs};

use crate::blocks::Blocks;
use adf_block::Image;
use adf_block::layout::{FIRST_SLOT, TABLE_LONGS};
use std::alloc::AllocError;

/// Lists the entries of a directory, each once. `nexts` has the next entry of each block in its hash chain.
pub(crate) fn list_entries(
    image: &Image,
    dir: u32,
    nexts: &[u32],
    entries: &mut Blocks,
) -> Result<(), AllocError>
    requires inside { InImage image.now dir }
    requires nexts { AreLongs image.now NEXT_IN_CHAIN nexts.now }
    requires holder { HoldsEntries image.now dir }
    requires met { AreMet image.now entries.old.has.items entries.old.list.items }
    ensures met { IfOk result (λ _. AreMet image.now entries.new.has.items entries.new.list.items) }
    ensures all { IfOk result (λ _. AreEntriesOf image.now dir entries.new.list.items) }
    ensures closed { IfOk result (λ _. AreNextMet image.now entries.new.list.items (length entries.new.list.items)) }
{
    entries.clear(image);
    meet_slots(image, dir, entries)?;
    meet_chains(image, dir, nexts, entries)?;
    Ok(())
}

/// Whether each chain of a directory starts with one of these blocks. If these are the entries of another directory, this
/// one has no others.
pub(crate) fn starts_in(image: &Image, dir: u32, entries: &Blocks) -> bool
    requires inside { InImage image.now dir }
    requires met { AreMet image.now entries.now.has.items entries.now.list.items }
    ensures { IsTrue result → AreSlotsMet image.now dir entries.now.list.items TABLE_LONGS }
{
    for i in 0..TABLE_LONGS {
        let first = image.long(dir, FIRST_SLOT + i);
        if !entries.has(image, first) {
            return false;
        }
    }
    true
}

/// Adds the first entry of each chain of a directory.
fn meet_slots(image: &Image, dir: u32, entries: &mut Blocks) -> Result<(), AllocError>
    requires inside { InImage image.now dir }
    requires holder { HoldsEntries image.now dir }
    requires met { AreMet image.now entries.old.has.items entries.old.list.items }
    requires entries { All (IsEntryIn image.now dir) entries.old.list.items }
    ensures met { IfOk result (λ _. AreMet image.now entries.new.has.items entries.new.list.items) }
    ensures entries { IfOk result (λ _. All (IsEntryIn image.now dir) entries.new.list.items) }
    ensures slots { IfOk result (λ _. AreSlotsMet image.now dir entries.new.list.items TABLE_LONGS) }
{
    for i in 0..TABLE_LONGS {
        let first = image.long(dir, FIRST_SLOT + i);
        entries.add(image, first)?;
    }
    Ok(())
}

/// Adds the entries after those in the list.
fn meet_chains(
    image: &Image,
    dir: u32,
    nexts: &[u32],
    entries: &mut Blocks,
) -> Result<(), AllocError>
    requires nexts { AreLongs image.now NEXT_IN_CHAIN nexts.now }
    requires holder { HoldsEntries image.now dir }
    requires met { AreMet image.now entries.old.has.items entries.old.list.items }
    requires entries { All (IsEntryIn image.now dir) entries.old.list.items }
    requires slots { AreSlotsMet image.now dir entries.old.list.items TABLE_LONGS }
    ensures met { IfOk result (λ _. AreMet image.now entries.new.has.items entries.new.list.items) }
    ensures all { IfOk result (λ _. AreEntriesOf image.now dir entries.new.list.items) }
    ensures closed { IfOk result (λ _. AreNextMet image.now entries.new.list.items (length entries.new.list.items)) }
{
    let _dir = dir;
    let mut i = 0;
    while i < entries.list.len() {
        let entry = entries.list[i];
        entries.add(image, nexts[entry as usize])?;
        i += 1;
    }
    Ok(())
}
