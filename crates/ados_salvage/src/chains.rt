//! The entries along the hash chains, from the root.
ghost use Rattle.std.specs.Prelude.{◌<◌, OnOk};
ghost use Rattle.adf_block.specs.Image.{block_count};
ghost use Rattle.ados_salvage.specs.steps.Gathering.{AreGatheredBy};

use crate::gathered::Gathered;
use crate::known::Known;
use crate::names::Standing;
use crate::salvaged::State;
use adf_block::layout::{FIRST_SLOT, NEXT_IN_CHAIN, TABLE_LONGS};
use std::alloc::AllocError;

/// Adds all entries along the hash chains: those of the root, then those of each directory in the order in which they
/// were found.
pub(crate) fn add_reached(known: &Known, gathered: &mut Gathered) -> Result<(), AllocError>
    requires { AreGatheredBy known.now gathered.old }
    ensures { OnOk result (AreGatheredBy known.now gathered.new) }
{
    let image = &known.image;
    prove!(image.blocks() >= 16);
    add_chains(known, image.root(), None, gathered)?;
    for place in 0..image.blocks() {
        let Some(entry) = gathered.entries.get(place as usize) else {
            break;
        };
        if matches!(entry.state, State::Directory | State::DoubtfulDirectory)
            && entry.header < image.blocks()
        {
            let dir = entry.header;
            add_chains(known, dir, Some(place as usize), gathered)?;
        }
    }
    Ok(())
}

/// Adds the entries along the hash chains of a directory, whose entry has this position.
fn add_chains(
    known: &Known,
    dir: u32,
    above: Option<usize>,
    gathered: &mut Gathered,
) -> Result<(), AllocError>
    requires dir { dir < block_count known.now.image }
    requires gathered { AreGatheredBy known.now gathered.old }
    ensures { OnOk result (AreGatheredBy known.now gathered.new) }
{
    for slot in 0..TABLE_LONGS {
        let first = known.image.long(dir, FIRST_SLOT + slot);
        add_chain(known, first, above, gathered)?;
    }
    Ok(())
}

/// Adds the entries of a hash chain, as long as they are headers that were not found before.
fn add_chain(
    known: &Known,
    first: u32,
    above: Option<usize>,
    gathered: &mut Gathered,
) -> Result<(), AllocError>
    requires { AreGatheredBy known.now gathered.old }
    ensures { OnOk result (AreGatheredBy known.now gathered.new) }
{
    let standing = Standing {
        above,
        found: false,
    };
    let mut key = first;
    for _passed in 0..known.image.blocks() {
        if !gathered.is_new(known, key) {
            break;
        }
        gathered.add(known, key, standing)?;
        key = known.image.long(key, NEXT_IN_CHAIN);
    }
    Ok(())
}
