//! Lost entries: blocks that are named as entries, and that are no headers that can be told.
ghost use Rattle.std.specs.Prelude.{◌<◌, ℕ, IsSome, OnOk};
ghost use Rattle.adf_block.specs.Image.{block_count};
ghost use Rattle.ados_salvage.specs.Doubtful.{NamesEntries};
ghost use Rattle.ados_salvage.specs.Lost.{IsLost};
ghost use Rattle.ados_salvage.specs.steps.Gathering.{AreAllHeaders, AreFollowed, AreGatheredBy, GathersMore, IsFollowed, place_at};

use crate::gathered::Gathered;
use crate::known::{Known, dir_of_place};
use adf_block::layout::{BLOCK_LONGS, BOOT_BLOCKS};
use std::alloc::AllocError;

/// Adds all lost entries, after all headers were found.
pub(crate) fn add_lost(known: &Known, gathered: &mut Gathered) -> Result<(), AllocError>
    requires gathered { AreGatheredBy known.now gathered.old }
    requires headers { AreAllHeaders known.now gathered.old.places.items }
    ensures gathered { OnOk result (AreGatheredBy known.now gathered.new) }
    ensures headers { OnOk result (AreAllHeaders known.now gathered.new.places.items) }
    ensures lost { OnOk result ((block : ℕ) → IsLost known.now.left_out known.now.image block → IsSome (place_at gathered.new.places.items block)) }
{
    for block in 0..known.image.blocks() {
        follow(known, block, gathered)?;
    }
    Ok(())
}

/// Adds the lost entries that a block names, if it is the root or a header.
fn follow(known: &Known, block: u32, gathered: &mut Gathered) -> Result<(), AllocError>
    requires inside { block < block_count known.now.image }
    requires gathered { AreGatheredBy known.now gathered.old }
    requires headers { AreAllHeaders known.now gathered.old.places.items }
    ensures more { OnOk result (GathersMore known.now gathered.old gathered.new) }
    ensures followed { OnOk result (AreFollowed known.now gathered.new.places.items block) }
{
    if !known.names_entries(block) {
        return Ok(());
    }
    for at in 0..BLOCK_LONGS {
        follow_long(known, block, at, gathered)?;
    }
    Ok(())
}

/// Adds the block that a long of a block names as an entry, if it is lost and neither left out nor added before.
fn follow_long(
    known: &Known,
    block: u32,
    at: u32,
    gathered: &mut Gathered,
) -> Result<(), AllocError>
    requires inside { (block < block_count known.now.image) × (at < 128) }
    requires accepted { NamesEntries known.now.left_out known.now.image block }
    requires gathered { AreGatheredBy known.now gathered.old }
    requires headers { AreAllHeaders known.now gathered.old.places.items }
    ensures more { OnOk result (GathersMore known.now gathered.old gathered.new) }
    ensures followed { OnOk result (IsFollowed known.now gathered.new.places.items block at) }
{
    let image = &known.image;
    let Some(_dir) = dir_of_place(image, block, at) else {
        return Ok(());
    };
    let named = image.long(block, at);
    if named < BOOT_BLOCKS || named >= image.blocks() || gathered.has(named) {
        return Ok(());
    }
    if known.left_out.has(named) {
        return Ok(());
    }
    let standing = gathered.standing_at(block, at);
    gathered.add_lost(known, named, standing)
}
