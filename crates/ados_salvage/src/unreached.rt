//! The headers that no hash chain from the root leads to.
ghost use Rattle.std.specs.Prelude.{◌≡◌, length, IsSome, OnOk};
ghost use Rattle.adf_block.specs.Image.{block_count};
ghost use Rattle.ados_salvage.specs.Doubtful.{IsHeader};
ghost use Rattle.ados_salvage.specs.steps.Gathering.{AddsFound, AreAllHeaders, AreGatheredBy, GathersMore, IsNew, place_at};

use crate::gathered::Gathered;
use crate::known::Known;
use crate::names::Standing;
use adf_block::layout::{DIRECTORY_TYPE, PARENT, SECONDARY_TYPE};
use std::alloc::AllocError;

/// Adds each header that was not found yet. A directory comes before the entries that name it as their parent.
pub(crate) fn add_unreached(known: &Known, gathered: &mut Gathered) -> Result<(), AllocError>
    requires { AreGatheredBy known.now gathered.old }
    ensures gathered { OnOk result (AreGatheredBy known.now gathered.new) }
    ensures all { OnOk result (AreAllHeaders known.now gathered.new.places.items) }
    ensures found { OnOk result (AddsFound known.now gathered.old gathered.new) }
{
    take_asides(known, gathered)?;
    let count = known.image.blocks();
    let mut climbed = vec![in known.alloc; false; count as usize]?;
    for block in 0..count {
        add_new(known, block, &mut climbed, gathered)?;
    }
    Ok(())
}

/// Adds a header after the directories above it that were not found yet, if it was not found itself.
fn add_new(
    known: &Known,
    block: u32,
    climbed: &mut Vec<bool>,
    gathered: &mut Gathered,
) -> Result<(), AllocError>
    requires climbed { length climbed.old.items ≡ block_count known.now.image }
    requires gathered { AreGatheredBy known.now gathered.old }
    ensures climbed { length climbed.new.items ≡ block_count known.now.image }
    ensures more { OnOk result (GathersMore known.now gathered.old gathered.new) }
    ensures met { OnOk result (IsHeader known.now.left_out known.now.image block → IsSome (place_at gathered.new.places.items block)) }
    ensures found { OnOk result (AddsFound known.now gathered.old gathered.new) }
{
    if !gathered.is_new(known, block) {
        return Ok(());
    }
    add_with_parents(known, block, climbed, gathered)
}

/// Takes the names of the directories along the hash chains in which recovered entries are, before recovered entries get
/// names.
fn take_asides(known: &Known, gathered: &mut Gathered) -> Result<(), AllocError>
    requires { AreGatheredBy known.now gathered.old }
    ensures gathered { OnOk result (AreGatheredBy known.now gathered.new) }
    ensures same { OnOk result (gathered.new.entries.items ≡ gathered.old.entries.items) }
{
    for block in 0..known.image.blocks() {
        if !gathered.is_new(known, block) {
            continue;
        }
        if let Some(dir) = gathered.directory(known.image.long(block, PARENT)) {
            let entries = gathered.entries.as_slice();
            gathered.names.take_aside(known.alloc, entries, dir)?;
        }
    }
    Ok(())
}

/// Adds a header after the directories above it that were not found yet.
pub(crate) fn add_with_parents(
    known: &Known,
    block: u32,
    climbed: &mut Vec<bool>,
    gathered: &mut Gathered,
) -> Result<(), AllocError>
    requires met { IsNew known.now gathered.old.places.items block }
    requires climbed { length climbed.old.items ≡ block_count known.now.image }
    requires gathered { AreGatheredBy known.now gathered.old }
    ensures climbed { length climbed.new.items ≡ block_count known.now.image }
    ensures more { OnOk result (GathersMore known.now gathered.old gathered.new) }
    ensures met { OnOk result (IsSome (place_at gathered.new.places.items block)) }
    ensures found { OnOk result (AddsFound known.now gathered.old gathered.new) }
{
    let image = &known.image;
    let mut above = Vec::new(known.alloc);
    let mut key = image.long(block, PARENT);
    for _step in 0..image.blocks() {
        if !gathered.is_new(known, key)
            || climbed[key as usize]
            || image.long(key, SECONDARY_TYPE) != DIRECTORY_TYPE
        {
            break;
        }
        climbed[key as usize] = true;
        above.push(key)?;
        key = image.long(key, PARENT);
    }
    while let Some(dir) = above.pop() {
        add_found(known, dir, gathered)?;
    }
    add_found(known, block, gathered)
}

/// Adds a header that no hash chain leads to, unless it was found already.
fn add_found(known: &Known, block: u32, gathered: &mut Gathered) -> Result<(), AllocError>
    requires { AreGatheredBy known.now gathered.old }
    ensures more { OnOk result (GathersMore known.now gathered.old gathered.new) }
    ensures met { OnOk result (IsHeader known.now.left_out known.now.image block → IsSome (place_at gathered.new.places.items block)) }
    ensures found { OnOk result (AddsFound known.now gathered.old gathered.new) }
{
    if !gathered.is_new(known, block) {
        return Ok(());
    }
    let standing = Standing {
        above: gathered.directory(known.image.long(block, PARENT)),
        found: true,
    };
    gathered.add(known, block, standing)
}
