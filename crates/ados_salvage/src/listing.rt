//! The entries of an accepted volume.
ghost use Rattle.std.specs.Prelude.{◌≡◌, ◌≢◌, ◌<◌, ℕ, List, All, AllPairs, IfOk, Some, false, map, true};
ghost use Rattle.adf_block.specs.Image.{block_count};
ghost use Rattle.ados_model.specs.Accepted.{Accepts};
ghost use Rattle.ados_model.specs.Keys.{HasKey};
ghost use Rattle.ados_model.specs.Stands.{Stands};
ghost use Rattle.ados_model.specs.Tree.{Node, Tree};
ghost use Rattle.ados_salvage.specs.Deleted.{AreDeleted, IsTrustedBitmap, TellsTrust};
ghost use Rattle.ados_salvage.specs.Salvaged.{HoldsAll, IsOfTree, SavesTree, broken_length, located_of};
ghost use Rattle.ados_salvage.specs.steps.Finding.{AreOfOneTree};
ghost use Rattle.ados_salvage.specs.steps.Keeping.{CanBeRead, IsReadable};

use crate::beside::with_lost;
use crate::known::faultless_deleted;
use crate::salvaged::{Salvaged, State};
use crate::saved::Salvage;
use ados_volume::{Below, Volume, entries_below};
use std::alloc::{AllocError, Global};

/// All entries of a volume with these holes, in its order, with whole files; and if its bitmap is trusted, behind them the sound
/// headers among its lost blocks, and its deleted entries. If a list of unread blocks was given, fillers count among the lost blocks.
pub(crate) fn volume_entries(
    alloc: Global,
    volume: Volume,
    holes: Vec<bool>,
    listed: bool,
) -> Result<Salvage, AllocError>
    ensures saves { (given : List ℕ) → Accepts given volume.was_validated volume.image → IfOk result (SavesTree listed given) }
    ensures holes { IfOk result (λ saved. saved.holes ≡ holes.items) }
{
    let (deleted, trusted) = deleted_in(alloc, &volume)?;
    let below = entries_below(alloc, &volume, volume.root())?;
    let entries = entries_of(alloc, &volume, &below)?;
    let tree = Salvage {
        accepted: true,
        image: volume.into_image(),
        trusted,
        entries,
        deleted,
        pieces: Vec::new(alloc),
        holes,
        fillers: listed,
    };
    if !trusted {
        return Ok(tree);
    }
    with_lost(alloc, tree)
}

/// The headers of the deleted entries of an accepted image, and whether its bitmap is trusted. One that was not valid is not.
fn deleted_in(alloc: Global, volume: &Volume) -> Result<(Vec<u32>, bool), AllocError>
    ensures deleted { IfOk result (λ left. (image : List ℕ) → Accepts image volume.now.was_validated volume.now.image → AreDeleted image left.0.items) }
    ensures trust { IfOk result (λ left. (image : List ℕ) → Accepts image volume.now.was_validated volume.now.image → TellsTrust image left.1) }
    ensures stays { IfOk result (λ left. left.1 ≡ true → IsTrustedBitmap volume.now.image) }
{
    if volume.was_validated() {
        return Ok((Vec::new(alloc), false));
    }
    match faultless_deleted(alloc, volume.image())? {
        Some(headers) => Ok((headers, true)),
        None => Ok((Vec::new(alloc), false)),
    }
}

/// These entries of a volume, with whole files.
fn entries_of(alloc: Global, volume: &Volume, below: &[Below]) -> Result<Vec<Salvaged>, AllocError>
    requires keys { All (λ entry. HasKey volume.now.image entry.key) below.now }
    requires once { AllPairs (λ j k. j ≢ k) (map (λ below. below.key) below.now) }
    ensures located { IfOk result (λ found. map located_of found.items ≡ below.now) }
    ensures told { IfOk result (λ found. (t : Tree) → Stands volume.now.image t → All (IsOfTree volume.now.image t) found.items) }
    ensures readable { IfOk result (λ found. All (IsReadable volume.now.image) found.items) }
    ensures one { IfOk result (λ found. AreOfOneTree volume.now.image found.items) }
{
    let mut found = Vec::with_capacity(alloc, below.len())?;
    for entry in below {
        found.push(entry_of(volume, *entry))?;
    }
    Ok(found)
}

/// An entry of a volume, with a whole file.
fn entry_of(volume: &Volume, entry: Below) -> Salvaged
    requires { HasKey volume.now.image entry.key }
    ensures told { (t : Tree) → Stands volume.now.image t → IsOfTree volume.now.image t result }
    ensures located { located_of result ≡ entry }
    ensures readable { IsReadable volume.now.image result }
    ensures inside { result.header < block_count volume.now.image }
    ensures reached { result.found ≡ false }
    ensures whole { broken_length result.state ≡ 0 }
{
    let key = entry.key;
    let told = volume.examine(key);
    Salvaged {
        header: key,
        above: entry.above,
        found: false,
        name: told.name,
        endings: 0,
        protection: told.protection,
        date: told.date,
        comment: told.comment,
        state: state_in(volume, key),
    }
}

/// The state of an object.
fn state_in(volume: &Volume, key: u32) -> State
    requires { HasKey volume.now.image key }
    ensures state { (t : Tree) (node : Node) → Stands volume.now.image t → t.nodes key ≡ Some node → HoldsAll volume.now.image key node.content result }
    ensures readable { CanBeRead volume.now.image key result }
    ensures whole { broken_length result ≡ 0 }
    ensures inside { key < block_count volume.now.image }
{
    prove!(volume.image().blocks() >= 16);
    if volume.is_file(key) {
        State::Whole
    } else {
        State::Directory
    }
}
