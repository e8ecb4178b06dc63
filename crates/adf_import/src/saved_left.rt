//! The entries of a salvage that a new volume has not, and why.
ghost use Rattle.std.specs.Prelude.{◌≡◌, ℕ, ◌<◌, ◌++◌, ◌&&◌, All, Any, IfOk, Some, IsTrue, OnOk, if◌then◌else◌, length, not, slice_get};
ghost use Rattle.ados_model.specs.Change.{is_file};
ghost use Rattle.ados_model.specs.Keys.{HasKey};
ghost use Rattle.ados_model.specs.Stands.{Stands};
ghost use Rattle.ados_model.specs.Tree.{Tree};
ghost use Rattle.ados_salvage.specs.declared.salvaged.Salvaged.{Salvaged as Entry};
ghost use Rattle.adf_import.specs.SavedLeft.{AreLeftOut, HasNoRoom, is_directory};
ghost use Rattle.adf_import.specs.SavedVolume.{AreSaved};
ghost use Rattle.adf_import.specs.declared.saved_left.LeftOut.TheVariants.{Joined, NoRoom, Taken};
ghost use Rattle.adf_import.specs.steps.Spots.{IsLooked, IsOfOther, IsTold, left_at};

use crate::room::new_file_blocks;
use crate::saved_look::{AtPath, Looked, looked_at};
use crate::saved_plan::SavedPlan;
use crate::saved_volume::LeftEntry;
use crate::spots::{Spot, is_directory};
use ados_salvage::{Salvage, State};
use ados_volume::{Volume, free_blocks};
use std::alloc::{AllocError, Global};

/// Why an entry is left out of a new volume.
#[derive(Clone, Copy, PartialEq, Eq)]
pub enum LeftOut {
    /// It needs this many blocks, and this many are free in the new volume.
    NoRoom { needed: u64, free: u32 },
    /// Another entry of its directory has the name.
    Taken,
    /// It is a directory, and another one of that name is there, which has the files of both.
    Joined,
    /// Its directory is not there.
    NoDirectory,
}

/// The entries of which something is left and that were not found in the volume, with the reasons. There is none if an entry is
/// missing without a reason.
pub(crate) fn left_entries(
    alloc: Global,
    volume: &Volume,
    salvage: &Salvage,
    plan: &SavedPlan,
    looked: &[Looked],
) -> Result<Vec<LeftEntry>, AllocError>
    requires { All (IsLooked volume.now.image salvage.now plan.now.own) looked.now }
    ensures saved { IfOk result (λ left. (t : Tree) → Stands volume.now.image t → AreSaved t salvage.now plan.now.own left.items) }
    ensures left { IfOk result (λ left. (t : Tree) → Stands volume.now.image t → AreLeftOut t salvage.now plan.now.own left.items) }
{
    let mut left = Vec::new(alloc);
    for place in 0..salvage.entries().len() {
        let why = why_left(volume, salvage, plan, looked, place)?;
        push_left(&mut left, place, why)?;
    }
    Ok(left)
}

/// Appends the entry at a position if it is left out.
fn push_left(
    left: &mut Vec<LeftEntry>,
    place: usize,
    why: Option<LeftOut>,
) -> Result<(), AllocError>
    ensures { OnOk result (left.new.items ≡ left.old.items ++ left_at place why) }
{
    match why {
        Some(why) => {
            left.push(LeftEntry { place, why })?;
            Ok(())
        }
        None => Ok(()),
    }
}

/// Why the entry at a position is left out; `None` if nothing is left of it, or if it was found.
fn why_left(
    volume: &Volume,
    salvage: &Salvage,
    plan: &SavedPlan,
    looked: &[Looked],
    place: usize,
) -> Result<Option<LeftOut>, AllocError>
    requires place { place < length salvage.now.entries }
    requires looked { All (IsLooked volume.now.image salvage.now plan.now.own) looked.now }
    ensures { IfOk result (λ why. (t : Tree) (entry : Entry) → Stands volume.now.image t → slice_get salvage.now.entries place ≡ Some entry
        → IsTold t salvage.now plan.now.own place entry why) }
{
    let entry = &salvage.entries()[place];
    if entry.state == State::Lost {
        return Ok(None);
    }
    let spot = Spot::of(place, entry);
    match looked_at(looked, plan.item_at(spot), spot) {
        AtPath::Object { saved: true, .. } => Ok(None),
        AtPath::Object { key, saved: false } => {
            let why = other_there(volume, looked, spot, entry.state, key)?;
            Ok(Some(why))
        }
        AtPath::Nothing => {
            let why = no_room(volume, salvage, place)?;
            Ok(Some(why))
        }
        AtPath::NoDirectory => Ok(Some(LeftOut::NoDirectory)),
        AtPath::Unknown => Err(AllocError),
    }
}

/// The reason of an entry in this state whose path leads to the object of another one. There is none if that is no other one.
fn other_there(
    volume: &Volume,
    looked: &[Looked],
    spot: Spot,
    state: State,
    key: u32,
) -> Result<LeftOut, AllocError>
    requires { HasKey volume.now.image key }
    ensures other { IfOk result (λ why. Any (IsOfOther spot key) looked.now) }
    ensures why { IfOk result (λ why. (t : Tree) → Stands volume.now.image t
        → why ≡ (if is_directory state && not (is_file t key) then Joined else Taken)) }
{
    if !is_of_other(looked, spot, key) {
        return Err(AllocError);
    }
    Ok(taken_as(volume, state, key))
}

/// The reason of an entry in this state whose name another object has: both are directories, or not.
fn taken_as(volume: &Volume, state: State, key: u32) -> LeftOut
    requires { HasKey volume.now.image key }
    ensures { (t : Tree) → Stands volume.now.image t → result ≡ (if is_directory state && not (is_file t key) then Joined else Taken) }
{
    if !is_directory(state) {
        return LeftOut::Taken;
    }
    if volume.is_file(key) {
        return LeftOut::Taken;
    }
    LeftOut::Joined
}

/// Whether the object with this key was found at another place, with everything of the entry there.
fn is_of_other(looked: &[Looked], spot: Spot, key: u32) -> bool
    ensures { IsTrue result → Any (IsOfOther spot key) looked.now }
{
    for other in looked {
        if other.spot != spot && other.there == (AtPath::Object { key, saved: true }) {
            return true;
        }
    }
    false
}

/// The reason of an entry that needs more blocks than are free. There is none if it does not.
fn no_room(volume: &Volume, salvage: &Salvage, place: usize) -> Result<LeftOut, AllocError>
    requires { place < length salvage.now.entries }
    ensures { IfOk result (λ why. (t : Tree) (entry : Entry) → Stands volume.now.image t → slice_get salvage.now.entries place ≡ Some entry
        → (needed : ℕ) × (room : ℕ) × HasNoRoom t salvage.now entry needed room × (why ≡ NoRoom needed room)) }
{
    let needed = new_file_blocks(volume, salvage.size_of(place));
    let free = free_blocks(volume);
    if u64::from(free) >= needed {
        return Err(AllocError);
    }
    Ok(LeftOut::NoRoom { needed, free })
}
