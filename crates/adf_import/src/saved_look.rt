//! A new volume, looked through for the entries of a salvage.
ghost use Rattle.std.specs.Prelude.{◌≡◌, ℕ, ◌<◌, All, IfOk, IsTrue, List, length};
ghost use Rattle.ados_model.specs.Keys.{HasDirectory, HasKey};
ghost use Rattle.ados_model.specs.Stands.{Stands};
ghost use Rattle.ados_model.specs.Tree.{Tree, content_at};
ghost use Rattle.ados_salvage.specs.declared.salvaged.Salvaged.{Salvaged as Entry};
ghost use Rattle.ados_salvage.specs.Salvaged.{Saved};
ghost use Rattle.ados_salvage.specs.Saved.{IsAt};
ghost use Rattle.adf_import.specs.SavedLeft.{IsNameAt, IsSavedAt};
ghost use Rattle.adf_import.specs.SavedVolume.{HasNoteOf, HoldsSaved, IsSavedFile};
ghost use Rattle.adf_import.specs.declared.saved_names.OwnNames.{OwnNames as Own};
ghost use Rattle.adf_import.specs.steps.Spots.{IsAboveAt, IsChildAt, IsFoundAt, IsLooked, IsNoteOf};

use crate::saved_names::{OwnNames, comment_for, name_for};
use crate::saved_plan::{SavedItem, SavedPlan};
use crate::spots::Spot;
use ados_model::FileInfo;
use ados_salvage::{Salvage, Salvaged, State};
use ados_volume::{Volume, free_blocks, read_file};
use std::alloc::{AllocError, Global};

/// An item, and what was found at its path.
#[derive(Clone, Copy)]
pub(crate) struct Looked {
    pub spot: Spot,
    pub there: AtPath,
}

/// What is at the path of an item.
#[derive(Clone, Copy, PartialEq, Eq)]
pub(crate) enum AtPath {
    /// An object, and whether it is the entry with all that was saved of it.
    Object { key: u32, saved: bool },
    /// Nothing, in a directory that is there.
    Nothing,
    /// Its directory is not there, and cannot be.
    NoDirectory,
    /// It was not looked up.
    Unknown,
}

/// What is at the path of the directory of an item.
#[derive(Clone, Copy)]
pub(crate) enum Above {
    Directory(u32),
    /// No directory, and there cannot be one.
    Missing,
    /// It was not looked up.
    Unknown,
}

/// Looks the items of a salvage up in a volume, in their order.
pub(crate) fn look_through(
    alloc: Global,
    volume: &mut Volume,
    salvage: &Salvage,
    plan: &SavedPlan,
) -> Result<Vec<Looked>, AllocError>
    ensures looked { IfOk result (λ looked. All (IsLooked volume.old.image salvage.now plan.now.own) looked.items) }
    ensures same { volume.new ≡ volume.old }
{
    let mut looked = Vec::with_capacity(alloc, plan.items.len())?;
    for item in plan.items.iter() {
        let found = look_up(alloc, volume, salvage, &plan.own, &looked, item)?;
        looked.push(found)?;
    }
    Ok(looked)
}

/// Looks an item up, after those before it.
fn look_up(
    alloc: Global,
    volume: &mut Volume,
    salvage: &Salvage,
    own: &OwnNames,
    looked: &[Looked],
    item: &SavedItem,
) -> Result<Looked, AllocError>
    requires { All (IsLooked volume.old.image salvage.now own.now) looked.now }
    ensures looked { IfOk result (IsLooked volume.old.image salvage.now own.now) }
    ensures same { volume.new ≡ volume.old }
{
    let spot = item.spot;
    let there = path_of(alloc, volume, salvage, own, looked, item)?;
    Ok(Looked { spot, there })
}

/// What is at the path of an item, if the items before it have its directory.
fn path_of(
    alloc: Global,
    volume: &mut Volume,
    salvage: &Salvage,
    own: &OwnNames,
    looked: &[Looked],
    item: &SavedItem,
) -> Result<AtPath, AllocError>
    requires { All (IsLooked volume.old.image salvage.now own.now) looked.now }
    ensures there { IfOk result (IsFoundAt volume.old.image salvage.now own.now item.now.spot) }
    ensures same { volume.new ≡ volume.old }
{
    let named = is_named(alloc, salvage.entries(), own, item)?;
    if !named {
        return Ok(AtPath::Unknown);
    }
    match directory_at(volume, salvage, own, looked, item) {
        Above::Directory(dir) => child_at(alloc, volume, salvage, item, dir),
        Above::Missing => Ok(AtPath::NoDirectory),
        Above::Unknown => Ok(AtPath::Unknown),
    }
}

/// What a directory has under the name of an item.
fn child_at(
    alloc: Global,
    volume: &mut Volume,
    salvage: &Salvage,
    item: &SavedItem,
    dir: u32,
) -> Result<AtPath, AllocError>
    requires { HasDirectory volume.old.image dir }
    ensures there { IfOk result (IsChildAt volume.old.image salvage.now item.now.spot dir item.now.name) }
    ensures same { volume.new ≡ volume.old }
{
    match volume.child(dir, &item.name) {
        Some(key) => {
            let saved = is_saved(alloc, volume, salvage, item.spot, key)?;
            Ok(AtPath::Object { key, saved })
        }
        None => Ok(AtPath::Nothing),
    }
}

/// Whether an item has the name of its place.
fn is_named(
    alloc: Global,
    entries: &[Salvaged],
    own: &OwnNames,
    item: &SavedItem,
) -> Result<bool, AllocError>
    ensures { IfOk result (λ named. IsTrue named → IsNameAt entries.now own.now item.now.spot item.now.name) }
{
    let Spot {
        damaged,
        found,
        entry,
    } = item.spot;
    if let Some(place) = entry {
        let Some(entry) = entries.get(place) else {
            return Ok(false);
        };
        let name = name_for(alloc, entry)?;
        return Ok(item.name.bytes() == name.as_slice());
    }
    if found {
        return Ok(item.name.bytes() == own.found.bytes());
    }
    Ok(damaged && item.name.bytes() == own.damaged.bytes())
}

/// The directory at the place above an item: the root, or what was found for the item above.
fn directory_at(
    volume: &Volume,
    salvage: &Salvage,
    own: &OwnNames,
    looked: &[Looked],
    item: &SavedItem,
) -> Above
    requires { All (IsLooked volume.now.image salvage.now own.now) looked.now }
    ensures { IsAboveAt volume.now.image salvage.now own.now item.now.spot result }
{
    let Some(above) = item.spot.above(salvage.entries()) else {
        return Above::Unknown;
    };
    if above.is_root() {
        return Above::Directory(volume.root());
    }
    match looked_at(looked, item.above, above) {
        AtPath::Object { key, .. } => {
            if volume.is_file(key) {
                return Above::Missing;
            }
            Above::Directory(key)
        }
        AtPath::Nothing => {
            if free_blocks(volume) == 0 {
                return Above::Missing;
            }
            Above::Unknown
        }
        AtPath::NoDirectory => Above::Missing,
        AtPath::Unknown => Above::Unknown,
    }
}

/// What was found for the item at a position, if that item is for this place.
pub(crate) fn looked_at(looked: &[Looked], item: Option<usize>, spot: Spot) -> AtPath
    ensures { (image : List ℕ) (saved : Saved) (own : Own) → All (IsLooked image saved own) looked.now → IsFoundAt image saved own spot result }
{
    let Some(item) = item else {
        return AtPath::Unknown;
    };
    match looked.get(item) {
        Some(found) => found.at(spot),
        None => AtPath::Unknown,
    }
}

impl Looked {
    /// What was found, if it is for this place.
    fn at(&self, spot: Spot) -> AtPath
        ensures { (image : List ℕ) (saved : Saved) (own : Own) → IsLooked image saved own self.now → IsFoundAt image saved own spot result }
    {
        if self.spot != spot {
            return AtPath::Unknown;
        }
        self.there
    }
}

/// Whether an object has everything that was saved of the entry at a place.
fn is_saved(
    alloc: Global,
    volume: &Volume,
    salvage: &Salvage,
    spot: Spot,
    key: u32,
) -> Result<bool, AllocError>
    requires { HasKey volume.now.image key }
    ensures { IfOk result (λ saved. (t : Tree) → Stands volume.now.image t → IsTrue saved → IsSavedAt t salvage.now spot.entry key) }
{
    let Some(place) = spot.entry else {
        return Ok(true);
    };
    if place >= salvage.entries().len() {
        return Ok(false);
    }
    let noted = has_note(alloc, volume, salvage, place, key)?;
    if !noted {
        return Ok(false);
    }
    has_content(alloc, volume, salvage, place, key)
}

/// Whether an object has the name, the bits, the date and the comment of the entry at a position.
fn has_note(
    alloc: Global,
    volume: &Volume,
    salvage: &Salvage,
    place: usize,
    key: u32,
) -> Result<bool, AllocError>
    requires place { place < length salvage.now.entries }
    requires key { HasKey volume.now.image key }
    ensures { IfOk result (λ noted. (t : Tree) (entry : Entry) → Stands volume.now.image t → IsAt salvage.now.entries place entry → IsTrue noted
        → HasNoteOf t key entry) }
{
    has_note_of(alloc, volume, &salvage.entries()[place], key)
}

/// Whether an object has the name, the bits, the date and the comment of an entry.
fn has_note_of(
    alloc: Global,
    volume: &Volume,
    entry: &Salvaged,
    key: u32,
) -> Result<bool, AllocError>
    requires { HasKey volume.now.image key }
    ensures { IfOk result (λ noted. (t : Tree) → Stands volume.now.image t → IsTrue noted → HasNoteOf t key entry.now) }
{
    let name = name_for(alloc, entry)?;
    let comment = comment_for(alloc, entry.state, entry.comment.bytes())?;
    let told = volume.examine(key);
    Ok(same_note(&told, entry, name.as_slice(), comment.as_slice()))
}

/// Whether what is told of an object is this name and this comment, and the bits and the date of an entry.
fn same_note(told: &FileInfo, entry: &Salvaged, name: &[u8], comment: &[u8]) -> bool
    ensures { IsTrue result → IsNoteOf told.now entry.now name.now comment.now }
{
    told.name.bytes() == name
        && told.protection.0 == entry.protection.0
        && told.date == entry.date
        && told.comment.bytes() == comment
}

/// Whether an object is a directory as the entry at a position, or a file with the bytes that were saved of it.
fn has_content(
    alloc: Global,
    volume: &Volume,
    salvage: &Salvage,
    place: usize,
    key: u32,
) -> Result<bool, AllocError>
    requires place { place < length salvage.now.entries }
    requires key { HasKey volume.now.image key }
    ensures { IfOk result (λ holds. (t : Tree) (entry : Entry) → Stands volume.now.image t → IsAt salvage.now.entries place entry → IsTrue holds
        → HoldsSaved salvage.now place entry entry.state (content_at t key)) }
{
    match salvage.entries()[place].state {
        State::Directory | State::DoubtfulDirectory => Ok(!volume.is_file(key)),
        State::Lost => Ok(false),
        State::Whole | State::Doubtful { .. } | State::Broken { .. } => {
            has_bytes(alloc, volume, salvage, place, key)
        }
    }
}

/// Whether an object is a file with the bytes that were saved of the entry at a position.
fn has_bytes(
    alloc: Global,
    volume: &Volume,
    salvage: &Salvage,
    place: usize,
    key: u32,
) -> Result<bool, AllocError>
    requires place { place < length salvage.now.entries }
    requires key { HasKey volume.now.image key }
    ensures { IfOk result (λ holds. (t : Tree) (entry : Entry) → Stands volume.now.image t → IsAt salvage.now.entries place entry → IsTrue holds
        → IsSavedFile salvage.now place entry (content_at t key)) }
{
    if !volume.is_file(key) {
        return Ok(false);
    }
    let saved = salvage.bytes_of(alloc, place)?;
    let bytes = read_file(alloc, volume, key)?;
    Ok(bytes.as_slice() == saved.as_slice())
}
