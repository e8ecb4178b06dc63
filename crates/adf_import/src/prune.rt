//! Deletion of an entry with everything below it.

ghost use Rattle.std.specs.Prelude.{◌≡◌, ◌++◌, false, IfOk, OnOk};
ghost use Rattle.ados_model.specs.Tree.{Tree, entries};
ghost use Rattle.ados_model.specs.Stands.{Stands};
ghost use Rattle.ados_model.specs.Keys.{HasEntryKey, HasKey};
ghost use Rattle.adf_import.specs.Pruned.{AreKeysBelow, IsDeniedEntry, Prunes, RemovesInTurn, pruned};

use ados_model::DosError;
use ados_name::Date3;
use ados_volume::{Next, Volume, is_denied};
use std::alloc::{AllocError, Global};

/// Deletes an entry with everything below it, and nothing else. With `force` protected entries too. The date of its
/// directory and the disk date become `moment`.
///
/// Errors: 212 for the root; 103 if there is no memory for the list of entries below it; 222 if a protection bit of
/// one of these entries denies it.
pub fn delete_all(
    alloc: Global,
    volume: &mut Volume,
    key: u32,
    force: bool,
    moment: Date3,
) -> Result<(), DosError>
    requires { HasKey volume.old.image key }
    ensures done { Prunes moment key force volume.old volume.new result }
    ensures validated { volume.new.was_validated ≡ volume.old.was_validated }
{
    if key == volume.root() {
        return Err(DosError::ObjectWrongType);
    }
    let below = match keys_below(alloc, volume, key) {
        Ok(below) => below,
        Err(_) => return Err(DosError::NoFreeStore),
    };
    if first_denied(volume, key, below.as_slice(), force).is_some() {
        return Err(DosError::DeleteProtected);
    }
    remove_all(volume, key, below, moment);
    Ok(())
}

/// The keys of all entries below an object, each after the key of its directory. The entries of one directory are in
/// the reverse of its order. So when they are removed from the end of the list on, each is the first of its hash chain.
fn keys_below(alloc: Global, volume: &Volume, top: u32) -> Result<Vec<u32>, AllocError>
    requires { HasKey volume.now.image top }
    ensures { IfOk result (λ keys. (t : Tree) → Stands volume.now.image t → AreKeysBelow t top keys.items) }
{
    prove!(volume.image().blocks() >= 16);
    let mut keys = Vec::new(alloc);
    let mut waiting = Vec::new(alloc);
    push_entries(volume, top, &mut waiting)?;
    while let Some(key) = waiting.pop() {
        push_entries(volume, key, &mut waiting)?;
        keys.push(key)?;
    }
    Ok(keys)
}

/// Pushes the keys of a directory's entries, in its order. A file has none.
fn push_entries(volume: &Volume, dir: u32, keys: &mut Vec<u32>) -> Result<(), AllocError>
    requires { HasKey volume.now.image dir }
    ensures { OnOk result ((t : Tree) → Stands volume.now.image t → keys.new.items ≡ keys.old.items ++ entries t dir) }
{
    prove!(volume.image().blocks() >= 16);
    if volume.is_file(dir) {
        return Ok(());
    }
    let mut last = dir;
    while let Next::Entry(key) = volume.next_from(dir, last) {
        keys.push(key)?;
        last = key;
    }
    Ok(())
}

/// An entry that a protection bit keeps from being deleted with everything below `key`: the first such entry below it, or else
/// the entry itself.
pub fn denied_entry(alloc: Global, volume: &Volume, key: u32) -> Result<Option<u32>, AllocError>
    requires { HasKey volume.now.image key }
    ensures { IfOk result (λ found. IsDeniedEntry volume.now.image key false found) }
{
    let below = keys_below(alloc, volume, key)?;
    Ok(first_denied(volume, key, below.as_slice(), false))
}

/// The first of the entries below one, or else the entry itself, whose protection bit denies deletion, without `force`.
fn first_denied(volume: &Volume, key: u32, below: &[u32], force: bool) -> Option<u32>
    requires key { HasKey volume.now.image key }
    requires below { (t : Tree) → Stands volume.now.image t → AreKeysBelow t key below.now }
    ensures { IsDeniedEntry volume.now.image key force result }
{
    for entry in below {
        if is_denied(volume, *entry, force) {
            return Some(*entry);
        }
    }
    if is_denied(volume, key, force) {
        return Some(key);
    }
    None
}

/// Removes entries from the last to the first, then the entry above them.
fn remove_all(volume: &mut Volume, key: u32, mut below: Vec<u32>, moment: Date3)
    requires entry { HasEntryKey volume.old.image key }
    requires below { (t : Tree) → Stands volume.old.image t → AreKeysBelow t key below.items }
    ensures stands { (t : Tree) → Stands volume.old.image t → Stands volume.new.image (pruned moment key t) }
    ensures goes { RemovesInTurn moment key volume.old.image volume.new.image }
    ensures validated { volume.new.was_validated ≡ volume.old.was_validated }
{
    prove!(volume.image().blocks() >= 16);
    while let Some(entry) = below.pop() {
        volume.remove(entry, moment);
    }
    volume.remove(key, moment);
}
