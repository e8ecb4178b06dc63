//! Arguments that choose no deleted entry.
ghost use Rattle.std.specs.Prelude.{ℕ, List, IfErr};
ghost use Rattle.adf_rescue.specs.Undelete.{IsUndeleteFault};

use crate::asked::{key_of, key_text};
use crate::chosen::position_of;
use crate::placing::Placed;
use crate::undelete_fault::UndeleteFault;
use ados_salvage::{Salvaged, Undeleted};
use std::alloc::{AllocError, Global};
use std::collections::BTreeSet;

/// Refuses an argument that names neither a deleted entry nor a directory above one.
pub(crate) fn refuse_idle(
    alloc: Global,
    found: &Undeleted,
    places: &[Placed],
    words: &[&str],
) -> Result<(), UndeleteFault>
    ensures { IfErr result (λ fault. (image : List ℕ) → IsUndeleteFault image fault) }
{
    if words.is_empty() {
        return Ok(());
    }
    let paths = deleted_paths(alloc, found, places)?;
    for word in words {
        let key = key_of(alloc, word)?;
        if !paths.contains(key.as_str()) {
            return Err(UndeleteFault::NothingDeleted(String::from_str(alloc, word)?));
        }
    }
    Ok(())
}

/// The paths of the deleted entries and of the directories above them, as they are looked up. That of the root is empty.
fn deleted_paths(
    alloc: Global,
    found: &Undeleted,
    places: &[Placed],
) -> Result<BTreeSet<String>, AllocError> {
    let mut paths = BTreeSet::new(alloc);
    if !found.deleted.is_empty() {
        paths.insert(String::new(alloc))?;
    }
    let mut holds = are_deleted(alloc, found)?;
    add_directories(&mut holds, found.salvage.entries());
    for (place, is_one) in places.iter().zip(holds.iter()) {
        if let (Some(path), true) = (place.path(), *is_one) {
            paths.insert(key_text(alloc, path)?)?;
        }
    }
    Ok(paths)
}

/// For each entry, whether it is deleted.
fn are_deleted(alloc: Global, found: &Undeleted) -> Result<Vec<bool>, AllocError> {
    let mut are = vec![in alloc; false; found.salvage.entries().len()]?;
    for entry in &found.deleted {
        if let Some(position) = position_of(&found.places, entry.header) {
            if let Some(is_one) = are.get_mut(position) {
                *is_one = true;
            }
        }
    }
    Ok(are)
}

/// Adds to these entries the directories above them. A directory comes before its entries.
fn add_directories(holds: &mut [bool], entries: &[Salvaged]) {
    for position in (0..entries.len()).rev() {
        if holds.get(position).copied() != Some(true) {
            continue;
        }
        if let Some(above) = entries[position].above {
            if let Some(is_one) = holds.get_mut(above) {
                *is_one = true;
            }
        }
    }
}
