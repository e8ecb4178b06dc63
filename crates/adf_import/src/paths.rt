//! Changes of the entry at a path from the root.

ghost use Rattle.std.specs.Prelude.{◌≡◌, IfOk, Result, false, true};
ghost use Rattle.ados_model.specs.Tree.{Tree};
ghost use Rattle.ados_model.specs.Stands.{Stands};
ghost use Rattle.ados_model.specs.Keys.{HasDirectory, HasKey};
ghost use Rattle.adf_import.specs.Commands.{ChangesEntry, Moves};
ghost use Rattle.adf_import.specs.Paths.{directory_at, move_fault, object_at};

use crate::entries::{delete, move_entry};
use crate::fields::{comment, protect, redate};
use crate::prune::delete_all;
use adf_text::ProtectWord;
use ados_model::DosError;
use ados_name::Date3;
use ados_volume::{Volume, locate, place};
use std::alloc::Global;

/// The change of an entry.
#[derive(Clone, Copy)]
pub(crate) enum EntryChange<'a> {
    /// Delete it; with `all` everything below it too, with `force` protected entries too.
    Delete { all: bool, force: bool },
    /// Set its low eight protection bits.
    Protect(ProtectWord<'a>),
    Date(Date3),
    Comment(&'a [u8]),
}

/// Changes the entry at a path.
///
/// Errors: those of a walk (204, 205, 212), 220 for more than 79 bytes of a comment, and those of the change.
pub(crate) fn change_at(
    alloc: Global,
    volume: &mut Volume,
    path: &[u8],
    change: EntryChange<'_>,
    moment: Date3,
) -> Result<(), DosError>
    ensures { ChangesEntry moment change.entry path.now volume.old volume.new result }
{
    let key = object_at(volume, path)?;
    match change {
        EntryChange::Delete { all, force } => {
            if all {
                return delete_all(alloc, volume, key, force, moment);
            }
            delete(volume, key, force, moment)
        }
        EntryChange::Protect(word) => {
            let bits = word.after(volume.protection(key));
            protect(volume, key, bits, moment)
        }
        EntryChange::Date(date) => redate(volume, key, date, moment),
        EntryChange::Comment(text) => comment(volume, key, text, moment),
    }
}

/// Why an entry is not moved, and whether this is about its old or its new path.
#[derive(Clone, Copy)]
pub(crate) enum MoveFault {
    Old(DosError),
    New(DosError),
}

/// Moves an entry to another place.
///
/// Errors for the old path: those of a walk (204, 205, 212), 212 and 202. Errors for the new one: those of a place,
/// and 203.
pub(crate) fn move_at(
    volume: &mut Volume,
    old: &[u8],
    new: &[u8],
    moment: Date3,
) -> Result<(), MoveFault>
    ensures { Moves moment old.now new.now volume.old volume.new result }
{
    let key = match object_at(volume, old) {
        Ok(key) => key,
        Err(error) => return Err(MoveFault::Old(error)),
    };
    let to = match place(volume, new) {
        Ok(to) => to,
        Err(error) => return Err(MoveFault::New(error)),
    };
    match move_entry(volume, key, to.0, to.1, moment) {
        Ok(()) => Ok(()),
        Err(error) => Err(move_fault(error)),
    }
}

/// The path that an error of a move is about. It is the new one if another entry has the name.
fn move_fault(error: DosError) -> MoveFault
    ensures { result ≡ move_fault error }
{
    match error {
        DosError::ObjectExists => MoveFault::New(error),
        _ => MoveFault::Old(error),
    }
}

/// The directory at a path.
///
/// Errors: those of a walk (204, 205, 212), and 212 for a file.
pub(crate) fn directory_at(volume: &mut Volume, path: &[u8]) -> Result<u32, DosError>
    ensures found { (t : Tree) → Stands volume.old.image t → result ≡ directory_at path.now t }
    ensures directory { IfOk result (HasDirectory volume.old.image) }
    ensures same { volume.new ≡ volume.old }
{
    let key = object_at(volume, path)?;
    if volume.is_file(key) {
        return Err(DosError::ObjectWrongType);
    }
    Ok(key)
}

/// The object at a path.
///
/// Errors: those of a walk (204, 205, 212).
pub(crate) fn object_at(volume: &mut Volume, path: &[u8]) -> Result<u32, DosError>
    ensures object { (t : Tree) → Stands volume.old.image t → result ≡ object_at path.now t }
    ensures key { IfOk result (HasKey volume.old.image) }
    ensures same { volume.new ≡ volume.old }
{
    match locate(volume, path) {
        Ok(key) => Ok(key),
        Err(stopped) => Err(stopped.error),
    }
}
