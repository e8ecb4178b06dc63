//! Changes of a directory's entries.

ghost use Rattle.std.specs.Prelude.{◌≡◌, [], IfOk};
ghost use Rattle.ados_model.specs.Tree.{Tree};
ghost use Rattle.ados_model.specs.Parts.{IsUnused};
ghost use Rattle.ados_model.specs.Tree.Content.{Directory};
ghost use Rattle.ados_model.specs.Stands.{Stands};
ghost use Rattle.ados_model.specs.Change.{made, removed, renamed};
ghost use Rattle.ados_model.specs.Keys.{HasDirectory, HasKey};
ghost use Rattle.adf_import.specs.Changes.{Changes};
ghost use Rattle.adf_import.specs.Refusals.{delete_refusal, make_refusal, move_refusal};

use ados_model::DosError;
use ados_name::{Date3, Name};
use ados_volume::{NodeKind, Volume, move_refusal, remove_refusal};

/// Makes an empty directory and returns its key. The dates of the new directory, of the one above it and of the disk
/// become `moment`.
///
/// Errors: 203 if an entry has the name, 221 if no block is free.
pub fn make_directory(
    volume: &mut Volume,
    dir: u32,
    name: Name,
    moment: Date3,
) -> Result<u32, DosError>
    requires { HasDirectory volume.old.image dir }
    ensures made { Changes (make_refusal dir name) (λ key t. made moment dir key name (Directory []) t) volume.old volume.new result }
    ensures unused { IfOk result (λ key. (t : Tree) → Stands volume.old.image t → IsUnused t key) }
    ensures validated { volume.new.was_validated ≡ volume.old.was_validated }
{
    prove!(volume.image().blocks() >= 16);
    if volume.child(dir, &name).is_some() {
        return Err(DosError::ObjectExists);
    }
    match volume.create(dir, name, NodeKind::Directory, moment) {
        Ok(key) => Ok(key),
        Err(_) => Err(DosError::DiskFull),
    }
}

/// Deletes a file, or a directory without entries. With `force` a protected one too. The date of its directory and the
/// disk date become `moment`.
///
/// Errors: 212 for the root, 216 if it has entries, 222 if a protection bit denies it.
#[tactic(auto, using(ados_change::proofs::Keeping::same_keeps))]
pub fn delete(volume: &mut Volume, key: u32, force: bool, moment: Date3) -> Result<(), DosError>
    requires { HasKey volume.old.image key }
    ensures done { Changes (delete_refusal key force) (λ _ t. removed moment key t) volume.old volume.new result }
    ensures validated { volume.new.was_validated ≡ volume.old.was_validated }
{
    if let Some(error) = remove_refusal(volume, key, false, force) {
        return Err(error);
    }
    volume.remove(key, moment);
    Ok(())
}

/// Moves an entry into a directory, possibly its own, under a name. The dates of both directories and the disk date
/// become `moment`. Protection bits do not refuse it, as with RENAME_OBJECT.
///
/// Errors: 212 for the root, 203 if another entry has the name, 202 if the directory is the entry or below it.
pub fn move_entry(
    volume: &mut Volume,
    key: u32,
    dir: u32,
    name: Name,
    moment: Date3,
) -> Result<(), DosError>
    requires key { HasKey volume.old.image key }
    requires directory { HasDirectory volume.old.image dir }
    ensures done { Changes (move_refusal key dir name) (λ _ t. renamed moment key dir name t) volume.old volume.new result }
    ensures validated { volume.new.was_validated ≡ volume.old.was_validated }
{
    if let Some(error) = move_refusal(volume, key, dir, &name, false) {
        return Err(error);
    }
    volume.rename(key, dir, name, moment);
    Ok(())
}
