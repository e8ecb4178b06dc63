//! One file or directory put into a directory.

ghost use Rattle.std.specs.Prelude.{◌≡◌, [], None, IfOk, OnOk, IsTrue};
ghost use Rattle.ados_model.specs.Tree.{Tree};
ghost use Rattle.ados_model.specs.Tree.Content.{Directory};
ghost use Rattle.ados_model.specs.Stands.{Stands};
ghost use Rattle.ados_model.specs.Change.{made, child_of};
ghost use Rattle.ados_model.specs.Keys.{HasDirectory, HasEntryKey};
ghost use Rattle.adf_import.specs.Changes.{Changes};
ghost use Rattle.adf_import.specs.Put.{KeepsKeys, child_before, enter_refusal, entered, new_refusal};

use crate::entries::make_directory;
use crate::new_file::{NewFile, NotPut};
use adf_text::Uaem;
use ados_model::DosError;
use ados_name::{Date3, Name};
use ados_volume::{Volume, free_blocks};

/// The new file for these bytes and this metadata.
pub(crate) fn noted_file<'a>(bytes: &'a [u8], noted: &Uaem) -> NewFile<'a>
    ensures bytes { result.bytes.now ≡ bytes.now }
    ensures date { result.date ≡ noted.now.date }
    ensures protection { result.protection ≡ noted.now.protect }
    ensures comment { result.comment ≡ noted.now.comment }
{
    NewFile {
        bytes,
        date: noted.date,
        protection: noted.protect,
        comment: noted.comment,
    }
}

/// A directory in another one, and whether it is new.
#[derive(Clone, Copy)]
pub(crate) struct Entered {
    pub key: u32,
    pub is_new: bool,
}

/// The directory with this name in another one: the existing one, or a new one.
///
/// Errors: 203 if a file has the name, with `force` 212; 221 if no block is free.
pub(crate) fn enter_directory(
    volume: &mut Volume,
    dir: u32,
    name: Name,
    force: bool,
    moment: Date3,
) -> Result<Entered, NotPut>
    requires { HasDirectory volume.old.image dir }
    ensures entered { Changes (enter_refusal dir name force) (λ e t. entered moment dir name e.key t) volume.old volume.new result }
    ensures child { IfOk result (λ e. (t : Tree) → Stands volume.old.image t → child_of t dir name ≡ child_before e) }
    ensures directory { IfOk result (λ e. HasDirectory volume.new.image e.key) }
    ensures entry { IfOk result (λ e. IsTrue e.is_new → HasEntryKey volume.new.image e.key) }
    ensures keeps { OnOk result (KeepsKeys volume.old.image volume.new.image) }
{
    match volume.child(dir, &name) {
        None => new_directory(volume, dir, name, moment),
        Some(key) => {
            if !volume.is_file(key) {
                return Ok(Entered { key, is_new: false });
            }
            if force {
                return Err(NotPut::Refused(DosError::ObjectWrongType));
            }
            Err(NotPut::Refused(DosError::ObjectExists))
        }
    }
}

/// Makes a new directory.
fn new_directory(
    volume: &mut Volume,
    dir: u32,
    name: Name,
    moment: Date3,
) -> Result<Entered, NotPut>
    requires directory { HasDirectory volume.old.image dir }
    requires free { (t : Tree) → Stands volume.old.image t → child_of t dir name ≡ None }
    ensures made { Changes new_refusal (λ e t. made moment dir e.key name (Directory []) t) volume.old volume.new result }
    ensures new { IfOk result (λ e. IsTrue e.is_new) }
    ensures directory { IfOk result (λ e. HasDirectory volume.new.image e.key) }
    ensures entry { IfOk result (λ e. HasEntryKey volume.new.image e.key) }
    ensures keeps { OnOk result (KeepsKeys volume.old.image volume.new.image) }
{
    prove!(volume.image().blocks() >= 16);
    match make_directory(volume, dir, name, moment) {
        Ok(key) => Ok(Entered { key, is_new: true }),
        Err(DosError::DiskFull) => Err(NotPut::NoRoom {
            needed: 1,
            free: free_blocks(volume),
        }),
        Err(error) => Err(NotPut::Refused(error)),
    }
}
