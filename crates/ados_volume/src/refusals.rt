//! What refuses that an object is removed or moved.

ghost use Rattle.std.specs.Prelude.{◌≡◌, ◌&&◌, not};
ghost use Rattle.ados_name.specs.Name.{denies_delete};
ghost use Rattle.ados_model.specs.Tree.{Tree, entries};
ghost use Rattle.ados_model.specs.Stands.{Stands};
ghost use Rattle.ados_model.specs.Keys.{HasDirectory, HasKey};
ghost use Rattle.ados_model.specs.Objects.{is_under, protection_of};
ghost use Rattle.ados_model.specs.Refusals.{is_empty};
ghost use Rattle.ados_volume.specs.Refusals.{move_refusal, remove_refusal};

use crate::volume::Volume;
use ados_chain::Next;
use ados_model::DosError;
use ados_name::Name;

/// The DOS error that refuses to remove an object, or none: 212 for the root, 202 if it is held, 216 if it has entries,
/// 222 if a protection bit denies it and `force` is not set.
pub fn remove_refusal(volume: &Volume, key: u32, held: bool, force: bool) -> Option<DosError>
    requires { HasKey volume.now.image key }
    ensures { (t : Tree) → Stands volume.now.image t → result ≡ remove_refusal t key held force }
{
    if key == volume.root() {
        return Some(DosError::ObjectWrongType);
    }
    if held {
        return Some(DosError::ObjectInUse);
    }
    if has_entries(volume, key) {
        return Some(DosError::DirectoryNotEmpty);
    }
    if is_denied(volume, key, force) {
        return Some(DosError::DeleteProtected);
    }
    None
}

/// The DOS error that refuses to move an object into a directory under a name, or none: 212 for the root, 203 if another
/// entry has the name, 202 if the object is held, or if the directory is the object or below it.
pub fn move_refusal(
    volume: &mut Volume,
    key: u32,
    dir: u32,
    name: &Name,
    held: bool,
) -> Option<DosError>
    requires key { HasKey volume.old.image key }
    requires directory { HasDirectory volume.old.image dir }
    ensures refusal { (t : Tree) → Stands volume.old.image t → result ≡ move_refusal t key dir name.now held }
    ensures same { volume.new ≡ volume.old }
{
    if key == volume.root() {
        return Some(DosError::ObjectWrongType);
    }
    if let Some(other) = volume.child(dir, name)
        && other != key
    {
        return Some(DosError::ObjectExists);
    }
    if held || is_under(volume, key, dir) {
        return Some(DosError::ObjectInUse);
    }
    None
}

/// Whether the object is a directory with entries.
fn has_entries(volume: &Volume, key: u32) -> bool
    requires { HasKey volume.now.image key }
    ensures { (t : Tree) → Stands volume.now.image t → result ≡ not (is_empty (entries t key)) }
{
    !volume.is_file(key) && volume.next(key, key) != Next::End
}

/// Whether a protection bit denies that an object is deleted, without `force`.
pub fn is_denied(volume: &Volume, key: u32, force: bool) -> bool
    requires { HasKey volume.now.image key }
    ensures { (t : Tree) → Stands volume.now.image t → result ≡ not force && denies_delete (protection_of t key) }
{
    let denied = volume.protection(key).denies_delete();
    !force && denied
}

/// Whether an object is the other one, or is below it. The search ends, because no object has more directories above
/// it than the volume has blocks.
fn is_under(volume: &Volume, above: u32, key: u32) -> bool
    requires { HasKey volume.now.image key }
    ensures { (t : Tree) → Stands volume.now.image t → result ≡ is_under t above key }
{
    let mut key = key;
    for _step in 0..volume.image().blocks() {
        if key == above {
            return true;
        }
        match volume.parent(key) {
            Some(next) => key = next,
            None => return false,
        }
    }
    key == above
}
