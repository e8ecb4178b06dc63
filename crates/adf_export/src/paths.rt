//! The path of an object, and the path before the names in a directory.
ghost use Rattle.std.specs.Prelude.{◌≡◌, IfOk, All};
ghost use Rattle.ados_model.specs.Keys.{HasKey};
ghost use Rattle.ados_model.specs.Stands.{Stands};
ghost use Rattle.ados_model.specs.Tree.{Tree};
ghost use Rattle.adf_export.specs.Listing.{front, front_above, path_of};
ghost use Rattle.adf_export.specs.steps.NamesDown.{names_down};

use crate::keys::name_of;
use ados_volume::Volume;
use std::alloc::{AllocError, Global};

/// The path of an object from the root.
pub fn path_of(alloc: Global, volume: &Volume, key: u32) -> Result<Vec<u8>, AllocError>
    requires { HasKey volume.now.image key }
    ensures { IfOk result (λ path. (t : Tree) → Stands volume.now.image t → path.items ≡ path_of t key) }
{
    let mut path = front_above(alloc, volume, key)?;
    path.extend_from_slice(name_of(volume, key).bytes())?;
    Ok(path)
}

/// The path before the name of an object; for the root it is empty.
pub(crate) fn front_above(alloc: Global, volume: &Volume, key: u32) -> Result<Vec<u8>, AllocError>
    requires { HasKey volume.now.image key }
    ensures { IfOk result (λ text. (t : Tree) → Stands volume.now.image t → text.items ≡ front_above t key) }
{
    match volume.parent(key) {
        Some(dir) => front_of(alloc, volume, dir),
        None => Ok(Vec::new(alloc)),
    }
}

/// The names of the directories from the root down to this one, each followed by `/`.
pub(crate) fn front_of(alloc: Global, volume: &Volume, dir: u32) -> Result<Vec<u8>, AllocError>
    requires { HasKey volume.now.image dir }
    ensures { IfOk result (λ text. (t : Tree) → Stands volume.now.image t → text.items ≡ front t t.blocks dir) }
{
    let mut keys = keys_up(alloc, volume, dir)?;
    let mut text = Vec::new(alloc);
    while let Some(key) = keys.pop() {
        text.extend_from_slice(name_of(volume, key).bytes())?;
        text.push(b'/')?;
    }
    Ok(text)
}

/// A directory and all directories above it, without the root. There are no more of them than blocks.
fn keys_up(alloc: Global, volume: &Volume, dir: u32) -> Result<Vec<u32>, AllocError>
    requires { HasKey volume.now.image dir }
    ensures keys { IfOk result (λ keys. All (HasKey volume.now.image) keys.items) }
    ensures front { IfOk result (λ keys. (t : Tree) → Stands volume.now.image t → names_down t keys.items ≡ front t t.blocks dir) }
{
    let mut keys = Vec::new(alloc);
    let mut key = dir;
    for _depth in 0..volume.image().blocks() {
        match volume.parent(key) {
            Some(above) => {
                keys.push(key)?;
                key = above;
            }
            None => return Ok(keys),
        }
    }
    Ok(keys)
}
