//! The path of a directory or file, if it is not too long.
ghost use Rattle.std.specs.Prelude.{◌≡◌, ◌<◌, ◌++◌, ◌∷◌, IfOk, length, option_map};
ghost use Rattle.std.specs.String.{string_bytes};
ghost use Rattle.ados_model.specs.Keys.{HasKey};
ghost use Rattle.ados_model.specs.Stands.{Stands};
ghost use Rattle.ados_model.specs.Tree.{Tree, name_of};
ghost use Rattle.adf_archive.specs.Paths.{IsPathOf};

use adf_text::letter_text;
use ados_volume::Volume;
use std::alloc::{AllocError, Global};

/// The most bytes of a path that is told, in the letters of the image. A packet has no longer one.
pub const MOST_PATH_BYTES: usize = 255;

/// The path of a directory or file from the root in letters, with slashes; `None` for the root, and for a path of more than 255
/// bytes. So it takes no more time if the directories of a volume are deep.
pub(crate) fn path_of(
    alloc: Global,
    volume: &Volume,
    key: u32,
) -> Result<Option<String>, AllocError>
    requires { HasKey volume.now.image key }
    ensures { IfOk result (λ found. (t : Tree) → Stands volume.now.image t → IsPathOf t key (option_map string_bytes found)) }
{
    let mut path = name_of(alloc, volume, key)?;
    let mut top = key;
    while path.len() <= MOST_PATH_BYTES {
        match volume.parent(top) {
            Some(above) if above == volume.root() => return Ok(Some(letter_text(alloc, &path)?)),
            Some(above) => {
                path = path_below(alloc, volume, above, &path)?;
                top = above;
            }
            None => return Ok(None),
        }
    }
    Ok(None)
}

/// A path from a directory, with the name of the directory in front.
fn path_below(alloc: Global, volume: &Volume, dir: u32, path: &[u8]) -> Result<Vec<u8>, AllocError>
    requires { HasKey volume.now.image dir }
    ensures path { IfOk result (λ longer. (t : Tree) → Stands volume.now.image t → longer.items ≡ name_of t dir ++ 47 ∷ path.now) }
    ensures longer { IfOk result (λ longer. length path.now < length longer.items) }
{
    let mut longer = name_of(alloc, volume, dir)?;
    longer.push(b'/')?;
    longer.extend_from_slice(path)?;
    Ok(longer)
}

/// The name of a directory or file.
fn name_of(alloc: Global, volume: &Volume, key: u32) -> Result<Vec<u8>, AllocError>
    requires { HasKey volume.now.image key }
    ensures { IfOk result (λ name. (t : Tree) → Stands volume.now.image t → name.items ≡ name_of t key) }
{
    let mut name = Vec::new(alloc);
    name.extend_from_slice(volume.examine(key).name.bytes())?;
    Ok(name)
}
