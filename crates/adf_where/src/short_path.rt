//! The path of a file or directory, if it is not too long.
ghost use Rattle.std.specs.Prelude.{◌≡◌, ◌<◌, IfOk, IsTrue, length, option_map};
ghost use Rattle.std.specs.String.{string_bytes};
ghost use Rattle.ados_model.specs.Keys.{HasKey};
ghost use Rattle.ados_model.specs.Stands.{Stands};
ghost use Rattle.ados_model.specs.Tree.{Tree};
ghost use Rattle.adf_export.specs.Listing.{path_of};
ghost use Rattle.adf_where.specs.Where.{short_path};
ghost use Rattle.adf_where.specs.declared.short_path.TheConstants.{LONGEST_PATH};

use adf_export::path_of;
use adf_text::letter_text;
use ados_volume::Volume;
use std::alloc::{AllocError, Global};

/// The most bytes of a path that is told: those of the longest one that Linux opens.
pub const LONGEST_PATH: usize = 4_095;

/// The number of directories after which a path has more bytes than that.
const LEVELS: u32 = 4_097;

/// The path of a file or directory from the root in letters, with slashes; `None` for one of more than 4,095 bytes. So it
/// takes no more time if the directories of a volume are deep.
pub(crate) fn short_path(
    alloc: Global,
    volume: &Volume,
    key: u32,
) -> Result<Option<String>, AllocError>
    requires { HasKey volume.now.image key }
    ensures { IfOk result (λ found. (t : Tree) → Stands volume.now.image t → option_map string_bytes found ≡ short_path (path_of t key)) }
{
    if is_deep(volume, key) {
        return Ok(None);
    }
    let path = path_of(alloc, volume, key)?;
    if path.len() > LONGEST_PATH {
        return Ok(None);
    }
    Ok(Some(letter_text(alloc, &path)?))
}

/// Whether a file or directory is below more directories than a path that is told has bytes.
fn is_deep(volume: &Volume, key: u32) -> bool
    requires { HasKey volume.now.image key }
    ensures { IsTrue result → (t : Tree) → Stands volume.now.image t → LONGEST_PATH < length (path_of t key) }
{
    if volume.image().blocks() < LEVELS {
        return false;
    }
    let mut above = key;
    for _level in 0..LEVELS {
        match volume.parent(above) {
            Some(dir) => above = dir,
            None => return false,
        }
    }
    true
}
