//! The bytes of all files of a volume.
ghost use Rattle.std.specs.Prelude.{◌≡◌, ◌↔◌, All, IfOk, IsTrue, map};
ghost use Rattle.ados_model.specs.Keys.{HasKey};
ghost use Rattle.ados_model.specs.Stands.{Stands};
ghost use Rattle.ados_model.specs.Tree.{Tree, bytes_of};
ghost use Rattle.adf_record.specs.Bundle.{AreContentsOf};

use ados_volume::{Below, Volume, entries_below, read_file};
use std::alloc::{AllocError, Global};

/// The bytes of each entry of a volume, in the order of its bundle. A directory has none.
pub fn contents_of(alloc: Global, volume: &Volume) -> Result<Vec<Vec<u8>>, AllocError>
    ensures { IfOk result (λ contents. (t : Tree) → Stands volume.now.image t → AreContentsOf t (map (λ bytes. bytes.items) contents.items)) }
{
    prove!(volume.image().blocks() >= 16);
    let found = entries_below(alloc, volume, volume.root())?;
    bytes_of_all(alloc, volume, &found)
}

/// The bytes of each of these objects.
fn bytes_of_all(alloc: Global, volume: &Volume, found: &[Below]) -> Result<Vec<Vec<u8>>, AllocError>
    requires { All (λ e. HasKey volume.now.image e.key) found.now }
    ensures { IfOk result (λ contents. (t : Tree) → Stands volume.now.image t
        → map (λ bytes. bytes.items) contents.items ≡ map (λ e. bytes_of t e.key) found.now) }
{
    let mut contents = Vec::new(alloc);
    for entry in found {
        contents.push(read_file(alloc, volume, entry.key)?)?;
    }
    Ok(contents)
}

/// Whether two lists of bytes are equal.
pub fn same_contents(one: &[Vec<u8>], other: &[Vec<u8>]) -> bool
    ensures { IsTrue result ↔ map (λ bytes. bytes.items) one.now ≡ map (λ bytes. bytes.items) other.now }
{
    one == other
}
