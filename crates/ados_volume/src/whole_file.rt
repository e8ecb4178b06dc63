//! The bytes of a file.

ghost use Rattle.std.specs.Prelude.{◌≡◌, IfOk};
ghost use Rattle.ados_model.specs.Tree.{Tree, bytes_of};
ghost use Rattle.ados_model.specs.Stands.{Stands};
ghost use Rattle.ados_model.specs.Keys.{HasKey};

use crate::volume::Volume;
use ados_data::{Place, read_near};
use std::alloc::{AllocError, Global};

/// All bytes of a file. A directory has none.
pub fn read_file(alloc: Global, volume: &Volume, key: u32) -> Result<Vec<u8>, AllocError>
    requires { HasKey volume.now.image key }
    ensures { IfOk result (λ bytes. (t : Tree) → Stands volume.now.image t → bytes.items ≡ bytes_of t key) }
{
    if !volume.is_file(key) {
        return Ok(Vec::new(alloc));
    }
    let mut bytes = vec![in alloc; 0_u8; volume.size(key) as usize]?;
    read_near(
        volume.image(),
        key,
        Place::header(key),
        0,
        bytes.as_mut_slice(),
    );
    Ok(bytes)
}
