//! Paths from the root, of any length.

ghost use Rattle.std.specs.Prelude.{◌≡◌, IfOk};
ghost use Rattle.ados_model.specs.Tree.{Tree, root};
ghost use Rattle.ados_model.specs.Stands.{Stands};
ghost use Rattle.ados_model.specs.Keys.{HasDirectory, HasKey};
ghost use Rattle.ados_model.specs.Change.{place};
ghost use Rattle.ados_model.specs.declared.dos_error.WalkFault.TheVariants.{ObjectNotFound};
ghost use Rattle.ados_model.specs.Resolved.{place_result};
ghost use Rattle.ados_volume.specs.Paths.{Leads};

use crate::volume::Volume;
use ados_model::{DosError, WalkFault};
use ados_name::Name;

/// Where the walk along a path stops: the object where the next step fails, and the DOS error of that step.
#[derive(Clone, Copy, PartialEq, Eq)]
pub struct Stopped {
    pub at: u32,
    pub error: DosError,
}

/// The object of a path from the root, by the rules of packets, but for a path of any length.
///
/// Errors: 204 if a directory of the path does not exist; 205 if the object does not, or for the parent of the root;
/// 212 for a file in place of a directory.
pub fn locate(volume: &mut Volume, path: &[u8]) -> Result<u32, Stopped>
    ensures leads { (t : Tree) → Stands volume.old.image t → Leads t path.now ObjectNotFound result }
    ensures key { IfOk result (λ key. HasKey volume.old.image key) }
    ensures same { volume.new ≡ volume.old }
{
    match volume.walk_steps(volume.root(), path, WalkFault::ObjectNotFound) {
        Ok(key) => Ok(key),
        Err((at, fault)) => {
            let error = fault.error();
            Err(Stopped { at, error })
        }
    }
}

/// The place that a path from the root names: the directory at the end of its prefix, and its last name.
///
/// Errors: as in [`locate`], but 204 for each missing directory; 212 if the prefix leads to a file; 210 if the last
/// name is empty or longer than 30 bytes.
pub fn place(volume: &mut Volume, path: &[u8]) -> Result<(u32, Name), DosError>
    ensures place { (t : Tree) → Stands volume.old.image t → result ≡ place_result (place t (root t) path.now) }
    ensures directory { IfOk result (λ found. HasDirectory volume.old.image found.0) }
    ensures same { volume.new ≡ volume.old }
{
    match volume.place_from(volume.root(), path) {
        Ok(found) => Ok(found),
        Err(fault) => Err(fault.error()),
    }
}
