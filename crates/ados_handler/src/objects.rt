//! The objects of locks and paths.

ghost use Rattle.std.specs.Prelude.{◌≡◌, IfOk, IfSome};
ghost use Rattle.ados_model.specs.Keys.{HasDirectory, HasKey};
ghost use Rattle.ados_model.specs.Tree.{Tree};
ghost use Rattle.ados_model.specs.Stands.{Stands};
ghost use Rattle.ados_model.specs.Resolved.{lock_object, placed_at, walked};

use crate::handler::Handler;
use ados_model::{DosError, NO_LOCK};
use ados_name::{Name, PathText};

impl Handler {
    /// The object of a lock, or none if no lock has this number.
    pub(crate) fn object_of(&self, lock: u32) -> Option<u32>
        ensures object { (t : Tree) → Stands self.now.image t → result ≡ lock_object t self.now.session lock }
        ensures key { IfSome result (λ key. HasKey self.now.image key) }
    {
        if lock == NO_LOCK {
            return Some(self.volume.root());
        }
        match self.locks.get(lock) {
            Some(hold) => Some(hold.key),
            None => None,
        }
    }

    /// The object of a path that starts at a lock, or the DOS error.
    pub(crate) fn walked(&mut self, lock: u32, path: &PathText) -> Result<u32, DosError>
        ensures walk { (t : Tree) → Stands self.old.image t → result ≡ walked t self.old.session lock path.now }
        ensures key { IfOk result (λ key. HasKey self.old.image key) }
        ensures same { self.new ≡ self.old }
    {
        let Some(start) = self.object_of(lock) else {
            return Err(DosError::InvalidLock);
        };
        match self.volume.walk(start, path) {
            Ok(key) => Ok(key),
            Err(fault) => Err(fault.error()),
        }
    }

    /// The directory and the name of a new place by a path that starts at a lock, or the DOS error.
    pub(crate) fn placed(&mut self, lock: u32, path: &PathText) -> Result<(u32, Name), DosError>
        ensures place { (t : Tree) → Stands self.old.image t → result ≡ placed_at t self.old.session lock path.now }
        ensures directory { IfOk result (λ found. HasDirectory self.old.image found.0) }
        ensures same { self.new ≡ self.old }
    {
        let Some(start) = self.object_of(lock) else {
            return Err(DosError::InvalidLock);
        };
        match self.volume.place(start, path) {
            Ok(found) => Ok(found),
            Err(fault) => Err(fault.error()),
        }
    }
}
