//! Packets that make and delete entries.

ghost use Rattle.std.specs.Prelude.{◌≡◌};
ghost use Rattle.ados_model.specs.Keys.{HasKey};
ghost use Rattle.ados_model.specs.Tree.{Tree};
ghost use Rattle.ados_model.specs.Stands.{Stands};
ghost use Rattle.ados_model.specs.declared.packet.Packet.TheVariants.{CreateDir, DeleteObject};
ghost use Rattle.ados_handler.specs.steps.Methods.{MethodGives};
ghost use Rattle.ados_handler.specs.steps.Moves.{remove_refusal};
ghost use Rattle.ados_handler.specs.steps.Places.{MayTakeLock};

use crate::handler::Handler;
use ados_model::{Body, DosError, LockHold, Results};
use ados_name::{Date3, PathText};
use ados_volume::{NodeKind, remove_refusal};

impl Handler {
    /// DELETE_OBJECT.
    pub(crate) fn delete_object(&mut self, lock: u32, path: &PathText, now: Date3) -> Results
        ensures gives { MethodGives self.old (DeleteObject lock path.now) now self.new result }
        ensures places { self.new.places ≡ self.old.places }
    {
        if self.died {
            return Results::refused(DosError::DeviceNotMounted);
        }
        let key = match self.walked(lock, path) {
            Ok(key) => key,
            Err(error) => return Results::refused(error),
        };
        if let Some(error) = self.remove_refusal(key) {
            return Results::refused(error);
        }
        self.volume.remove(key, now);
        Results::done(Body::Empty)
    }

    /// CREATE_DIR. The new lock is exclusive.
    pub(crate) fn create_dir(&mut self, lock: u32, path: &PathText, now: Date3) -> Results
        ensures gives { MethodGives self.old (CreateDir lock path.now) now self.new result }
        ensures room { MayTakeLock self.old.places self.new.places result }
    {
        if self.died {
            return Results::refused(DosError::DeviceNotMounted);
        }
        let (dir, name) = match self.placed(lock, path) {
            Ok(found) => found,
            Err(error) => return Results::refused(error),
        };
        if self.volume.child(dir, &name).is_some() {
            return Results::refused(DosError::ObjectExists);
        }
        if !self.has_room() {
            return Results::refused(DosError::DiskFull);
        }
        if self.locks.reserve().is_err() {
            return Results::refused(DosError::NoFreeStore);
        }
        let Ok(key) = self.volume.create(dir, name, NodeKind::Directory, now) else {
            unreachable!()
        };
        let number = self.locks.insert_reserved(LockHold {
            key,
            exclusive: true,
        });
        Results::counted(number, Body::Empty)
    }

    /// The DOS error that refuses to delete an object, or none.
    pub(crate) fn remove_refusal(&self, key: u32) -> Option<DosError>
        requires { HasKey self.now.image key }
        ensures { (t : Tree) → Stands self.now.image t → result ≡ remove_refusal t self.now.session key }
    {
        remove_refusal(&self.volume, key, self.is_held(key), false)
    }
}
