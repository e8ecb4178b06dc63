//! Packets of locks.

ghost use Rattle.std.specs.Prelude.{◌≡◌, false};
ghost use Rattle.ados_name.specs.declared.stamp.Date3.{Date3 as Moment};
ghost use Rattle.ados_model.specs.Keys.{HasKey};
ghost use Rattle.ados_model.specs.declared.packet.Packet.TheVariants.{CopyDir, FreeLock, LocateObject, Parent, SameLock};
ghost use Rattle.ados_model.specs.Session.{is_in_use};
ghost use Rattle.ados_model.specs.Objects.{is_exclusive_mode};
ghost use Rattle.ados_handler.specs.steps.NewLock.{BringsLock};
ghost use Rattle.ados_handler.specs.steps.Methods.{MethodGives};
ghost use Rattle.ados_handler.specs.steps.Places.{FreesLock, MayTakeLock};

use crate::handler::Handler;
use ados_model::{Body, DosError, LockHold, NO_LOCK, Results};
use ados_name::PathText;

impl Handler {
    /// LOCATE_OBJECT.
    pub(crate) fn locate_object(&mut self, lock: u32, path: &PathText, mode: i32) -> Results
        ensures gives { (now : Moment) → MethodGives self.old (LocateObject lock path.now mode) now self.new result }
        ensures room { MayTakeLock self.old.places self.new.places result }
    {
        if self.died {
            return Results::refused(DosError::DeviceNotMounted);
        }
        let key = match self.walked(lock, path) {
            Ok(key) => key,
            Err(error) => return Results::refused(error),
        };
        let exclusive = is_exclusive(mode);
        if self.is_in_use(key, exclusive) {
            return Results::refused(DosError::ObjectInUse);
        }
        self.bring_lock(key, exclusive)
    }

    /// FREE_LOCK. `NO_LOCK` is no hold: it succeeds and changes nothing.
    pub(crate) fn free_lock(&mut self, lock: u32) -> Results
        ensures gives { (now : Moment) → MethodGives self.old (FreeLock lock) now self.new result }
        ensures room { FreesLock self.old.places self.new.places result lock }
    {
        if self.died {
            return Results::refused(DosError::DeviceNotMounted);
        }
        if lock != NO_LOCK {
            if self.locks.get(lock).is_none() {
                return Results::refused(DosError::InvalidLock);
            }
            let _ = self.locks.remove(lock);
        }
        Results::done(Body::Empty)
    }

    /// COPY_DIR. `NO_LOCK` is no hold: its copy is `NO_LOCK`.
    pub(crate) fn copy_dir(&mut self, lock: u32) -> Results
        ensures gives { (now : Moment) → MethodGives self.old (CopyDir lock) now self.new result }
        ensures room { MayTakeLock self.old.places self.new.places result }
    {
        if self.died {
            return Results::refused(DosError::DeviceNotMounted);
        }
        if lock == NO_LOCK {
            return Results::counted(NO_LOCK, Body::Empty);
        }
        let hold = match self.locks.get(lock) {
            Some(hold) => *hold,
            None => return Results::refused(DosError::InvalidLock),
        };
        if hold.exclusive {
            return Results::refused(DosError::ObjectInUse);
        }
        if self.locks.reserve().is_err() {
            return Results::refused(DosError::NoFreeStore);
        }
        let number = self.locks.insert_reserved(hold);
        Results::counted(number, Body::Empty)
    }

    /// SAME_LOCK.
    pub(crate) fn same_lock(&self, first: u32, second: u32) -> Results
        ensures { (now : Moment) → MethodGives self.now (SameLock first second) now self.now result }
    {
        if self.died {
            return Results::refused(DosError::DeviceNotMounted);
        }
        let Some(one) = self.object_of(first) else {
            return Results::refused(DosError::InvalidLock);
        };
        let Some(other) = self.object_of(second) else {
            return Results::refused(DosError::InvalidLock);
        };
        Results {
            res1: if one == other { -1 } else { 0 },
            res2: 0,
            body: Body::Empty,
        }
    }

    /// PARENT. The parent of the root is `NO_LOCK`.
    pub(crate) fn parent(&mut self, lock: u32) -> Results
        ensures gives { (now : Moment) → MethodGives self.old (Parent lock) now self.new result }
        ensures room { MayTakeLock self.old.places self.new.places result }
    {
        if self.died {
            return Results::refused(DosError::DeviceNotMounted);
        }
        let Some(key) = self.object_of(lock) else {
            return Results::refused(DosError::InvalidLock);
        };
        let Some(dir) = self.volume.parent(key) else {
            return Results::counted(NO_LOCK, Body::Empty);
        };
        if self.is_held_exclusively(dir) {
            return Results::refused(DosError::ObjectInUse);
        }
        self.bring_lock(dir, false)
    }

    /// A new lock on an object, or `NoFreeStore` (103) if there was no place for it: no memory, or no number.
    fn bring_lock(&mut self, key: u32, exclusive: bool) -> Results
        requires key { HasKey self.old.image key }
        requires free { is_in_use self.old.session key exclusive ≡ false }
        ensures brings { BringsLock self.old.places.for_lock self.old.session key exclusive self.new.session result }
        ensures image { self.new.image ≡ self.old.image }
        ensures validated { self.new.was_validated ≡ self.old.was_validated }
        ensures room { MayTakeLock self.old.places self.new.places result }
    {
        if self.locks.reserve().is_err() {
            return Results::refused(DosError::NoFreeStore);
        }
        let number = self.locks.insert_reserved(LockHold { key, exclusive });
        Results::counted(number, Body::Empty)
    }
}

/// Whether the mode of LOCATE_OBJECT means an exclusive lock.
fn is_exclusive(mode: i32) -> bool
    ensures { result ≡ is_exclusive_mode mode }
{
    mode == -1
}
