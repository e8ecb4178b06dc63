//! Packets that describe the volume or an object.

ghost use Rattle.std.specs.Prelude.{◌≡◌};
ghost use Rattle.ados_name.specs.declared.stamp.Date3.{Date3 as Moment};
ghost use Rattle.ados_model.specs.Tree.{Tree};
ghost use Rattle.ados_model.specs.Stands.{Stands};
ghost use Rattle.ados_model.specs.Change.{entries_after};
ghost use Rattle.ados_model.specs.Keys.{HasDirectory};
ghost use Rattle.ados_chain.specs.Look.{first_left};
ghost use Rattle.ados_model.specs.declared.packet.Packet.TheVariants.{DiskInfo, ExamineNext, ExamineObject, Info};
ghost use Rattle.ados_handler.specs.steps.Methods.{MethodGives};

use crate::handler::Handler;
use ados_model::{Body, DosError, Results};
use ados_volume::Next;

impl Handler {
    /// DISK_INFO.
    pub(crate) fn disk_info(&self) -> Results
        ensures { (now : Moment) → MethodGives self.now DiskInfo now self.now result }
    {
        if self.died {
            return Results::refused(DosError::DeviceNotMounted);
        }
        Results::done(Body::Disk(self.volume.info()))
    }

    /// INFO.
    pub(crate) fn info(&self, lock: u32) -> Results
        ensures { (now : Moment) → MethodGives self.now (Info lock) now self.now result }
    {
        if self.died {
            return Results::refused(DosError::DeviceNotMounted);
        }
        if self.object_of(lock).is_none() {
            return Results::refused(DosError::InvalidLock);
        }
        Results::done(Body::Disk(self.volume.info()))
    }

    /// EXAMINE_OBJECT.
    pub(crate) fn examine_object(&self, lock: u32) -> Results
        ensures { (now : Moment) → MethodGives self.now (ExamineObject lock) now self.now result }
    {
        if self.died {
            return Results::refused(DosError::DeviceNotMounted);
        }
        let Some(key) = self.object_of(lock) else {
            return Results::refused(DosError::InvalidLock);
        };
        Results::done(Body::Entry(self.volume.examine(key)))
    }

    /// EXAMINE_NEXT.
    pub(crate) fn examine_next(&mut self, lock: u32, key: u32) -> Results
        ensures gives { (now : Moment) → MethodGives self.old (ExamineNext lock key) now self.new result }
        ensures places { self.new.places ≡ self.old.places }
    {
        if self.died {
            return Results::refused(DosError::DeviceNotMounted);
        }
        let Some(dir) = self.object_of(lock) else {
            return Results::refused(DosError::InvalidLock);
        };
        if self.volume.is_file(dir) {
            return Results::refused(DosError::ObjectWrongType);
        }
        let next = match self.entry_after(dir, key) {
            Next::NotAnEntry => return Results::refused(DosError::ObjectNotFound),
            Next::End => return Results::refused(DosError::NoMoreEntries),
            Next::Entry(next) => next,
        };
        Results::done(Body::Entry(self.volume.examine(next)))
    }

    /// What follows a key in the order of a directory. The volume remembers an entry as the one listed last.
    fn entry_after(&mut self, dir: u32, key: u32) -> Next
        requires { HasDirectory self.old.image dir }
        ensures next { (t : Tree) → Stands self.old.image t → result ≡ first_left (entries_after t dir key) }
        ensures same { self.new ≡ self.old }
    {
        self.volume.tell_next(dir, key)
    }
}
