//! Packets that open and close files.

ghost use Rattle.std.specs.Prelude.{◌≡◌, pos, IsTrue};
ghost use Rattle.ados_name.specs.declared.stamp.Date3.{Date3 as Moment};
ghost use Rattle.ados_model.specs.Keys.{HasKey};
ghost use Rattle.ados_model.specs.declared.packet.Packet.TheVariants.{End, FindInput};
ghost use Rattle.ados_handler.specs.steps.Methods.{MethodGives};
ghost use Rattle.ados_handler.specs.steps.Opening.{BringsHandle, OpensShared};
ghost use Rattle.ados_handler.specs.steps.Places.{FreesHandle, MayTakeHandle};

use crate::handler::Handler;
use crate::table::Table;
use ados_model::{Body, DosError, HandleHold, Results};
use ados_name::PathText;

impl Handler {
    /// FINDINPUT.
    pub(crate) fn find_input(&mut self, lock: u32, path: &PathText) -> Results
        ensures gives { (now : Moment) → MethodGives self.old (FindInput lock path.now) now self.new result }
        ensures room { MayTakeHandle self.old.places self.new.places result }
    {
        if self.died {
            return Results::refused(DosError::DeviceNotMounted);
        }
        match self.walked(lock, path) {
            Ok(key) => self.open_file(key),
            Err(error) => Results::refused(error),
        }
    }

    /// A shared handle on an existing file.
    pub(crate) fn open_file(&mut self, key: u32) -> Results
        requires { HasKey self.old.image key }
        ensures opens { OpensShared key self.old self.new result }
        ensures image { self.new.image ≡ self.old.image }
        ensures room { MayTakeHandle self.old.places self.new.places result }
    {
        if !self.volume.is_file(key) {
            return Results::refused(DosError::ObjectWrongType);
        }
        if self.is_in_use(key, false) {
            return Results::refused(DosError::ObjectInUse);
        }
        if self.handles.reserve().is_err() {
            return Results::refused(DosError::NoFreeStore);
        }
        opened(&mut self.handles, key, false)
    }

    /// END.
    pub(crate) fn end_handle(&mut self, handle: u32) -> Results
        ensures gives { (now : Moment) → MethodGives self.old (End handle) now self.new result }
        ensures room { FreesHandle self.old.places self.new.places result }
    {
        if self.died {
            return Results::refused(DosError::DeviceNotMounted);
        }
        if self.handles.get(handle).is_none() {
            return Results::refused(DosError::InvalidLock);
        }
        let _ = self.handles.remove(handle);
        Results::done(Body::Empty)
    }
}

/// The results with a new handle at the start of a file. The place for it is reserved.
pub(crate) fn opened(handles: &mut Table<HandleHold>, key: u32, exclusive: bool) -> Results
    requires { IsTrue handles.old.ready }
    ensures brings { BringsHandle key exclusive handles.old.held handles.new.held result }
    ensures served { result.res2 ≡ pos 0 }
{
    let number = handles.insert_reserved(HandleHold {
        key,
        position: 0,
        exclusive,
    });
    Results::done(Body::Handle(number))
}
