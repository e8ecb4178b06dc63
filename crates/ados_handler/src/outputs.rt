//! Packets that open files for writing.

ghost use Rattle.std.specs.Prelude.{◌≡◌, None};
ghost use Rattle.ados_model.specs.Tree.{Tree};
ghost use Rattle.ados_model.specs.Keys.{HasDirectory, HasKey};
ghost use Rattle.ados_model.specs.Stands.{Stands};
ghost use Rattle.ados_model.specs.Change.{child_of};
ghost use Rattle.ados_model.specs.declared.packet.Packet.TheVariants.{FindOutput, FindUpdate};
ghost use Rattle.ados_handler.specs.steps.Methods.{MethodGives};
ghost use Rattle.ados_handler.specs.steps.Opening.{Opens, OpensEmptied, make_refusals};
ghost use Rattle.ados_handler.specs.steps.Places.{MayTakeHandle};
ghost use Rattle.ados_model.specs.Success.{MakesFile};

use crate::files::opened;
use crate::handler::Handler;
use ados_model::{DosError, Results};
use ados_name::{Date3, Name, PathText};
use ados_volume::NodeKind;

impl Handler {
    /// FINDUPDATE.
    pub(crate) fn find_update(&mut self, lock: u32, path: &PathText, now: Date3) -> Results
        ensures gives { MethodGives self.old (FindUpdate lock path.now) now self.new result }
        ensures room { MayTakeHandle self.old.places self.new.places result }
    {
        if self.died {
            return Results::refused(DosError::DeviceNotMounted);
        }
        let (dir, name) = match self.placed(lock, path) {
            Ok(found) => found,
            Err(error) => return Results::refused(error),
        };
        match self.volume.child(dir, &name) {
            Some(key) => self.open_file(key),
            None => self.make_file(dir, name, false, now),
        }
    }

    /// FINDOUTPUT.
    pub(crate) fn find_output(&mut self, lock: u32, path: &PathText, now: Date3) -> Results
        ensures gives { MethodGives self.old (FindOutput lock path.now) now self.new result }
        ensures room { MayTakeHandle self.old.places self.new.places result }
    {
        if self.died {
            return Results::refused(DosError::DeviceNotMounted);
        }
        let (dir, name) = match self.placed(lock, path) {
            Ok(found) => found,
            Err(error) => return Results::refused(error),
        };
        match self.volume.child(dir, &name) {
            Some(key) => self.empty_file(key, now),
            None => self.make_file(dir, name, true, now),
        }
    }

    /// An exclusive handle on an existing file, which is emptied.
    fn empty_file(&mut self, key: u32, now: Date3) -> Results
        requires { HasKey self.old.image key }
        ensures opens { OpensEmptied key now self.old self.new result }
        ensures room { MayTakeHandle self.old.places self.new.places result }
    {
        if !self.volume.is_file(key) {
            return Results::refused(DosError::ObjectWrongType);
        }
        if self.is_in_use(key, true) {
            return Results::refused(DosError::ObjectInUse);
        }
        let protection = self.file_protection(key);
        if protection.denies_delete() {
            return Results::refused(DosError::DeleteProtected);
        }
        if protection.denies_write() {
            return Results::refused(DosError::WriteProtected);
        }
        if self.handles.reserve().is_err() {
            return Results::refused(DosError::NoFreeStore);
        }
        self.volume.cut(key, 0, now);
        opened(&mut self.handles, key, true)
    }

    /// A handle on a new file. Its directory has no entry with this name.
    fn make_file(&mut self, dir: u32, name: Name, exclusive: bool, now: Date3) -> Results
        requires directory { HasDirectory self.old.image dir }
        requires new_name { (t : Tree) → Stands self.old.image t → child_of t dir name ≡ None }
        ensures opens { Opens make_refusals (λ t left. MakesFile t self.old.session dir name exclusive now left) self.old self.new result }
        ensures room { MayTakeHandle self.old.places self.new.places result }
    {
        if !self.has_room() {
            return Results::refused(DosError::DiskFull);
        }
        if self.handles.reserve().is_err() {
            return Results::refused(DosError::NoFreeStore);
        }
        let Ok(key) = self.volume.create(dir, name, NodeKind::File, now) else {
            unreachable!()
        };
        opened(&mut self.handles, key, exclusive)
    }
}
