//! Packets that change an object's metadata.

ghost use Rattle.std.specs.Prelude.{◌≡◌};
ghost use Rattle.ados_model.specs.declared.packet.Packet.TheVariants.{RenameDisk, SetComment, SetDate, SetProtect};
ghost use Rattle.ados_handler.specs.steps.Methods.{MethodGives};

use crate::handler::Handler;
use ados_model::{Body, DosError, Results};
use ados_name::{Comment, Date3, Name, PathText, Protect};

impl Handler {
    /// RENAME_DISK.
    pub(crate) fn rename_disk(&mut self, name: &PathText, now: Date3) -> Results
        ensures gives { MethodGives self.old (RenameDisk name.now) now self.new result }
        ensures places { self.new.places ≡ self.old.places }
    {
        if self.died {
            return Results::refused(DosError::DeviceNotMounted);
        }
        let name = match Name::new(name.bytes()) {
            Ok(name) => name,
            Err(_) => return Results::refused(DosError::InvalidComponentName),
        };
        self.volume.rename_disk(name, now);
        Results::done(Body::Empty)
    }

    /// SET_PROTECT.
    pub(crate) fn set_protect(
        &mut self,
        lock: u32,
        path: &PathText,
        bits: u32,
        now: Date3,
    ) -> Results
        ensures gives { MethodGives self.old (SetProtect lock path.now bits) now self.new result }
        ensures places { self.new.places ≡ self.old.places }
    {
        if self.died {
            return Results::refused(DosError::DeviceNotMounted);
        }
        let key = match self.walked(lock, path) {
            Ok(key) => key,
            Err(error) => return Results::refused(error),
        };
        if key == self.volume.root() {
            return Results::refused(DosError::ObjectWrongType);
        }
        self.volume.set_protect(key, Protect(bits), now);
        Results::done(Body::Empty)
    }

    /// SET_COMMENT.
    pub(crate) fn set_comment(
        &mut self,
        lock: u32,
        path: &PathText,
        comment: &PathText,
        now: Date3,
    ) -> Results
        ensures gives { MethodGives self.old (SetComment lock path.now comment.now) now self.new result }
        ensures places { self.new.places ≡ self.old.places }
    {
        if self.died {
            return Results::refused(DosError::DeviceNotMounted);
        }
        let key = match self.walked(lock, path) {
            Ok(key) => key,
            Err(error) => return Results::refused(error),
        };
        let comment = match Comment::new(comment.bytes()) {
            Ok(comment) => comment,
            Err(_) => return Results::refused(DosError::CommentTooBig),
        };
        if key == self.volume.root() {
            return Results::refused(DosError::ObjectWrongType);
        }
        self.volume.set_comment(key, comment, now);
        Results::done(Body::Empty)
    }

    /// SET_DATE.
    pub(crate) fn set_date(
        &mut self,
        lock: u32,
        path: &PathText,
        date: Date3,
        now: Date3,
    ) -> Results
        ensures gives { MethodGives self.old (SetDate lock path.now date) now self.new result }
        ensures places { self.new.places ≡ self.old.places }
    {
        if self.died {
            return Results::refused(DosError::DeviceNotMounted);
        }
        let key = match self.walked(lock, path) {
            Ok(key) => key,
            Err(error) => return Results::refused(error),
        };
        if key == self.volume.root() {
            return Results::refused(DosError::ObjectWrongType);
        }
        self.volume.set_date(key, date, now);
        Results::done(Body::Empty)
    }
}
