//! The packet that moves entries.

ghost use Rattle.std.specs.Prelude.{◌≡◌, IfOk};
ghost use Rattle.ados_model.specs.declared.packet.Packet.TheVariants.{RenameObject};
ghost use Rattle.ados_model.specs.Tree.{Tree};
ghost use Rattle.ados_model.specs.Stands.{Stands};
ghost use Rattle.ados_model.specs.Keys.{HasDirectory, HasKey};
ghost use Rattle.ados_handler.specs.steps.Moves.{move_refusal, source_and_place};
ghost use Rattle.ados_handler.specs.steps.Methods.{MethodGives};

use crate::handler::Handler;
use ados_model::{Body, DosError, Results};
use ados_name::{Date3, Name, PathText};
use ados_volume::move_refusal;

impl Handler {
    /// RENAME_OBJECT. Protection bits do not refuse it.
    pub(crate) fn rename_object(
        &mut self,
        from_lock: u32,
        from: &PathText,
        to_lock: u32,
        to: &PathText,
        now: Date3,
    ) -> Results
        ensures gives { MethodGives self.old (RenameObject from_lock from.now to_lock to.now) now self.new result }
        ensures places { self.new.places ≡ self.old.places }
    {
        if self.died {
            return Results::refused(DosError::DeviceNotMounted);
        }
        let (key, (dir, name)) = match self.source_and_place(from_lock, from, to_lock, to) {
            Ok(found) => found,
            Err(error) => return Results::refused(error),
        };
        if let Some(error) = self.move_refusal(key, dir, &name) {
            return Results::refused(error);
        }
        prove!(to.bytes().len() <= PathText::MAX_LEN);
        self.volume.rename(key, dir, name, now);
        Results::done(Body::Empty)
    }

    /// The object to move, and its new directory and name; or the DOS error.
    pub(crate) fn source_and_place(
        &mut self,
        from_lock: u32,
        from: &PathText,
        to_lock: u32,
        to: &PathText,
    ) -> Result<(u32, (u32, Name)), DosError>
        ensures found { (t : Tree) → Stands self.old.image t → result ≡ source_and_place t self.old.session from_lock from.now to_lock to.now }
        ensures key { IfOk result (λ found. HasKey self.old.image found.0) }
        ensures directory { IfOk result (λ found. HasDirectory self.old.image found.1.0) }
        ensures same { self.new ≡ self.old }
    {
        if self.object_of(from_lock).is_none() || self.object_of(to_lock).is_none() {
            return Err(DosError::InvalidLock);
        }
        let key = self.walked(from_lock, from)?;
        let place = self.placed(to_lock, to)?;
        Ok((key, place))
    }

    /// The DOS error that refuses a move of an object into a directory under a name, or none.
    pub(crate) fn move_refusal(&mut self, key: u32, dir: u32, name: &Name) -> Option<DosError>
        requires key { HasKey self.old.image key }
        requires directory { HasDirectory self.old.image dir }
        ensures refusal { (t : Tree) → Stands self.old.image t → result ≡ move_refusal t self.old.session key dir name.now }
        ensures same { self.new ≡ self.old }
    {
        let held = self.is_held_exclusively(key);
        move_refusal(&mut self.volume, key, dir, name, held)
    }
}
