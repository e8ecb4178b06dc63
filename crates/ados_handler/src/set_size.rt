//! SET_FILE_SIZE.

ghost use Rattle.std.specs.Prelude.{◌≡◌, MatchResult};
ghost use Rattle.ados_model.specs.Tree.{Tree, size_of};
ghost use Rattle.ados_model.specs.Stands.{Stands};
ghost use Rattle.ados_model.specs.Keys.{HasFileKey};
ghost use Rattle.ados_change.specs.NewBlocks.{KeepsRest};
ghost use Rattle.ados_model.specs.declared.packet.Packet.TheVariants.{SetFileSize};
ghost use Rattle.ados_handler.specs.steps.Methods.{MethodGives};
ghost use Rattle.ados_handler.specs.steps.Files.{IsResized, IsUnresized};

use crate::handler::Handler;
use crate::target::{number_within, target_of};
use ados_model::{Body, DosError, Full, Results};
use ados_name::Date3;
use ados_volume::Volume;

/// The largest size, in bytes, that SET_FILE_SIZE may set.
pub(crate) const LARGEST: u32 = 2_147_483_647;

impl Handler {
    /// SET_FILE_SIZE.
    pub(crate) fn set_file_size(
        &mut self,
        handle: u32,
        offset: i32,
        mode: i32,
        now: Date3,
    ) -> Results
        ensures gives { MethodGives self.old (SetFileSize handle offset mode) now self.new result }
        ensures places { self.new.places ≡ self.old.places }
    {
        if self.died {
            return Results::refused(DosError::DeviceNotMounted);
        }
        let Some(hold) = self.hold_of(handle) else {
            return Results::refused(DosError::InvalidLock);
        };
        if self.file_protection(hold.key).denies_write() {
            return Results::refused(DosError::WriteProtected);
        }
        let held = self.file_size(hold.key);
        let target = target_of(hold.position, held, offset, mode);
        let Some(size) = number_within(target, LARGEST) else {
            return Results::refused(DosError::SeekError);
        };
        match resize(&mut self.volume, hold.key, held, size, now) {
            Ok(()) => {}
            Err(Full) => return Results::refused(DosError::DiskFull),
        }
        self.handles.keep_within(hold.key, size);
        Results::done(Body::Empty)
    }
}

/// Cuts a file with `held` bytes to `size`, or appends zeros. If the sizes are equal, nothing changes.
fn resize(volume: &mut Volume, key: u32, held: u32, size: u32, moment: Date3) -> Result<(), Full>
    requires file { HasFileKey volume.old.image key }
    requires held { (t : Tree) → Stands volume.old.image t → held ≡ size_of t key }
    ensures done { MatchResult result (λ _. IsResized volume.old volume.new key size moment) (λ _. IsUnresized volume.old volume.new key size) }
    ensures keeps { KeepsRest volume.old.image volume.new.image }
    ensures same { (t : Tree) → Stands volume.old.image t → size ≡ size_of t key → volume.new.image ≡ volume.old.image }
    ensures validated { volume.new.was_validated ≡ volume.old.was_validated }
{
    if size == held {
        return Ok(());
    }
    if size < held {
        volume.cut(key, size, moment);
        return Ok(());
    }
    volume.grow(key, size, moment)
}
