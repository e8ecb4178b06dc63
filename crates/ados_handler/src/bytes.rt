//! Packets that read, write and seek in the file of a handle.

ghost use Rattle.std.specs.Prelude.{◌≡◌};
ghost use Rattle.ados_name.specs.declared.stamp.Date3.{Date3 as Moment};
ghost use Rattle.ados_model.specs.declared.packet.Packet.TheVariants.{Read, Seek, Write};
ghost use Rattle.ados_handler.specs.steps.Methods.{MethodGives};

use crate::handler::Handler;
use crate::target::{number_within, target_of};
use ados_model::{Body, Buffer, DosError, Results};
use ados_name::Date3;

impl Handler {
    /// SEEK. The result is the old position.
    pub(crate) fn seek(&mut self, handle: u32, offset: i32, mode: i32) -> Results
        ensures gives { (now : Moment) → MethodGives self.old (Seek handle offset mode) now self.new result }
        ensures places { self.new.places ≡ self.old.places }
    {
        if self.died {
            return Results::failed(DosError::DeviceNotMounted, Body::Empty);
        }
        let Some(hold) = self.hold_of(handle) else {
            return Results::failed(DosError::InvalidLock, Body::Empty);
        };
        let size = self.file_size(hold.key);
        let target = target_of(hold.position, size, offset, mode);
        let Some(position) = number_within(target, size) else {
            return Results::failed(DosError::SeekError, Body::Empty);
        };
        self.handles.set_position(handle, position);
        Results::counted(hold.position, Body::Empty)
    }

    /// READ.
    pub(crate) fn read(&mut self, handle: u32, buffer: Buffer) -> Results
        ensures gives { (now : Moment) → MethodGives self.old (Read handle buffer) now self.new result }
        ensures places { self.new.places ≡ self.old.places }
    {
        if self.died {
            return Results::failed(DosError::DeviceNotMounted, Body::Buffer(buffer));
        }
        let Some(hold) = self.hold_of(handle) else {
            return Results::failed(DosError::InvalidLock, Body::Buffer(buffer));
        };
        if self.file_protection(hold.key).denies_read() {
            return Results::failed(DosError::ReadProtected, Body::Buffer(buffer));
        }
        let mut bytes = buffer.into_vec();
        let length = self
            .volume
            .read_on(hold.key, hold.position as u64, &mut bytes);
        let count = length as u32;
        let end = hold.position + count;
        self.handles.set_position(handle, end);
        Results::counted(count, Body::Buffer(Buffer::from_vec(bytes)))
    }

    /// WRITE. It writes all of the bytes, or none.
    pub(crate) fn write(&mut self, handle: u32, bytes: Buffer, now: Date3) -> Results
        ensures gives { MethodGives self.old (Write handle bytes) now self.new result }
        ensures places { self.new.places ≡ self.old.places }
    {
        if self.died {
            return Results::failed(DosError::DeviceNotMounted, Body::Buffer(bytes));
        }
        let Some(hold) = self.hold_of(handle) else {
            return Results::failed(DosError::InvalidLock, Body::Buffer(bytes));
        };
        if self.file_protection(hold.key).denies_write() {
            return Results::failed(DosError::WriteProtected, Body::Buffer(bytes));
        }
        let shown = bytes.bytes();
        let written = self
            .volume
            .write(hold.key, hold.position as u64, shown, now);
        let Ok(()) = written else {
            return Results::failed(DosError::DiskFull, Body::Buffer(bytes));
        };
        let count = shown.len() as u32;
        let after = hold.position + count;
        self.handles.set_position(handle, after);
        Results::counted(count, Body::Buffer(bytes))
    }
}
