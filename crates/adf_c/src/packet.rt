//! The packets from C.

ghost use Rattle.std.specs.Prelude.{◌≡◌, IfOk};
ghost use Rattle.ados_name.specs.Path.{IsPathText};
ghost use Rattle.adf_c.specs.Spelling.{IsActionOf, packet_of};

use crate::texts::copied;
use crate::values::JipDate;
use ados_model::{Action, Buffer, Packet};
use std::alloc::{AllocError, Global};

/// A packet from C: the number of its action, one field for each kind of argument, and its time stamp. Only the fields
/// that the action uses are read.
///
/// The texts and bytes of the three pointers are passed separately, as slices; the pointers here are not used.
#[repr(C)]
#[derive(Drop)]
pub struct JipPacket {
    pub action: i32,
    pub lock: u32,
    /// The lock for the new place of RENAME_OBJECT, or the second lock of SAME_LOCK.
    pub to_lock: u32,
    pub handle: u32,
    pub key: u32,
    pub bits: u32,
    pub offset: i32,
    pub mode: i32,
    pub date: JipDate,
    pub moment: JipDate,
    /// A path, or the new name of RENAME_DISK.
    pub path: *const u8,
    pub path_length: usize,
    /// The path for the new place of RENAME_OBJECT, or a comment.
    pub text: *const u8,
    pub text_length: usize,
    /// The bytes that READ fills or WRITE writes.
    pub buffer: *mut u8,
    pub buffer_length: usize,
}

impl JipPacket {
    /// The action with the struct's number.
    pub(crate) fn kind(&self) -> Action
        ensures { IsActionOf self.now.action result }
    {
        action_of_number(self.action)
    }

    /// The packet for this action with the struct's arguments, these texts and these bytes, if there is memory for its
    /// texts.
    #[rattlefmt::skip]
    pub(crate) fn packet(
        &self,
        alloc: Global,
        action: Action,
        path: &[u8],
        text: &[u8],
        buffer: Buffer,
    ) -> Result<Packet, AllocError>
        requires path { IsPathText path.now }
        requires text { IsPathText text.now }
        ensures { IfOk result (λ packet. packet ≡ packet_of action self.now path.now text.now buffer) }
    {
        let (lock, handle, key) = (self.lock, self.handle, self.key);
        let (offset, mode) = (self.offset, self.mode);
        Ok(match action {
            Action::Die => Packet::Die,
            Action::FreeLock => Packet::FreeLock { lock },
            Action::CopyDir => Packet::CopyDir { lock },
            Action::ExamineObject => Packet::ExamineObject { lock },
            Action::ExamineNext => Packet::ExamineNext { lock, key },
            Action::DiskInfo => Packet::DiskInfo,
            Action::Info => Packet::Info { lock },
            Action::Parent => Packet::Parent { lock },
            Action::SameLock => Packet::SameLock { first: lock, second: self.to_lock },
            Action::Read => Packet::Read { handle, buffer },
            Action::Write => Packet::Write { handle, bytes: buffer },
            Action::End => Packet::End { handle },
            Action::Seek => Packet::Seek { handle, offset, mode },
            Action::SetFileSize => Packet::SetFileSize { handle, offset, mode },
            Action::Other(number) => Packet::Other { action: number },
            Action::RenameObject | Action::SetComment => {
                let path = copied(alloc, path)?;
                self.with_texts(action, path, copied(alloc, text)?)
            }
            Action::LocateObject | Action::RenameDisk | Action::DeleteObject | Action::SetProtect | Action::CreateDir
            | Action::SetDate | Action::FindUpdate | Action::FindInput | Action::FindOutput => {
                self.with_text(action, copied(alloc, path)?)
            }
        })
    }
}

/// The action with a number of the AmigaDOS Technical Reference, and `Other` for any other number.
fn action_of_number(number: i32) -> Action
    ensures { IsActionOf number result }
{
    match number {
        5 => Action::Die,
        8 => Action::LocateObject,
        9 => Action::RenameDisk,
        15 => Action::FreeLock,
        16 => Action::DeleteObject,
        17 => Action::RenameObject,
        19 => Action::CopyDir,
        21 => Action::SetProtect,
        22 => Action::CreateDir,
        23 => Action::ExamineObject,
        24 => Action::ExamineNext,
        25 => Action::DiskInfo,
        26 => Action::Info,
        28 => Action::SetComment,
        29 => Action::Parent,
        34 => Action::SetDate,
        40 => Action::SameLock,
        82 => Action::Read,
        87 => Action::Write,
        1004 => Action::FindUpdate,
        1005 => Action::FindInput,
        1006 => Action::FindOutput,
        1007 => Action::End,
        1008 => Action::Seek,
        1022 => Action::SetFileSize,
        _ => Action::Other(number),
    }
}
