//! The packets.

use crate::{Buffer, Text};
use ados_name::Date3;

/// The number for no lock. It means the root of the disk (ZERO in the AmigaDOS Technical Reference).
pub const NO_LOCK: u32 = 0;

/// A packet with the arguments of its action. Actions have the names and numbers of the AmigaDOS Technical Reference.
/// A `lock` of `NO_LOCK` means the root. A path starts at the object of the lock before it. An offset counts from the
/// beginning of the file in mode -1, from the position in mode 0, and from the end in mode 1.
#[derive(Drop)]
#[rattlefmt::skip]
pub enum Packet {
    Die, // 5: the handler takes no more packets.
    LocateObject { lock: u32, path: Text, mode: i32 }, // 8: a lock on an object, exclusive in mode -1, else shared.
    RenameDisk { name: Text }, // 9: a new name for the volume.
    FreeLock { lock: u32 }, // 15: frees the lock.
    DeleteObject { lock: u32, path: Text }, // 16: deletes a file or an empty directory.
    RenameObject { from_lock: u32, from: Text, to_lock: u32, to: Text }, // 17: another name or directory.
    CopyDir { lock: u32 }, // 19: one more shared lock on the object of a lock.
    SetProtect { lock: u32, path: Text, bits: u32 }, // 21: sets the protection bits of an object.
    CreateDir { lock: u32, path: Text }, // 22: makes a directory, and a lock on it.
    ExamineObject { lock: u32 }, // 23: describes the object of a lock.
    ExamineNext { lock: u32, key: u32 }, // 24: describes the entry after this key. The directory's own key is first.
    DiskInfo, // 25: describes the volume.
    Info { lock: u32 }, // 26: describes the volume of a lock.
    SetComment { lock: u32, path: Text, comment: Text }, // 28: sets the comment of an object.
    Parent { lock: u32 }, // 29: a shared lock on the directory that holds the object of a lock.
    SetDate { lock: u32, path: Text, date: Date3 }, // 34: sets the date of an object.
    SameLock { first: u32, second: u32 }, // 40: whether two locks are on the same object.
    Read { handle: u32, buffer: Buffer }, // 82: reads bytes of a file, from the position of a handle.
    Write { handle: u32, bytes: Buffer }, // 87: writes bytes to a file, from the position of a handle.
    FindUpdate { lock: u32, path: Text }, // 1004: a shared handle on a file. A missing file is made.
    FindInput { lock: u32, path: Text }, // 1005: a shared handle on an existing file.
    FindOutput { lock: u32, path: Text }, // 1006: an exclusive handle on a file, which is made or emptied.
    End { handle: u32 }, // 1007: closes the handle.
    Seek { handle: u32, offset: i32, mode: i32 }, // 1008: moves the position.
    SetFileSize { handle: u32, offset: i32, mode: i32 }, // 1022: sets the size of a file.
    Other { action: i32 }, // Another action, by its number.
}
