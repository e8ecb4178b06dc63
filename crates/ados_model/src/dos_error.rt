//! The errors of AmigaDOS that a handler returns, and why a path leads to no object.

/// Why a packet is refused. The names are those of the AmigaDOS manual.
#[derive(Clone, Copy, Debug, PartialEq, Eq)]
pub enum DosError {
    NoFreeStore, // 103: out of memory, or no free number for a lock or handle.
    ObjectInUse, // 202: a lock or handle on the object is in the way.
    ObjectExists, // 203: an object of this name exists.
    DirectoryNotFound, // 204: a directory of the path does not exist.
    ObjectNotFound, // 205: the object does not exist.
    ActionNotKnown, // 209: the action is not served.
    InvalidComponentName, // 210: a text is not a name.
    InvalidLock, // 211: no lock or handle has this number.
    ObjectWrongType, // 212: a file in place of a directory; or a directory or the root where none is allowed.
    DirectoryNotEmpty, // 216: the directory has entries.
    DeviceNotMounted, // 218: the handler has died.
    SeekError, // 219: the position is outside the file, or the mode is unknown.
    CommentTooBig, // 220: a comment is longer than 79 bytes.
    DiskFull, // 221: fewer blocks are free than needed.
    DeleteProtected, // 222: a protection bit denies the deletion.
    WriteProtected, // 223: a protection bit denies writing.
    ReadProtected, // 224: a protection bit denies reading.
    NotADosDisk, // 225: the first bytes of the disk name no file system.
    NoMoreEntries, // 232: the directory has no more entries.
}

/// Why a walk along a path finds no object.
#[derive(Clone, Copy, PartialEq, Eq)]
pub enum WalkFault {
    DirectoryNotFound, // A directory before the last component does not exist. DOS error 204.
    ObjectNotFound, // The object does not exist, or the path goes above the root. DOS error 205.
    WrongType, // A component before the end is a file. DOS error 212.
}

/// Why a path names no place for an entry.
#[derive(Clone, Copy, PartialEq, Eq)]
pub enum PlaceFault {
    DirectoryNotFound, // A directory before the last name does not exist. DOS error 204.
    ObjectNotFound, // The path goes above the root. DOS error 205.
    WrongType, // A component before the last name is a file. DOS error 212.
    InvalidName, // The last name is empty or longer than 30 bytes. DOS error 210.
}
