//! The numbers of the errors, and the errors of paths that lead nowhere.
ghost use Rattle.std.specs.Prelude.{◌≡◌, pos};
ghost use Rattle.ados_model.specs.Packet.{error_number};
ghost use Rattle.ados_model.specs.Objects.{place_error, walk_error};

use crate::dos_error::{DosError, PlaceFault, WalkFault};

impl DosError {
    /// The number of the error: the second result of an answer.
    pub fn number(self) -> i32
        ensures { result ≡ pos (error_number self) }
    {
        match self {
            DosError::NoFreeStore => 103,
            DosError::ObjectInUse => 202,
            DosError::ObjectExists => 203,
            DosError::DirectoryNotFound => 204,
            DosError::ObjectNotFound => 205,
            DosError::ActionNotKnown => 209,
            DosError::InvalidComponentName => 210,
            DosError::InvalidLock => 211,
            DosError::ObjectWrongType => 212,
            DosError::DirectoryNotEmpty => 216,
            DosError::DeviceNotMounted => 218,
            DosError::SeekError => 219,
            DosError::CommentTooBig => 220,
            DosError::DiskFull => 221,
            DosError::DeleteProtected => 222,
            DosError::WriteProtected => 223,
            DosError::ReadProtected => 224,
            DosError::NotADosDisk => 225,
            DosError::NoMoreEntries => 232,
        }
    }
}

impl WalkFault {
    /// The DOS error of a walk that finds no object.
    pub fn error(self) -> DosError
        ensures { result ≡ walk_error self }
    {
        match self {
            WalkFault::DirectoryNotFound => DosError::DirectoryNotFound,
            WalkFault::ObjectNotFound => DosError::ObjectNotFound,
            WalkFault::WrongType => DosError::ObjectWrongType,
        }
    }
}

impl PlaceFault {
    /// The DOS error of a path without a place.
    pub fn error(self) -> DosError
        ensures { result ≡ place_error self }
    {
        match self {
            PlaceFault::DirectoryNotFound => DosError::DirectoryNotFound,
            PlaceFault::ObjectNotFound => DosError::ObjectNotFound,
            PlaceFault::WrongType => DosError::ObjectWrongType,
            PlaceFault::InvalidName => DosError::InvalidComponentName,
        }
    }
}
