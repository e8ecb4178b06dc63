//! Refusals as a command prints them.

use ados_model::DosError;
use std::error::Error;
use std::fmt;

/// The error of a refused command, and the path that it is about. As text it is AmigaDOS's text for the error.
#[derive(Debug, Drop)]
pub struct Refused {
    pub error: DosError,
    pub path: String,
}

impl fmt::Display for Refused {
    fn fmt<W: fmt::Write>(&self, f: &mut fmt::Formatter<W>) -> fmt::Result {
        write!(f, "{}", error_words(self.error))
    }
}

impl Error for Refused {}

/// The text of AmigaDOS for an error.
pub fn error_words(error: DosError) -> &'static str {
    match error {
        DosError::NoFreeStore => "not enough memory available",
        DosError::ObjectInUse => "object is in use",
        DosError::ObjectExists => "object already exists",
        DosError::DirectoryNotFound => "directory not found",
        DosError::ObjectNotFound => "object not found",
        DosError::ActionNotKnown => "packet request type unknown",
        DosError::InvalidComponentName => "object name invalid",
        DosError::InvalidLock => "invalid object lock",
        DosError::ObjectWrongType => "object is not of required type",
        DosError::DirectoryNotEmpty => "directory not empty",
        DosError::DeviceNotMounted => "device (or volume) is not mounted",
        DosError::SeekError => "seek failure",
        DosError::CommentTooBig => "comment is too long",
        DosError::DiskFull => "disk is full",
        DosError::DeleteProtected => "object is protected from deletion",
        DosError::WriteProtected => "file is write protected",
        DosError::ReadProtected => "file is read protected",
        DosError::NotADosDisk => "not a valid DOS disk",
        DosError::NoMoreEntries => "no more entries in directory",
    }
}
