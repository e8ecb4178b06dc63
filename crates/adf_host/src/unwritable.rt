//! Why a file of the host cannot be written.
use crate::host_words::HostWords;
use std::fmt;
use std::io::{Error, ErrorKind};

/// Why a file cannot be written, as the end of a sentence: `cannot write 'NAME': REASON`.
#[derive(Clone, Copy)]
pub struct WriteReason(pub Error);

impl fmt::Display for WriteReason {
    fn fmt<W: fmt::Write>(&self, f: &mut fmt::Formatter<W>) -> fmt::Result {
        match self.0.kind() {
            ErrorKind::NotFound => write!(f, "no such directory"),
            ErrorKind::NotADirectory => write!(f, "a part of the path is no directory"),
            ErrorKind::IsADirectory => write!(f, "is a directory"),
            ErrorKind::PermissionDenied => write!(f, "permission denied"),
            ErrorKind::StorageFull => write!(f, "the disk is full"),
            ErrorKind::ReadOnlyFilesystem => write!(f, "the disk can only be read"),
            _ => write!(f, "{}", HostWords(self.0)),
        }
    }
}
