//! Why something is not written below a directory.
ghost use Rattle.std.specs.Prelude.{◌≡◌};

use crate::trees::items::{HostItem, spelled_path};
use crate::{ReplaceFault, WriteReason};
use adf_text::Grouped;
use std::alloc::{AllocError, AllocFailed, Global};
use std::fmt::{Display, Formatter};
use std::io::Error;
use std::{error, fmt};

/// Why the items were not written, and the path.
#[derive(Debug, Drop)]
pub struct WriteFault {
    pub path: String,
    pub why: WriteWhy,
    /// The number of items that were written. It is 0 for a refusal.
    pub written: usize,
}

impl Display for WriteFault {
    fn fmt<W: fmt::Write>(&self, f: &mut Formatter<W>) -> fmt::Result {
        if self.why.is_of_writing() {
            write!(f, "cannot write '{}': {}", self.path.as_str(), self.why)?;
        } else {
            write!(f, "'{}' {}", self.path.as_str(), self.why)?;
        }
        match self.written {
            0 => Ok(()),
            1 => write!(f, "; one file or directory was written before it"),
            many => write!(
                f,
                "; {} files and directories were written before it",
                Grouped(many as u64)
            ),
        }
    }
}

impl error::Error for WriteFault {}

/// Why something is not written, as the end of a sentence: `'NAME' WHY`, or `cannot write 'NAME': WHY`.
#[derive(Clone, Copy, Debug)]
pub enum WriteWhy {
    Exists,
    Link,
    Directory,
    NoDirectory,
    NoFile,
    Twice,
    Long,
    Moved,
    Host(Error),
    Replace(ReplaceFault),
    Memory,
}

impl WriteWhy {
    /// Whether writing failed. Otherwise something is in the way.
    fn is_of_writing(self) -> bool {
        matches!(
            self,
            WriteWhy::Moved | WriteWhy::Host(_) | WriteWhy::Replace(_) | WriteWhy::Memory
        )
    }
}

impl Display for WriteWhy {
    fn fmt<W: fmt::Write>(&self, f: &mut Formatter<W>) -> fmt::Result {
        match self {
            WriteWhy::Exists => write!(f, "already exists"),
            WriteWhy::Link => write!(f, "is a symbolic link"),
            WriteWhy::Directory => write!(f, "is a directory"),
            WriteWhy::NoDirectory => write!(f, "is no directory"),
            WriteWhy::NoFile => write!(f, "is no regular file"),
            WriteWhy::Twice => write!(f, "would be written twice"),
            WriteWhy::Long => write!(f, "is longer than the 4,095 bytes that a path may have"),
            WriteWhy::Moved => write!(f, "another directory has taken its place"),
            WriteWhy::Host(error) => write!(f, "{}", WriteReason(*error)),
            WriteWhy::Replace(fault) => write!(f, "{fault}"),
            WriteWhy::Memory => write!(f, "there is not enough memory"),
        }
    }
}

impl error::Error for WriteWhy {}

impl From<Error> for WriteWhy {
    fn from(error: Error) -> WriteWhy {
        WriteWhy::Host(error)
    }
}

impl From<AllocError> for WriteWhy {
    fn from(_error: AllocError) -> WriteWhy {
        WriteWhy::Memory
    }
}

/// Why an item is not written: the place of the item, or `None` for the top.
#[derive(Clone, Copy)]
pub(crate) struct ItemFault {
    pub(crate) place: Option<usize>,
    pub(crate) why: WriteWhy,
}

impl ItemFault {
    /// The fault with the path of the item, and the number of items that were written.
    pub(crate) fn told(
        self,
        alloc: Global,
        directory: &str,
        items: &[HostItem],
        written: usize,
    ) -> WriteFault
        ensures { result.written ≡ written }
    {
        match spelled_path(alloc, directory, items, self.place) {
            Ok(path) => WriteFault {
                path,
                why: self.why,
                written,
            },
            Err(_) => WriteFault {
                path: String::new(alloc),
                why: WriteWhy::Memory,
                written,
            },
        }
    }
}

impl From<AllocError> for ItemFault {
    fn from(_error: AllocError) -> ItemFault {
        ItemFault {
            place: None,
            why: WriteWhy::Memory,
        }
    }
}

impl<T: Drop> From<AllocFailed<T>> for ItemFault {
    fn from(_error: AllocFailed<T>) -> ItemFault {
        ItemFault {
            place: None,
            why: WriteWhy::Memory,
        }
    }
}
