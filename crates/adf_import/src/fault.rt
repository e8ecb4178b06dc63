//! Why a change was not made.

ghost use Rattle.adf_import.specs.Words.{IsRefusal};

use crate::name_why::NameWhy;
use adf_cli::Refused;
use adf_host::{ReadReason, WalkFault};
use adf_record::{BundleFault, Grouped};
use ados_model::DosError;
use std::alloc::{AllocError, AllocFailed, Global};
use thiserror::Error;

/// Why a change was not made. The volume may be changed in part, so its image must not be written.
#[derive(Drop)]
pub enum InFault {
    /// Any error of AmigaDOS other than 221.
    Refused(Refused),
    /// Error 221: a file or directory needs this many more blocks, and this many are free.
    NoRoom {
        path: String,
        needed: u64,
        free: u32,
    },
    /// Error 210: the name of a file of the host is no name of an entry.
    HostName {
        path: String,
        name: String,
        why: NameWhy,
    },
    /// Error 203: two files of the host have one name on an Amiga.
    Twins {
        path: String,
        other: String,
    },
    /// An argument has a letter past U+00FF.
    Letter(String),
    /// An argument is no word for protection bits.
    Bits(String),
    /// What is to be put in cannot be used.
    Source(SourceFault),
    Memory,
}

/// Why what is to be put into a volume cannot be used.
#[derive(Debug, Drop, Error)]
pub enum SourceFault {
    /// The walk over files of the host failed.
    #[error("{0}")]
    Walk(WalkFault),
    #[error("standard input cannot be read")]
    Input,
    #[error("cannot read '{path}': {reason}")]
    Read { path: String, reason: ReadReason },
    #[error("'{path}' {why}")]
    File { path: String, why: FileWhy },
    #[error("'{path}' {fault}")]
    Description { path: String, fault: BundleFault },
    /// What was made is not what the bundle describes.
    #[error("volume.json lists its entries in an order that no disk has")]
    Unlike,
    #[error("{0}")]
    Volume(WrongVolume),
}

/// Why a file of the host cannot be used, as the end of a sentence: `'PATH' WHY`. The last five are about its note.
#[derive(Clone, Copy, Debug, Error)]
pub enum FileWhy {
    #[error("is not added: --as takes one regular file, and no .uaem file")]
    NotOneFile,
    #[error("is no regular file")]
    NoFile,
    #[error("is a link or a file, and no directory")]
    NoDirectory,
    #[error("has {} bytes, and the description says {}", Grouped(*.found), Grouped(u64::from(*.told)))]
    Size { found: u64, told: u32 },
    #[error("is in the description twice")]
    Twice,
    #[error("is not UTF-8")]
    NotUtf8,
    #[error("has a letter that no byte stands for")]
    NoByte,
    #[error("has more than one line, or a letter without a picture")]
    Control,
    #[error("does not begin with eight protection letters and a space")]
    NoProtection,
    #[error("has no date after the protection letters")]
    NoDate,
}

/// Why a bundle cannot be put into the volume of an image.
#[derive(Clone, Copy, Debug, Error)]
pub enum WrongVolume {
    #[error("its volume is not empty, and a bundle makes a whole volume")]
    NotEmpty,
    #[error("its volume is of another kind or size: the bundle needs {kind} with {} blocks", Grouped(u64::from(*.blocks)))]
    Other { kind: &'static str, blocks: u32 },
}

impl From<AllocError> for InFault {
    ghost use Rattle.std.specs.Prelude.{◌≡◌};
    ghost use Rattle.adf_import.specs.declared.fault.InFault.TheVariants.{Memory};

    ghost from_gives = { λ _ fault. fault ≡ Memory };

    fn from(_error: AllocError) -> InFault {
        InFault::Memory
    }
}

impl<T: Drop> From<AllocFailed<T>> for InFault {
    ghost use Rattle.std.specs.Prelude.{◌≡◌};
    ghost use Rattle.adf_import.specs.declared.fault.InFault.TheVariants.{Memory};

    ghost from_gives = { λ _ fault. fault ≡ Memory };

    fn from(_error: AllocFailed<T>) -> InFault {
        InFault::Memory
    }
}

impl From<WalkFault> for InFault {
    fn from(fault: WalkFault) -> InFault {
        match fault {
            WalkFault::Memory => InFault::Memory,
            other => InFault::Source(SourceFault::Walk(other)),
        }
    }
}

/// An error of AmigaDOS, with a path.
pub(crate) fn refused(alloc: Global, path: &str, error: DosError) -> InFault
    ensures { IsRefusal error path.now result }
{
    if error == DosError::NoFreeStore {
        return InFault::Memory;
    }
    match String::from_str(alloc, path) {
        Ok(path) => InFault::Refused(Refused { error, path }),
        Err(_) => InFault::Memory,
    }
}

/// The fault of a file of the host that cannot be used.
pub(crate) fn unusable(alloc: Global, path: &str, why: FileWhy) -> InFault {
    match String::from_str(alloc, path) {
        Ok(path) => InFault::Source(SourceFault::File { path, why }),
        Err(_) => InFault::Memory,
    }
}
