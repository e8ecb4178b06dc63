//! Why a command fails.
ghost use Rattle.std.specs.Prelude.{◌≡◌, IfOk, option_map};
ghost use Rattle.adf_serve.specs.Faults.{IsNoImage, IsNoImageRefusal, IsUnreadFile, status_of};
ghost use Rattle.adf_serve.specs.Refusals.{told_line};

use crate::refusal::{Detail, DosRefusal, Refusal, Room};
use adf_archive::ArchiveFault;
use adf_cli::Refused;
use adf_export::{BundleOutFault, OutFault};
use adf_host::{HoldFault, ReadReason, ReplaceFault, WriteFault, why_unreadable};
use adf_import::{InFault, SourceFault, WrongVolume};
use adf_io::{InputFault, PrintFault};
use adf_record::Grouped;
use adf_rescue::UndeleteFault;
use ados_model::DosError;
use ados_run::ScriptsFault;
use ados_validate::NotValidated;
use ados_volume::VolumeFault;
use std::alloc::{AllocError, Global};
use std::fmt;
use std::rt::Files;
use thiserror::Error;

/// Why a command fails, with the message that is printed.
#[derive(Error)]
pub enum CommandFault<'a> {
    #[error("cannot read '{0}': {1}")]
    Read(&'a str, ReadReason),
    #[error("'{0}' did not end after 2,097,152 reads")]
    Endless(&'a str),
    #[error("cannot write '{0}': {1}")]
    Write(&'a str, ReplaceFault),
    /// The file for the changed image is no image, and may be precious.
    #[error("'{0}' is not an image: --over writes over it")]
    NotAnImage(&'a str),
    #[error("'{0}' {1}")]
    Held(&'a str, HoldFault),
    #[error("the clock cannot be read")]
    Clock,
    #[error("standard output cannot be written")]
    Output,
    #[error("there is not enough memory")]
    Memory,
    #[error("a volume has 16 to 101,602 blocks, and not {}", Grouped(u64::from(*.0)))]
    Blocks(u32),
    #[error("'{0}' is not a volume name, which has 1 to 30 bytes without `/` and `:`")]
    Name(&'a str),
    #[error("'{0}' has a letter past U+00FF, which is not in ISO 8859-1")]
    Letter(String),
    #[error("'{0}' has more than 1,024 bytes, the most of a boot block")]
    LongBoot(&'a str),
    /// The image has so many blocks, and the argument names none of them.
    #[error("'{}' has no block {}: it has {} blocks, from 0 on", .0, .1, Grouped(u64::from(*.2)))]
    NoBlock(&'a str, String, u32),
    /// A line of a list of bad blocks, from 1, names none of so many blocks.
    #[error("'{}', line {}: the number of one of the image's {} blocks is expected, from 0 on, or its place as c40.h0.s10", .0, .1, Grouped(u64::from(*.2)))]
    BadLine(&'a str, usize, u32),
    #[error("'{0}' has more than 4,194,304 bytes, the most of a list of bad blocks")]
    LongList(&'a str),
    #[error("'{0}' has more than 33,554,432 bytes, the most of a list of names")]
    LongNames(&'a str),
    #[error("'{0}' names no file")]
    NoNames(&'a str),
    /// The list has a zero byte, and the names in it are lines.
    #[error("'{0}' has a zero byte, which no name has: --null takes a list whose names end with one")]
    ZeroByte(&'a str),
    #[error("{0}")]
    Refused(Refusal),
    #[error("{0}")]
    Dos(DosRefusal),
    #[error("{0}")]
    Bitmap(NotValidated),
    #[error("{0}")]
    Undelete(UndeleteFault),
    #[error("{0}")]
    Extracted(WriteFault),
    #[error("{0}")]
    Added(SourceFault),
    #[error("{0}")]
    BundleOut(BundleOutFault),
    #[error("'{0}' is not written: {1}")]
    OtherVolume(&'a str, WrongVolume),
    /// There is a list of bad blocks, which is that of one image, and an argument names a directory.
    #[error("--bad lists the blocks of one image, and FILE is a directory")]
    OneImage,
    #[error("a thread cannot be made")]
    Thread,
    #[error("a client ran out of tries")]
    Tries,
    #[error("a script is faulty")]
    Script,
    #[error("an image is refused")]
    ImagesRefused,
    #[error("an image is not checked")]
    NotChecked,
    #[error("not all is whole")]
    NotWhole,
    #[error("not all is in the new image")]
    LeftOut,
}

impl fmt::Debug for CommandFault<'_> {
    fn fmt<W: fmt::Write>(&self, f: &mut fmt::Formatter<W>) -> fmt::Result {
        write!(f, "{self}")
    }
}

/// It does what a derived one does. It is written out because it is then one step of each proof in which a fault is
/// dropped; a derived one is a case for each variant, and for each of the faults inside.
impl Drop for CommandFault<'_> {
    fn drop(self) {
        match self {
            CommandFault::Letter(_word) | CommandFault::NoBlock(_, _word, _) => {}
            CommandFault::Dos(_refusal) => {}
            CommandFault::Undelete(_fault) => {}
            CommandFault::Extracted(_fault) => {}
            CommandFault::Added(_fault) => {}
            CommandFault::BundleOut(_fault) => {}
            CommandFault::Read(_, _)
            | CommandFault::Endless(_)
            | CommandFault::Write(_, _)
            | CommandFault::NotAnImage(_)
            | CommandFault::Held(_, _)
            | CommandFault::Clock
            | CommandFault::Output
            | CommandFault::Memory
            | CommandFault::Blocks(_)
            | CommandFault::Name(_)
            | CommandFault::LongBoot(_)
            | CommandFault::BadLine(_, _, _)
            | CommandFault::LongList(_)
            | CommandFault::LongNames(_)
            | CommandFault::NoNames(_)
            | CommandFault::ZeroByte(_)
            | CommandFault::Refused(_)
            | CommandFault::Bitmap(_)
            | CommandFault::OtherVolume(_, _)
            | CommandFault::OneImage
            | CommandFault::Thread
            | CommandFault::Tries
            | CommandFault::Script
            | CommandFault::ImagesRefused
            | CommandFault::NotChecked
            | CommandFault::NotWhole
            | CommandFault::LeftOut => {}
        }
    }
}

impl<'a> CommandFault<'a> {
    /// The fault of a file that was not read to its end.
    pub(crate) fn of_input<R: Files>(rt: &R, fault: InputFault, file: &'a str) -> CommandFault<'a>
        ensures no_image { IsNoImage result }
        ensures unread { IsUnreadFile file.now result }
    {
        match fault {
            InputFault::Read => CommandFault::Read(file, why_unreadable(rt, file)),
            InputFault::Memory => CommandFault::Memory,
            InputFault::TurnLimit => CommandFault::Endless(file),
        }
    }

    /// The fault of a bundle that does not become the volume of an image file.
    pub(crate) fn of_bundle(fault: InFault, file: &'a str) -> CommandFault<'a>
        ensures { IsNoImageRefusal result }
    {
        match fault {
            InFault::Source(SourceFault::Volume(why)) => CommandFault::OtherVolume(file, why),
            other => CommandFault::from(other),
        }
    }

    /// The text on standard output: a line or with `json` an object for a refusal, none for any other fault.
    pub(crate) fn line(&self, alloc: Global, json: bool) -> Result<Option<Vec<u8>>, AllocError>
        ensures { IfOk result (λ line. option_map (λ text. text.items) line ≡ told_line json self.now) }
    {
        match self {
            CommandFault::Refused(refusal) => Ok(Some(refusal.line(alloc, json)?)),
            CommandFault::Dos(refusal) => Ok(Some(refusal.line(alloc, json)?)),
            _ => Ok(None),
        }
    }

    /// The program's exit status: 1 for a wrong argument, 3 for a refusal, 2 for any other fault.
    pub fn status(&self) -> u8
        ensures { result ≡ status_of self.now }
    {
        match self {
            CommandFault::Blocks(_) | CommandFault::Letter(_) | CommandFault::OneImage => 1,
            CommandFault::Name(_)
            | CommandFault::LongBoot(_)
            | CommandFault::NoBlock(_, _, _)
            | CommandFault::Refused(_)
            | CommandFault::Dos(_)
            | CommandFault::Bitmap(_)
            | CommandFault::Undelete(_)
            | CommandFault::OtherVolume(_, _)
            | CommandFault::Script
            | CommandFault::ImagesRefused
            | CommandFault::NotWhole
            | CommandFault::LeftOut => 3,
            _ => 2,
        }
    }
}

impl From<AllocError> for CommandFault<'_> {
    ghost use Rattle.std.specs.Prelude.{◌≡◌};
    ghost use Rattle.adf_serve.specs.declared.fault.CommandFault.TheVariants as faults;

    ghost from_gives = { λ _ fault. fault ≡ faults.Memory };

    fn from(_error: AllocError) -> Self {
        CommandFault::Memory
    }
}

impl From<ArchiveFault> for CommandFault<'_> {
    ghost use Rattle.adf_serve.specs.Archives.{IsToldArchive};

    ghost from_gives = { λ fault told. IsToldArchive fault told };

    fn from(fault: ArchiveFault) -> Self
        ensures { IsToldArchive fault result }
    {
        match fault {
            ArchiveFault::Refused => CommandFault::ImagesRefused,
            ArchiveFault::NotChecked => CommandFault::NotChecked,
            ArchiveFault::OneImage => CommandFault::OneImage,
            ArchiveFault::Output => CommandFault::Output,
            ArchiveFault::Memory => CommandFault::Memory,
        }
    }
}

impl From<OutFault> for CommandFault<'_> {
    ghost use Rattle.adf_serve.specs.Faults.{IsToldOut};

    ghost from_gives = { λ fault told. IsToldOut fault told };

    fn from(fault: OutFault) -> Self
        ensures { IsToldOut fault result }
    {
        match fault {
            OutFault::Refused(refused) => CommandFault::Dos(DosRefusal {
                refused,
                detail: Detail::Plain,
            }),
            OutFault::Letter(word) => CommandFault::Letter(word),
            OutFault::Host(fault) => CommandFault::Extracted(fault),
            OutFault::Output => CommandFault::Output,
            OutFault::Memory => CommandFault::Memory,
        }
    }
}

impl From<UndeleteFault> for CommandFault<'_> {
    ghost use Rattle.adf_serve.specs.Deleted.{IsToldUndelete};

    ghost from_gives = { λ fault told. IsToldUndelete fault told };

    fn from(fault: UndeleteFault) -> Self
        ensures { IsToldUndelete fault result }
    {
        match fault {
            UndeleteFault::Host(fault) => CommandFault::Extracted(fault),
            UndeleteFault::Memory => CommandFault::Memory,
            other => CommandFault::Undelete(other),
        }
    }
}

impl From<InFault> for CommandFault<'_> {
    ghost use Rattle.adf_serve.specs.Changed.{IsToldIn};

    ghost from_gives = { λ fault told. IsToldIn fault told };

    fn from(fault: InFault) -> Self
        ensures { IsToldIn fault result }
    {
        match fault {
            InFault::Refused(refused) => CommandFault::Dos(DosRefusal {
                refused,
                detail: Detail::Plain,
            }),
            InFault::NoRoom { path, needed, free } => CommandFault::Dos(DosRefusal {
                refused: Refused {
                    error: DosError::DiskFull,
                    path,
                },
                detail: Detail::Room(Room { needed, free }),
            }),
            InFault::HostName { path, name, why } => CommandFault::Dos(DosRefusal {
                refused: Refused {
                    error: DosError::InvalidComponentName,
                    path,
                },
                detail: Detail::Name { name, why },
            }),
            InFault::Twins { path, other } => CommandFault::Dos(DosRefusal {
                refused: Refused {
                    error: DosError::ObjectExists,
                    path,
                },
                detail: Detail::Twin(other),
            }),
            InFault::Letter(word) | InFault::Bits(word) => CommandFault::Letter(word),
            InFault::Source(fault) => CommandFault::Added(fault),
            InFault::Memory => CommandFault::Memory,
        }
    }
}

impl From<BundleOutFault> for CommandFault<'_> {
    fn from(fault: BundleOutFault) -> Self {
        match fault {
            BundleOutFault::Host(fault) => CommandFault::Extracted(fault),
            BundleOutFault::Memory => CommandFault::Memory,
            other => CommandFault::BundleOut(other),
        }
    }
}

impl From<PrintFault> for CommandFault<'_> {
    ghost use Rattle.adf_serve.specs.Faults.{IsNoRefusal};

    ghost from_gives = { λ _ fault. IsNoRefusal fault };

    fn from(fault: PrintFault) -> Self {
        match fault {
            PrintFault::Write => CommandFault::Output,
            PrintFault::Memory => CommandFault::Memory,
        }
    }
}

impl From<ScriptsFault> for CommandFault<'_> {
    ghost use Rattle.adf_serve.specs.Faults.{IsNotServed};

    ghost from_gives = { λ _ fault. IsNotServed fault };

    fn from(fault: ScriptsFault) -> Self {
        match fault {
            ScriptsFault::Memory => CommandFault::Memory,
            ScriptsFault::Thread => CommandFault::Thread,
        }
    }
}

impl From<VolumeFault> for CommandFault<'_> {
    ghost use Rattle.adf_serve.specs.Faults.{IsToldAs};

    ghost from_gives = { λ fault told. IsToldAs fault told };

    fn from(fault: VolumeFault) -> Self
        ensures { IsToldAs fault result }
    {
        match Refusal::of_volume(fault) {
            Some(refusal) => CommandFault::Refused(refusal),
            None => CommandFault::Memory,
        }
    }
}
