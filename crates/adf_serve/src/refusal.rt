//! Refusals of images, and refusals by AmigaDOS.
ghost use Rattle.std.specs.Prelude.{◌≡◌, ◌≢◌, IfSome, IfNone, IfOk};
ghost use Rattle.ados_model.specs.declared.fault.FaultKind.TheVariants.{NoMemory};
ghost use Rattle.adf_archive.specs.Words.{kind_word, size_word};
ghost use Rattle.adf_serve.specs.Refusals.{dos_text, refusal_text};

use adf_archive::{ReadImages, explain_refused, kind_word, size_word};
use adf_block::SizeFault;
use adf_cli::{ImageFile, Refused};
use adf_import::NameWhy;
use adf_record::Grouped;
use adf_text::push_plain;
use adf_where::{FaultReason, dos_refused_text, refused_text};
use ados_volume::{FaultKind, VolumeFault};
use std::alloc::{AllocError, Global};
use std::fmt;
use std::io::Write;
use std::rt::Files;
use thiserror::Error;

/// Why an image is refused: the word for its fault, and the block that shows it. A fault of the size has block 0.
#[derive(Clone, Copy, Debug, Error)]
#[error("refused {kind} {block}")]
pub struct Refusal {
    kind: &'static str,
    block: u32,
}

impl Refusal {
    /// The refusal of a size.
    pub(crate) fn of_size(fault: SizeFault) -> Refusal
        ensures kind { result.kind.now ≡ size_word fault }
        ensures block { result.block ≡ 0 }
    {
        Refusal {
            kind: size_word(fault),
            block: 0,
        }
    }

    /// The refusal of a volume. Out of memory is none, because no image is refused for it.
    pub(crate) fn of_volume(fault: VolumeFault) -> Option<Refusal>
        ensures kind { IfSome result (λ refusal. refusal.kind.now ≡ kind_word fault.kind) }
        ensures block { IfSome result (λ refusal. refusal.block ≡ fault.block) }
        ensures none { IfNone result (fault.kind ≡ NoMemory) }
        ensures some { IfSome result (λ _. fault.kind ≢ NoMemory) }
    {
        match fault.kind {
            FaultKind::NoMemory => None,
            kind => Some(Refusal {
                kind: kind_word(kind),
                block: fault.block,
            }),
        }
    }

    /// What is printed of it: a line, or with `json` an object.
    pub(crate) fn line(&self, alloc: Global, json: bool) -> Result<Vec<u8>, AllocError>
        ensures { IfOk result (λ line. line.items ≡ refusal_text json self.now) }
    {
        refused_text(alloc, self.reason(), json)
    }

    /// The word for its fault, and the block that shows it.
    pub(crate) fn reason(&self) -> FaultReason
        ensures kind { result.kind.now ≡ self.now.kind.now }
        ensures block { result.block ≡ self.now.block }
    {
        FaultReason {
            kind: self.kind,
            block: self.block,
        }
    }

    /// Prints why the image of a file is refused like this.
    pub(crate) fn explain<R: Files + ReadImages, F: Write>(
        &self,
        rt: &R,
        alloc: Global,
        file: ImageFile<'_>,
        faults: &mut F,
    ) {
        explain_refused(rt, alloc, file, self.kind, self.block, faults);
    }
}

/// A refusal by AmigaDOS. As text it says what is wrong, and with what.
#[derive(Drop)]
pub struct DosRefusal {
    /// The error, and the path that it is about.
    pub refused: Refused,
    pub detail: Detail,
}

/// What more is known of a refusal than its error.
#[derive(Drop)]
pub enum Detail {
    /// Nothing.
    Plain,
    /// The missing blocks of a full disk.
    Room(Room),
    /// A name that is none, and why.
    Name { name: String, why: NameWhy },
    /// Another file of the host with the same name.
    Twin(String),
    /// A directory is no file that `print` prints.
    NeedsFile,
    /// An entry cannot be moved into itself.
    IntoItself,
}

/// The number of blocks needed, and the number of free blocks.
#[derive(Clone, Copy)]
pub struct Room {
    pub needed: u64,
    pub free: u32,
}

impl DosRefusal {
    /// What is printed of it: a line with escapes for the control characters of the path, or with `json` an object.
    pub(crate) fn line(&self, alloc: Global, json: bool) -> Result<Vec<u8>, AllocError>
        ensures { IfOk result (λ line. line.items ≡ dos_text json self.now) }
    {
        let path = self.refused.path.as_str();
        if json {
            return dos_refused_text(alloc, self.refused.error, path);
        }
        let number = self.refused.error.number();
        let front = format!(in alloc; "refused {number} ")?;
        let mut line = front.into_bytes();
        push_plain(&mut line, path)?;
        line.push(b'\n')?;
        Ok(line)
    }
}

impl fmt::Display for DosRefusal {
    fn fmt<W: fmt::Write>(&self, f: &mut fmt::Formatter<W>) -> fmt::Result {
        let path = self.refused.path.as_str();
        match &self.detail {
            Detail::Plain => write!(f, "'{path}': {}", self.refused),
            Detail::Room(Room { needed, free }) => write!(
                f,
                "'{path}': {}: {} blocks are needed and {} are free",
                self.refused,
                Grouped(*needed),
                Grouped(u64::from(*free))
            ),
            Detail::Name { name, why } => write!(f, "'{}' {why}", name.as_str()),
            Detail::Twin(other) => {
                write!(
                    f,
                    "'{path}' and '{}' are one name on an Amiga",
                    other.as_str()
                )
            }
            Detail::NeedsFile => write!(f, "'{path}' is a directory; print needs a file"),
            Detail::IntoItself => write!(f, "cannot move '{path}' into itself"),
        }
    }
}
