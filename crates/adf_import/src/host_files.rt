//! What is read of host files: their names, their bytes and their notes.

use crate::fault::{FileWhy, InFault, SourceFault, refused, unusable};
use crate::item::Content;
use crate::name_why::NameWhy;
use adf_host::{HostEntry, HostReader, OpenFault, OwnedFile, PromptFiles, ReadReason};
use adf_io::{InputFault, read_bounded};
use adf_text::{LettersFault, Uaem, UaemFault, host_name_bytes, letter_text, read_uaem};
use ados_data::blocks_of;
use ados_model::DosError;
use ados_name::{Comment, Date3, Name, Protect};
use ados_volume::Volume;
use std::alloc::Global;
use std::fs::OpenFile;
use std::io::{ErrorKind, Read};

/// The entry's name for a host file's name.
///
/// Error: 210, with the host path, for a text that is not a name.
pub(crate) fn entry_name(alloc: Global, entry: &HostEntry) -> Result<Name, InFault> {
    let why = match host_name_bytes(alloc, entry.name.as_str()) {
        Ok(bytes) => match Name::new(&bytes) {
            Ok(name) => return Ok(name),
            Err(_) => {
                let name = letter_text(alloc, &bytes)?;
                NameWhy::of_text(name.as_str()).unwrap_or(NameWhy::Empty)
            }
        },
        Err(LettersFault::NoByte { letter, .. }) => NameWhy::Foreign { letter },
        Err(LettersFault::Memory) => return Err(InFault::Memory),
    };
    Err(InFault::HostName {
        path: String::from_str(alloc, entry.path.as_str())?,
        name: String::from_str(alloc, entry.name.as_str())?,
        why,
    })
}

/// The most bytes read of a note: more than the longest line.
const MOST_NOTED: usize = 4_096;

/// The metadata of a file or directory of the host: from its note, or else its time stamp, no protection bits and no
/// comment.
fn noted_of<R: PromptFiles>(
    rt: &R,
    alloc: Global,
    reader: &mut HostReader<R::File>,
    entry: &HostEntry,
) -> Result<Uaem, InFault>
where
    R::File: OwnedFile,
{
    let Some(note) = &entry.note else {
        return Ok(without_note(entry.date));
    };
    let line = match reader.open_note(rt, alloc, entry) {
        Ok(Some(file)) => read_host(alloc, file, note.as_str(), MOST_NOTED)?,
        Ok(None) => return Ok(without_note(entry.date)),
        Err(fault) => return Err(unopened(alloc, note.as_str(), fault)),
    };
    let why = match read_uaem(alloc, &line) {
        Ok(noted) => return Ok(noted),
        Err(UaemFault::Memory) => return Err(InFault::Memory),
        Err(UaemFault::LongComment { .. }) => {
            return Err(refused(alloc, entry.path.as_str(), DosError::CommentTooBig));
        }
        Err(UaemFault::NotUtf8 { .. }) => FileWhy::NotUtf8,
        Err(UaemFault::NoByte { .. }) => FileWhy::NoByte,
        Err(UaemFault::Control { .. }) => FileWhy::Control,
        Err(UaemFault::NoProtection) => FileWhy::NoProtection,
        Err(UaemFault::NoDate) => FileWhy::NoDate,
    };
    Err(unusable(alloc, note.as_str(), why))
}

/// A file or directory of the host as it was read: its metadata, the first bytes of a file, and its length, which a directory
/// has not.
#[derive(Drop)]
pub(crate) struct Given {
    pub noted: Uaem,
    pub bytes: Vec<u8>,
    pub length: Option<u64>,
}

impl Given {
    /// The content of a file. A directory has none.
    pub fn content(&self, volume: &Volume) -> Option<Content<'_>> {
        let length = self.length?;
        let format = volume.image().format();
        let read = blocks_of(format, self.bytes.len() as u64);
        Some(Content {
            bytes: self.bytes.as_slice(),
            more: blocks_of(format, length).saturating_sub(read),
        })
    }
}

/// Reads a file or directory of the host with its metadata, and at most this many bytes of a file.
pub(crate) fn read_entry<R: PromptFiles>(
    rt: &R,
    alloc: Global,
    reader: &mut HostReader<R::File>,
    entry: &HostEntry,
    most: usize,
) -> Result<Given, InFault>
where
    R::File: OwnedFile,
{
    let noted = noted_of(rt, alloc, reader, entry)?;
    let path = entry.path.as_str();
    match reader.open(rt, alloc, entry) {
        Ok(None) => Ok(Given {
            noted,
            bytes: Vec::new(alloc),
            length: None,
        }),
        Ok(Some(file)) => {
            let length = match file.metadata() {
                Ok(found) => found.len(),
                Err(error) => return Err(unopened(alloc, path, OpenFault::from(error))),
            };
            Ok(Given {
                noted,
                bytes: read_host(alloc, file, path, most)?,
                length: Some(length),
            })
        }
        Err(fault) => Err(unopened(alloc, path, fault)),
    }
}

/// The metadata of a file without a note: this date, no protection bits and no comment.
pub(crate) fn without_note(date: Date3) -> Uaem {
    Uaem {
        protect: Protect(0),
        date,
        comment: Comment::new(&[]).unwrap(),
    }
}

/// The bytes of an open host file, at most this many.
pub(crate) fn read_host<F: Read + Drop>(
    alloc: Global,
    mut file: F,
    path: &str,
    most: usize,
) -> Result<Vec<u8>, InFault> {
    match read_bounded(alloc, &mut file, most) {
        Ok(bytes) => Ok(bytes),
        Err(InputFault::Memory) => Err(InFault::Memory),
        Err(_) => Err(unread(alloc, path, ReadReason::Read)),
    }
}

/// The fault of a host file that was not opened.
pub(crate) fn unopened(alloc: Global, path: &str, fault: OpenFault) -> InFault {
    match fault {
        OpenFault::Memory => InFault::Memory,
        OpenFault::NoFile => unusable(alloc, path, FileWhy::NoFile),
        OpenFault::Host(error) if error.kind() == ErrorKind::NotADirectory => {
            unusable(alloc, path, FileWhy::NoDirectory)
        }
        fault => unread(alloc, path, ReadReason::from(fault)),
    }
}

/// The fault of a host file that could not be read.
pub(crate) fn unread(alloc: Global, path: &str, reason: ReadReason) -> InFault {
    match String::from_str(alloc, path) {
        Ok(path) => InFault::Source(SourceFault::Read { path, reason }),
        Err(_) => InFault::Memory,
    }
}
