//! Image files that a command locks while it works on them.
ghost use Rattle.std.specs.Prelude.{◌≡◌, ◌≢◌, IfErr};

use crate::busy::is_locked;
use crate::directory::FileNumber;
use crate::holder::Holder;
use crate::image_file::read_open;
use adf_io::{LoadFault, Loaded};
use std::alloc::Global;
use std::fs::{File, Metadata, TryLockError};
use std::io::{Error, ErrorKind, Read, Seek, SeekFrom};
use std::rt::{Clock, Files};
use std::time::Duration;
use std::{fs, thread};
use thiserror::Error;

/// Why a file is not locked.
#[derive(Clone, Copy, Debug, PartialEq, Eq, Error)]
pub enum HoldFault {
    /// It cannot be opened.
    #[error("cannot be read")]
    Open,
    /// Another command has locked it.
    #[error("is locked by another command{0}")]
    Busy(Holder),
    /// The host has no locks for it.
    #[error("cannot be locked: its file system has no locks")]
    Lock,
}

/// A file that is locked until this is dropped.
#[derive(Drop)]
pub struct HeldFile {
    file: File,
}

/// The maximum number of times that a file is opened again because it was replaced meanwhile.
const REOPENINGS: u32 = 16;

/// The maximum number of times that a lock is tried while a command that only looks for it has it. They take a second at least.
const TRIES: u32 = 1_000;

/// The milliseconds between two of these tries.
const PAUSE: u64 = 1;

/// Locks a file for a command that will change it. A file that another command has locked is refused at once.
///
/// If the file was replaced before it was locked, its path names another file, which is locked instead.
pub fn hold<R: Files<File = File> + Clock>(rt: &R, path: &str) -> Result<HeldFile, HoldFault> {
    for _ in 0..REOPENINGS {
        let Ok(file) = fs::open(rt, path) else {
            return Err(HoldFault::Open);
        };
        lock(rt, &file)?;
        if is_named(rt, &file, path) {
            return Ok(HeldFile { file });
        }
    }
    Err(HoldFault::Busy(Holder::unknown()))
}

/// Locks the file that a command will write to, if it is an existing readable regular file. If the command has already
/// locked it, it is locked once more. So the command does not overwrite a file that another command works on.
pub fn hold_target<R: Files<File = File> + Clock>(
    rt: &R,
    path: &str,
    held: Option<&HeldFile>,
) -> Result<Option<HeldFile>, HoldFault>
    ensures { IfErr result (λ fault. fault ≢ HoldFault.Open) }
{
    if let Some(held) = held {
        if is_named(rt, &held.file, path) {
            return held.again().map(Some);
        }
    }
    if !fs::metadata(rt, path).is_ok_and(|found| found.is_file()) {
        return Ok(None);
    }
    match hold(rt, path) {
        Ok(held) => Ok(Some(held)),
        Err(HoldFault::Open) => Ok(None),
        Err(fault) => Err(fault),
    }
}

/// Locks a file, unless another command has locked it. A command that only looks whether it is locked does not count: it
/// takes the lock for a moment, which may be long if the machine stops it just then. So the lock is tried again after a pause.
fn lock<R: Files + Clock>(rt: &R, file: &File) -> Result<(), HoldFault>
    ensures { IfErr result (λ fault. fault ≢ HoldFault.Open) }
{
    for _ in 0..TRIES {
        match file.try_lock() {
            Ok(()) => return Ok(()),
            Err(TryLockError::WouldBlock) if is_locked(file) => {
                return Err(HoldFault::Busy(Holder::of(rt, file)));
            }
            Err(TryLockError::WouldBlock) => {
                thread::sleep(rt, Duration::from_millis(PAUSE));
            },
            Err(TryLockError::Error(_)) => return Err(HoldFault::Lock),
        }
    }
    Err(HoldFault::Busy(Holder::of(rt, file)))
}

/// Whether a path names this file.
fn is_named<R: Files>(rt: &R, file: &File, path: &str) -> bool {
    match (file.metadata(), fs::metadata(rt, path)) {
        (Ok(held), Ok(named)) => is_same(&held, &named),
        _ => false,
    }
}

/// Whether both describe one file: the same number on the same device.
pub(crate) fn is_same(one: &Metadata, other: &Metadata) -> bool {
    FileNumber::of(one) == FileNumber::of(other)
}

impl HeldFile {
    /// Reads the image of the file: its first `blocks` blocks, or without a number all of it. To be called once. A regular file of
    /// a wrong length is refused by its length.
    pub fn read_image(&mut self, alloc: Global, blocks: Option<u32>) -> Result<Loaded, LoadFault> {
        read_open(alloc, &mut self.file, blocks)
    }

    /// Whether a path names this file.
    pub fn is_at<R: Files>(&self, rt: &R, path: &str) -> bool {
        is_named(rt, &self.file, path)
    }

    /// Whether a regular file may be replaced by an image: it is empty, or begins as an image does. It is read from its start,
    /// and is then at its start again.
    pub fn may_be_image(&mut self) -> Result<bool, Error> {
        if self.file.metadata()?.len() == 0 {
            return Ok(true);
        }
        let mut start = [0u8; 3];
        let read = self.file.read_exact(&mut start);
        self.file.seek(SeekFrom::Start(0))?;
        match read {
            Ok(()) => Ok(start == *b"DOS"),
            Err(error) if error.kind() == ErrorKind::UnexpectedEof => Ok(false),
            Err(error) => Err(error),
        }
    }

    /// The same file, locked until both are dropped.
    pub fn again(&self) -> Result<HeldFile, HoldFault>
        ensures { IfErr result (λ fault. fault ≡ HoldFault.Lock) }
    {
        match self.file.try_clone() {
            Ok(file) => Ok(HeldFile { file }),
            Err(_) => Err(HoldFault::Lock),
        }
    }

    /// Whether this is the file with this description.
    pub(crate) fn is(&self, found: &Metadata) -> bool {
        match self.file.metadata() {
            Ok(held) => is_same(&held, found),
            Err(_) => false,
        }
    }
}
