//! Who has a file locked.
use crate::directory::FileNumber;
use adf_io::read_some;
use std::fs::File;
use std::rt::Files;
use std::{fmt, fs};

/// The process that has a file locked, if the host tells it. As text it is the end of a sentence.
#[derive(Clone, Copy, Debug, PartialEq, Eq)]
pub struct Holder {
    process: Option<u32>,
}

impl fmt::Display for Holder {
    fn fmt<W: fmt::Write>(&self, f: &mut fmt::Formatter<W>) -> fmt::Result {
        match self.process {
            Some(process) => write!(f, ": process {process}"),
            None => Ok(()),
        }
    }
}

impl Holder {
    /// The holder of whom the host tells nothing.
    pub(crate) fn unknown() -> Holder {
        Holder { process: None }
    }

    /// The holder of the lock on a file, by the host's list of locks. It lists no locks of another machine, and names the
    /// files of some file systems by other numbers.
    pub(crate) fn of<R: Files>(rt: &R, file: &File) -> Holder {
        let process = match file.metadata() {
            Ok(found) => listed_process(rt, FileNumber::of(&found)),
            Err(_) => None,
        };
        Holder { process }
    }
}

/// The bytes of the list of locks that are read at once: the host gives whole lines.
const PART: usize = 4_096;

/// The maximum number of these reads.
const READS: u32 = 4_096;

/// The process that the host's list of locks has for a file.
fn listed_process<R: Files>(rt: &R, file: FileNumber) -> Option<u32> {
    let mut list = fs::open(rt, "/proc/locks").ok()?;
    let mut part = [0; PART];
    for _ in 0..READS {
        let count = read_some(&mut list, &mut part).ok()?;
        if count == 0 {
            return None;
        }
        for line in part.get(..count)?.split(|byte| *byte == b'\n') {
            if let Some(process) = process_in(line, file) {
                return Some(process);
            }
        }
    }
    None
}

/// The process in a line of the list, if that is a lock of this kind on a file: `1: FLOCK ADVISORY WRITE 812 08:02:1311 0 EOF`.
/// One in another container has the number 0.
fn process_in(line: &[u8], file: FileNumber) -> Option<u32> {
    let mut fields = str::from_utf8(line).ok()?.split_ascii_whitespace();
    if fields.nth(1)? != "FLOCK" {
        return None;
    }
    let process: u32 = fields.nth(2)?.parse().ok()?;
    if process > 0 && file.is_listed_as(fields.next()?) {
        Some(process)
    } else {
        None
    }
}
