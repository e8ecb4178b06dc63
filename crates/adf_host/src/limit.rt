//! The limit that the host sets on the length of files.
ghost use Rattle.std.specs.Prelude.{◌≡◌, ◌-◌, ◌≤◌, ◌↔◌, IsOk};

use adf_io::read_some;
use std::fs;
use std::io::{Error, ErrorKind};
use std::rt::Files;

/// The process's limit on the length of files (`ulimit -f`).
#[derive(Clone, Copy)]
pub struct LengthLimit {
    most: u64,
}

impl LengthLimit {
    /// The limit as it is now. Where the host does not say what the limit is, there is none. The host takes as long to say it
    /// as to make a small file, so one who writes many files asks once.
    pub fn of<R: Files>(rt: &R) -> LengthLimit {
        LengthLimit {
            most: file_limit(rt).unwrap_or(u64::MAX),
        }
    }

    /// The limit as it is now, if there is one.
    pub(crate) fn set<R: Files>(rt: &R) -> Option<LengthLimit> {
        Some(LengthLimit {
            most: file_limit(rt)?,
        })
    }

    /// The number of bytes that may be written to a file from this place on.
    pub(crate) fn room_behind(self, place: u64) -> u64
        ensures { result ≡ self.most - place }
    {
        self.most.saturating_sub(place)
    }

    /// Fails if a file of this length would exceed the limit.
    ///
    /// To be called before the file is made: a write past the limit ends the process by a signal.
    pub fn refuse(&self, length: u64) -> Result<(), Error>
        ensures { length ≡ 0 → IsOk result }
    {
        within(length, self.most)
    }
}

/// Fails if a file of this length would exceed the process's limit on the length of files, as [`LengthLimit::refuse`] does.
pub fn refuse_length<R: Files>(rt: &R, length: u64) -> Result<(), Error>
    ensures { length ≡ 0 → IsOk result }
{
    LengthLimit::of(rt).refuse(length)
}

/// Fails for a length over a limit.
fn within(length: u64, most: u64) -> Result<(), Error>
    ensures { IsOk result ↔ length ≤ most }
{
    if length <= most {
        return Ok(());
    }
    let message = "it would be longer than the limit on files (ulimit -f)";
    Err(Error::new(ErrorKind::FileTooLarge, message))
}

/// The limit on the length of files, if the host says that there is one.
fn file_limit<R: Files>(rt: &R) -> Option<u64> {
    let mut file = fs::open(rt, "/proc/self/limits").ok()?;
    let mut bytes = [0; 4_096];
    let count = read_some(&mut file, &mut bytes).ok()?;
    limit_in(str::from_utf8(bytes.get(..count)?).ok()?)
}

/// The limit on the length of files in the host's table of limits. A line has the name of a limit, and the number that
/// holds.
fn limit_in(table: &str) -> Option<u64> {
    for line in table.lines() {
        if let Some(numbers) = line.strip_prefix("Max file size") {
            return numbers.split_ascii_whitespace().next()?.parse().ok();
        }
    }
    None
}
