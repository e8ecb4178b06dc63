//! Standard streams that are regular files: how far they are written, and read.
use crate::limit::LengthLimit;
use crate::standard::{Stream, is_regular};
use adf_io::read_some;
use std::fs;
use std::io::{Error, ErrorKind, IsTerminal, Read, Result as IoResult, Write};
use std::rt::Files;

/// A stream to which the program prints. If it is a regular file, no write exceeds the process's limit on the length of
/// files (`ulimit -f`): what fits is written, and then writes fail. The host would end the process by a signal.
#[derive(Drop)]
pub struct LimitedOutput<'a, R, W> {
    rt: &'a R,
    stream: Stream,
    writer: W,
    /// `None` if the stream is no regular file.
    limit: Option<LengthLimit>,
}

impl<'a, R: Files, W: Write> LimitedOutput<'a, R, W> {
    /// A stream that is written by this writer.
    pub fn new(rt: &'a R, stream: Stream, writer: W) -> LimitedOutput<'a, R, W> {
        let limit = if is_regular(rt, stream) {
            LengthLimit::set(rt)
        } else {
            None
        };
        LimitedOutput {
            rt,
            stream,
            writer,
            limit,
        }
    }

    /// The number of bytes that may still be written; `None` if there is no limit, or if the host does not say where the
    /// next byte goes.
    fn room(&self) -> Option<u64> {
        let limit = self.limit?;
        let place = next_place(self.rt, self.stream)?;
        Some(limit.room_behind(place))
    }
}

impl<R: Files, W: Write> Write for LimitedOutput<'_, R, W> {
    fn write(&mut self, bytes: &[u8]) -> IoResult<usize> {
        let fits = match self.room() {
            Some(room) if room < bytes.len() as u64 => &bytes[..room as usize],
            _ => bytes,
        };
        if fits.is_empty() && !bytes.is_empty() {
            return Err(Error::from(ErrorKind::FileTooLarge));
        }
        self.writer.write(fits)
    }

    fn flush(&mut self) -> IoResult<()> {
        self.writer.flush()
    }
}

impl<R, W: IsTerminal> IsTerminal for LimitedOutput<'_, R, W> {
    fn is_terminal(&self) -> bool {
        self.writer.is_terminal()
    }
}

/// The flag of an open file whose writes go to its end, as the host prints it.
const APPENDS: u32 = 0o2_000;

/// Where in its file the next byte of a stream goes.
fn next_place<R: Files>(rt: &R, stream: Stream) -> Option<u64> {
    let mut file = fs::open(rt, stream.state_path()).ok()?;
    let mut bytes = [0; 512];
    let count = read_some(&mut file, &mut bytes).ok()?;
    let state = str::from_utf8(bytes.get(..count)?).ok()?;
    let flags = u32::from_str_radix(field(state, "flags:")?, 8).ok()?;
    if flags & APPENDS == 0 {
        return field(state, "pos:")?.parse().ok();
    }
    match fs::metadata(rt, stream.path()) {
        Ok(found) => Some(found.len()),
        Err(_) => None,
    }
}

/// The field with this name in the host's description of an open file.
fn field<'a>(state: &'a str, name: &str) -> Option<&'a str> {
    for line in state.lines() {
        if let Some(value) = line.strip_prefix(name) {
            return Some(value.trim_ascii());
        }
    }
    None
}

/// Standard input of which at most some bytes are read if it is a regular file. So what is longer than its reader keeps is
/// not read to its end to be counted. A pipe is read to its end.
#[derive(Drop)]
pub struct LimitedInput<R> {
    reader: R,
    /// The number of bytes that may still be read.
    left: usize,
}

impl<R: Read> LimitedInput<R> {
    /// Standard input that is read by this reader.
    pub fn new<T: Files>(rt: &T, reader: R, most: usize) -> LimitedInput<R> {
        let left = if is_regular(rt, Stream::Input) {
            most
        } else {
            usize::MAX
        };
        LimitedInput { reader, left }
    }
}

impl<R: Read> Read for LimitedInput<R> {
    fn read(&mut self, bytes: &mut [u8]) -> IoResult<usize> {
        let part = bytes.len().min(self.left);
        let count = self.reader.read(&mut bytes[..part])?;
        if self.left < usize::MAX {
            self.left -= count;
        }
        Ok(count)
    }
}

impl<R: IsTerminal> IsTerminal for LimitedInput<R> {
    fn is_terminal(&self) -> bool {
        self.reader.is_terminal()
    }
}
