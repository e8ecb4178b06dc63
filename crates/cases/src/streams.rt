//! Readers and writers that fail, that do not end, or that transfer only few bytes at a time.
use std::io::{Error, ErrorKind, Read, Result as IoResult, Write};

/// Returns `left` bytes, at most `step` a read, each read after an interrupted one. Then it ends or fails.
#[derive(Drop)]
pub(crate) struct Bytes {
    pub(crate) byte: u8,
    pub(crate) left: usize,
    pub(crate) step: usize,
    pub(crate) fails: bool,
    pub(crate) interrupted: bool,
}

impl Read for Bytes {
    fn read(&mut self, buffer: &mut [u8]) -> IoResult<usize> {
        self.interrupted = !self.interrupted;
        if self.interrupted {
            return Err(Error::from(ErrorKind::Interrupted));
        }
        if self.left == 0 && self.fails {
            return Err(Error::from(ErrorKind::Other));
        }
        let count = self.left.min(self.step).min(buffer.len());
        buffer[..count].fill(self.byte);
        self.left -= count;
        Ok(count)
    }
}

/// Accepts and keeps at most `step` bytes a write, and fails after `writes` writes.
#[derive(Drop)]
pub(crate) struct Narrow {
    pub(crate) writes: usize,
    pub(crate) step: usize,
    pub(crate) flushes: bool,
    pub(crate) taken: Vec<u8>,
}

impl Write for Narrow {
    fn write(&mut self, bytes: &[u8]) -> IoResult<usize> {
        if self.writes == 0 {
            return Err(Error::from(ErrorKind::Other));
        }
        self.writes -= 1;
        let count = self.step.min(bytes.len());
        match self.taken.extend_from_slice(&bytes[..count]) {
            Ok(()) => Ok(count),
            Err(_) => Err(Error::from(ErrorKind::OutOfMemory)),
        }
    }

    fn flush(&mut self) -> IoResult<()> {
        if self.flushes {
            Ok(())
        } else {
            Err(Error::from(ErrorKind::BrokenPipe))
        }
    }
}
