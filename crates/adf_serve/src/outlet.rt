//! Standard output: whether it is a terminal, and whether its reader is gone.
ghost use Rattle.std.specs.Prelude.{◌≡◌, Bool};

use std::io::{ErrorKind, IsTerminal, Result as IoResult, Write};

/// An output that may be a terminal or a pipe.
pub trait SeesReader {
    // Whether it is a terminal.
    ghost is_screen: { Self → Bool };

    /// Whether it is a terminal.
    fn is_screen(&self) -> bool
        ensures { result ≡ is_screen self.now };

    /// Whether the last write failed because nobody reads the pipe any more.
    fn has_lost_reader(&self) -> bool;
}

/// A writer that notes whether it is a terminal, and whether it is a pipe that nobody reads any more.
#[derive(Drop)]
pub struct Outlet<W> {
    writer: W,
    is_screen: bool,
    has_lost_reader: bool,
}

impl<W: IsTerminal> Outlet<W> {
    /// This writer, before its first write.
    pub fn new(writer: W) -> Outlet<W> {
        let is_screen = writer.is_terminal();
        Outlet {
            writer,
            is_screen,
            has_lost_reader: false,
        }
    }
}

impl<W> SeesReader for Outlet<W> {
    ghost is_screen = { λ outlet. outlet.is_screen };

    fn is_screen(&self) -> bool {
        self.is_screen
    }

    fn has_lost_reader(&self) -> bool {
        self.has_lost_reader
    }
}

impl<W: Write> Write for Outlet<W> {
    fn write(&mut self, bytes: &[u8]) -> IoResult<usize> {
        let wrote = self.writer.write(bytes);
        self.has_lost_reader = match &wrote {
            Ok(_) => false,
            Err(error) => error.kind() == ErrorKind::BrokenPipe,
        };
        wrote
    }

    fn flush(&mut self) -> IoResult<()> {
        self.writer.flush()
    }
}
