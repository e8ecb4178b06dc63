//! The bytes of a new file.
ghost use Rattle.std.specs.Prelude.{◌≡◌, ◌++◌, length, OnOk};
ghost use Rattle.std.specs.Io.KnownBytes.{Appends};
ghost use Rattle.adf_host.specs.New.{new_bytes};

use adf_block::Image;
use adf_io::{StoreFault, store_image, write_output};
use std::io::{Error, ErrorKind, Result as IoResult, Write};

/// The contents of a new file.
#[derive(Clone, Copy)]
pub(crate) enum NewBytes<'a> {
    /// An image, and what is behind it in its file.
    Image(&'a Image, &'a [u8]),
    Bytes(&'a [u8]),
}

impl NewBytes<'_> {
    /// The number of bytes.
    pub(crate) fn length(self) -> u64
        ensures { result ≡ length (new_bytes self.entry) }
    {
        match self {
            NewBytes::Image(image, behind) => {
                image.as_bytes().len() as u64 + behind.len() as u64
            }
            NewBytes::Bytes(bytes) => bytes.len() as u64,
        }
    }

    /// Writes all bytes.
    pub(crate) fn put<W: Write>(self, writer: &mut W) -> Result<(), Error> {
        let mut noted = Noted {
            writer,
            fault: None,
        };
        let stored = match self {
            NewBytes::Image(image, behind) => store_file(image, behind, &mut noted),
            NewBytes::Bytes(bytes) => write_output(bytes, &mut noted),
        };
        match stored {
            Ok(()) => Ok(()),
            Err(_) => Err(noted.fault.unwrap_or(Error::from(ErrorKind::WriteZero))),
        }
    }
}

/// Writes an image by `store_image`, and then what is behind it.
fn store_file<W: Write>(image: &Image, behind: &[u8], writer: &mut W) -> Result<(), StoreFault>
    ensures { OnOk result (Appends (W.contents writer.old) (W.contents writer.new) (image.now ++ behind.now)) }
{
    match store_image(image, writer) {
        Ok(()) => write_output(behind, writer),
        Err(fault) => Err(fault),
    }
}

/// A writer that notes the error of its last write.
#[derive(Drop)]
struct Noted<'a, W> {
    writer: &'a mut W,
    fault: Option<Error>,
}

impl<W: Write> Write for Noted<'_, W> {
    fn write(&mut self, bytes: &[u8]) -> IoResult<usize> {
        let wrote = self.writer.write(bytes);
        self.fault = wrote.err();
        wrote
    }

    fn flush(&mut self) -> IoResult<()> {
        self.writer.flush()
    }
}
