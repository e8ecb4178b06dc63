//! Output of a text, or of a prefix if the writer fails.
ghost use Rattle.std.specs.Prelude.{◌≢◌, OnOk, OnErr};
ghost use Rattle.std.specs.Io.KnownBytes.{Appends};
ghost use Rattle.adf_io.specs.Prefix.{Passes, WritesFront};

use crate::output::write_output;
use std::alloc::AllocError;
use std::io::Write;

/// The number of bytes of text after which it is written.
const ENOUGH: usize = 65_536;

/// Why a text is not printed whole.
#[derive(Clone, Copy, PartialEq, Eq)]
pub enum PrintFault {
    /// A write failed, or wrote no byte.
    Write,
    /// Out of memory.
    Memory,
}

impl From<AllocError> for PrintFault {
    ghost use Rattle.std.specs.Prelude.{◌≡◌};
    ghost use Rattle.adf_io.specs.declared.printing.PrintFault.TheVariants.{Memory};

    ghost from_gives = { λ _ fault. fault ≡ Memory };

    fn from(_error: AllocError) -> PrintFault {
        PrintFault::Memory
    }
}

/// Writes a text if it is long enough, and begins a new one.
pub fn write_when_long<W: Write>(text: &mut Vec<u8>, writer: &mut W) -> Result<(), PrintFault>
    ensures ok { OnOk result (Passes (W.contents writer.old) (W.contents writer.new) text.old.items text.new.items) }
    ensures front { OnErr result (WritesFront (W.contents writer.old) (W.contents writer.new) text.old.items) }
{
    if text.len() < ENOUGH {
        return Ok(());
    }
    write_text(text.as_slice(), writer)?;
    text.clear();
    Ok(())
}

/// Writes a whole text, or a prefix if the writer fails.
pub fn write_text<W: Write>(text: &[u8], writer: &mut W) -> Result<(), PrintFault>
    ensures ok { OnOk result (Appends (W.contents writer.old) (W.contents writer.new) text.now) }
    ensures front { OnErr result (WritesFront (W.contents writer.old) (W.contents writer.new) text.now) }
    ensures no_want { result ≢ Err PrintFault.Memory }
{
    match write_output(text, writer) {
        Ok(()) => Ok(()),
        Err(_) => Err(PrintFault::Write),
    }
}
