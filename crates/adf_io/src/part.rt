//! Single reads.
ghost use Rattle.std.specs.Prelude.{◌≢◌, length, IfOk};
ghost use Rattle.std.specs.Io.KnownBytes.{ReadConsumes};
ghost use Rattle.std.specs.Io.{ReadsAtMost};
ghost use Rattle.adf_io.specs.steps.Reads.{ReadsPart};

use crate::input::InputFault;
use std::io::{Error, ErrorKind, Read, Result as IoResult};

/// Appends the bytes of one read into a buffer. Returns their number.
pub(crate) fn read_part<R: Read>(
    reader: &mut R,
    buffer: &mut [u8],
    bytes: &mut Vec<u8>,
) -> Result<usize, InputFault>
    ensures read { IfOk result (ReadsPart (length buffer.old) (R.remaining reader.old) (R.remaining reader.new) bytes.old.items bytes.new.items) }
    ensures limit { result ≢ Err InputFault.TurnLimit }
{
    let count = read_some(reader, buffer)?;
    bytes.extend_from_slice(&buffer[..count])?;
    Ok(count)
}

/// One read, repeated if it is interrupted.
pub fn read_some<R: Read>(reader: &mut R, chunk: &mut [u8]) -> IoResult<usize>
    ensures bound { ReadsAtMost result chunk.new }
    ensures bytes { ReadConsumes (R.remaining reader.old) (R.remaining reader.new) result chunk.new }
{
    for _ in 0..u64::MAX {
        match reader.read(chunk) {
            Ok(count) => return Ok(count),
            Err(error) if error.kind() == ErrorKind::Interrupted => continue,
            Err(error) => return Err(error),
        }
    }
    Err(Error::from(ErrorKind::Interrupted))
}
