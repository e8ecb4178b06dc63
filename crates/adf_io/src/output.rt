//! Bytes written whole, or as far as the writer accepted them.
ghost use Rattle.std.specs.Prelude.{◌≤◌, take, length, OnOk, IfErr};
ghost use Rattle.std.specs.Io.KnownBytes.{Appends};

use std::io::{ErrorKind, Write};

/// A write failed, or accepted no byte.
#[derive(Clone, Copy, PartialEq, Eq)]
pub struct StoreFault {
    /// The number of bytes written before.
    pub written: usize,
}

/// Writes all bytes. An interrupted write is repeated.
pub fn write_output<W: Write>(bytes: &[u8], writer: &mut W) -> Result<(), StoreFault>
    ensures ok { OnOk result (Appends (W.contents writer.old) (W.contents writer.new) bytes.now) }
    ensures prefix { IfErr result (λ fault. Appends (W.contents writer.old) (W.contents writer.new) (take fault.written bytes.now)) }
    ensures within { IfErr result (λ fault. fault.written ≤ length bytes.now) }
{
    let mut written = 0;
    for _ in 0..u64::MAX {
        if written >= bytes.len() {
            return Ok(());
        }
        match writer.write(&bytes[written..]) {
            Ok(count) => {
                if count == 0 {
                    return Err(StoreFault { written });
                }
                written += count;
            }
            Err(error) if error.kind() == ErrorKind::Interrupted => continue,
            Err(_) => return Err(StoreFault { written }),
        }
    }
    Err(StoreFault { written })
}
