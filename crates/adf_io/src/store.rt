//! Images to writers.
ghost use Rattle.std.specs.Prelude.{◌≤◌, take, length, OnOk, IfErr};
ghost use Rattle.std.specs.Io.KnownBytes.{Appends};

use crate::output::{StoreFault, write_output};
use adf_block::Image;
use std::io::Write;

/// Writes the whole image. It needs no memory, and does not flush the writer.
pub fn store_image<W: Write>(image: &Image, writer: &mut W) -> Result<(), StoreFault>
    ensures ok { OnOk result (Appends (W.contents writer.old) (W.contents writer.new) image.now) }
    ensures prefix { IfErr result (λ fault. Appends (W.contents writer.old) (W.contents writer.new) (take fault.written image.now)) }
    ensures within { IfErr result (λ fault. fault.written ≤ length image.now) }
{
    write_output(image.as_bytes(), writer)
}
