//! The bytes of a file, written to a writer.
ghost use Rattle.std.specs.Prelude.{◌≡◌, OnOk, IfErr};
ghost use Rattle.ados_model.specs.Tree.{Tree};
ghost use Rattle.ados_model.specs.Stands.{Stands};
ghost use Rattle.adf_export.specs.Printing.{IsPrinted, IsPrintFault};

use crate::fault::OutFault;
use crate::words::{locate_word, refused};
use adf_io::write_output;
use ados_model::DosError;
use ados_volume::{Volume, read_file};
use std::alloc::Global;
use std::io::Write;

/// Writes the bytes of the file at a path. The writer is not flushed.
///
/// Errors: 204, 205 and 212 for a path that leads nowhere, 212 for a directory.
pub fn print_file<W: Write>(
    alloc: Global,
    volume: &mut Volume,
    path: &str,
    writer: &mut W,
) -> Result<(), OutFault>
    ensures ok { OnOk result ((t : Tree) → Stands volume.old.image t → IsPrinted t path.now (W.contents writer.old) (W.contents writer.new)) }
    ensures fault { IfErr result (λ fault. (t : Tree) → Stands volume.old.image t
        → IsPrintFault t path.now (W.contents writer.old) (W.contents writer.new) fault) }
    ensures same { volume.new ≡ volume.old }
{
    let key = match locate_word(alloc, volume, path) {
        Ok(key) => key,
        Err(fault) => return Err(fault),
    };
    if !volume.is_file(key) {
        return Err(refused(alloc, DosError::ObjectWrongType, path));
    }
    let bytes = read_file(alloc, volume, key)?;
    match write_output(&bytes, writer) {
        Ok(()) => Ok(()),
        Err(_) => Err(OutFault::Output),
    }
}
