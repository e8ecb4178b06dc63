//! The program without arguments: a script over a blank floppy.
ghost use Rattle.std.specs.Prelude.{◌≡◌, true, false, codes, IfOk, OnOk};
ghost use Rattle.adf_block.specs.declared.layout.Format.TheVariants.{Ffs};
ghost use Rattle.ados_model.specs.Blank.{IsBlank};
ghost use Rattle.ados_model.specs.Session.{opening_session};
ghost use Rattle.adf_serve.specs.Script.{RunsScript, TellsScript, first_moment};

use crate::info::FIRST_MOMENT;
use adf_block::Format;
use adf_cli::last_number;
use adf_script::{TryFault, read_script, run_script};
use ados_handler::Handler;
use ados_name::Name;
use ados_volume::blank;
use std::alloc::{AllocError, Global};
use std::io::{Error, ErrorKind, Read, Result as IoResult, Write};

/// The blocks of a double-density floppy.
const BLOCKS: u32 = 1_760;

/// Runs a script as the only client of a port over a blank floppy `Work`. Each packet has the first time stamp. `Ok`
/// means a whole script, `Script` one with a faulty line or one that is too long.
pub fn try_script<R: Read, W: Write>(
    alloc: Global,
    reader: &mut R,
    writer: &mut W,
) -> Result<(), TryFault>
    ensures whole { OnOk result (RunsScript (R.remaining reader.old) (R.remaining reader.new) (W.contents writer.old) (W.contents writer.new) true) }
    ensures faulty { result ≡ Err TryFault.Script →
        RunsScript (R.remaining reader.old) (R.remaining reader.new) (W.contents writer.old) (W.contents writer.new) false }
{
    let script = read_script(alloc, reader)?;
    run_bytes(alloc, &script, writer)
}

/// Runs these bytes as a script, as [`try_script`] does.
pub(crate) fn run_bytes<W: Write>(
    alloc: Global,
    script: &[u8],
    writer: &mut W,
) -> Result<(), TryFault>
    ensures whole { OnOk result (TellsScript script.now (W.contents writer.old) (W.contents writer.new) true) }
    ensures faulty { result ≡ Err TryFault.Script → TellsScript script.now (W.contents writer.old) (W.contents writer.new) false }
{
    let handler = work_floppy(alloc)?;
    let mut reader = script;
    run_script(alloc, handler, FIRST_MOMENT, &mut reader, writer)
}

/// The number of the faulty line of a script, or 0 if the script is too long. The script is run once more, and of its output
/// only the last line is kept.
pub(crate) fn faulty_number(alloc: Global, script: &[u8]) -> Option<u64> {
    let mut last = LastLine {
        line: Vec::new(alloc),
    };
    match run_bytes(alloc, script, &mut last) {
        Err(TryFault::Script) => last_number(alloc, &last.line),
        _ => None,
    }
}

/// The most bytes that are kept of the line of a fault, which has fewer.
const LONGEST_KEPT: usize = 64;

/// A writer that keeps the bytes of its last write, if they are few.
#[derive(Drop)]
struct LastLine {
    line: Vec<u8>,
}

impl Write for LastLine {
    fn write(&mut self, bytes: &[u8]) -> IoResult<usize> {
        self.line.clear();
        if bytes.len() <= LONGEST_KEPT {
            if self.line.extend_from_slice(bytes).is_err() {
                return Err(Error::from(ErrorKind::OutOfMemory));
            }
        }
        Ok(bytes.len())
    }

    fn flush(&mut self) -> IoResult<()> {
        Ok(())
    }
}

/// A handler over a blank FFS floppy `Work`, made at the first time stamp.
fn work_floppy(alloc: Global) -> Result<Handler, AllocError>
    ensures image { IfOk result (λ handler. IsBlank Ffs 1760 (codes "Work") first_moment handler.image) }
    ensures session { IfOk result (λ handler. handler.session ≡ opening_session) }
{
    let Ok(name) = Name::new(b"Work") else {
        unreachable!()
    };
    let volume = blank(alloc, Format::Ffs, BLOCKS, name, FIRST_MOMENT)?;
    Ok(Handler::new(alloc, volume))
}
