//! Reading of a script.
ghost use Rattle.std.specs.Prelude.{◌≡◌, IfOk};
ghost use Rattle.adf_io.specs.Input.{GivesNoEnd, ReadsFront};

use adf_io::{InputFault, read_input};
use std::alloc::Global;
use std::io::Read;

/// The most bytes of a script.
pub const LONGEST_SCRIPT: usize = 1_048_576;

/// Reads to the end, and keeps at most one byte more than the longest script. That byte shows that the script is too
/// long.
pub fn read_script<R: Read>(alloc: Global, reader: &mut R) -> Result<Vec<u8>, InputFault>
    ensures read { IfOk result (λ kept. ReadsFront 1048577 (R.remaining reader.old) (R.remaining reader.new) kept.items) }
    ensures endless { result ≡ Err InputFault.TurnLimit → GivesNoEnd (R.remaining reader.old) (R.remaining reader.new) }
{
    read_input(alloc, reader, LONGEST_SCRIPT + 1)
}
