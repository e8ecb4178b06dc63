//! The notes that emulators keep beside host files, for C.

ghost use Rattle.std.specs.Prelude.{MatchResult};
ghost use Rattle.std.specs.String.{string_bytes};
ghost use Rattle.ados_name.specs.Name.{IsComment};
ghost use Rattle.adf_c.specs.Buffers.{Refuses};
ghost use Rattle.adf_c.specs.Names.{IsNoteOf, NoteComes};

use crate::values::refusal::Refusal;
use adf_text::{Uaem, UaemFault};
use ados_name::{Comment, Date3, Protect};
use std::alloc::Global;

/// The line of a `.uaem` file with these protection bits, date and comment, as `adf_text::uaem_line` writes it.
///
/// Errors: `WrongArgument` if the comment is longer than 79 bytes.
pub fn uaem_line(alloc: Global, bits: u32, date: Date3, comment: &[u8]) -> Result<String, Refusal>
    ensures { MatchResult result (λ line. IsNoteOf bits date comment.now (string_bytes line)) (Refuses (¬ IsComment comment.now)) }
{
    let Ok(comment) = Comment::new(comment) else {
        return Err(Refusal::WrongArgument);
    };
    let noted = Uaem {
        protect: Protect(bits),
        date,
        comment,
    };
    match adf_text::uaem_line(alloc, &noted) {
        Ok(line) => Ok(line),
        Err(_) => Err(Refusal::NoMemory),
    }
}

/// Reads a `.uaem` file, as `adf_text::read_uaem` does.
///
/// Errors: `WrongArgument` if the file has a fault.
pub fn read_uaem(alloc: Global, file: &[u8]) -> Result<Uaem, Refusal>
    ensures { NoteComes file.now result }
{
    match adf_text::read_uaem(alloc, file) {
        Ok(noted) => Ok(noted),
        Err(UaemFault::Memory) => Err(Refusal::NoMemory),
        Err(_) => Err(Refusal::WrongArgument),
    }
}
