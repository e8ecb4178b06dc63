//! The note that emulators keep beside a host file: metadata that the host cannot store.
ghost use Rattle.std.specs.Prelude.{IfOk};
ghost use Rattle.std.specs.String.{string_bytes};
ghost use Rattle.adf_text.specs.Uaem.{IsLineOf, LineTellsOne};

use crate::escapes::{Place, escaped};
use crate::letters::letter_text;
use crate::protection::protection_letters;
use ados_name::{Comment, Date3, Protect};
use std::alloc::{AllocError, Global};

/// The contents of a note. Of the protection bits it has the low eight.
#[derive(Clone, Copy, PartialEq, Eq)]
pub struct Uaem {
    pub protect: Protect,
    pub date: Date3,
    pub comment: Comment,
}

/// The line `hsparwed YYYY-MM-DD HH:MM:SS.CC COMMENT` with a line feed. FS-UAE and Amiberry keep it in a file whose
/// name ends in `.uaem`.
///
/// `CC` is hundredths of a second, two for each tick. A date without a calendar text is `raw DAYS MINUTES TICKS`. The
/// comment is in letters; its bytes 00 to 1F, 7F to 9F and `%` are `%` and two hexadecimal digits, so it stays on the
/// line. The space before it is written even if it is empty.
pub fn uaem_line(alloc: Global, noted: &Uaem) -> Result<String, AllocError>
    ensures { IfOk result (λ text. IsLineOf noted.now (string_bytes text)) }
{
    let protection = letter_text(alloc, &protection_letters(noted.protect))?;
    let date = noted.date.text(alloc)?;
    let shown = escaped(alloc, noted.comment.bytes(), Place::Comment)?;
    let comment = letter_text(alloc, &shown)?;
    format!(in alloc; "{protection} {date} {comment}\n")
}

/// A line belongs to exactly one choice of eight bits, date and comment.
pub fn line_tells_one()
    ensures { LineTellsOne }
{}
