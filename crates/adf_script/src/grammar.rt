//! The packet that a line of a script stands for.
ghost use Rattle.std.specs.Prelude.{◌≡◌, IfOk, MatchOption, MatchResult};
ghost use Rattle.adf_script.specs.Grammar.{IsPacketLine, IsFaulty};
ghost use Rattle.adf_script.specs.steps.Words.{HasFields};

use crate::fields::{Fields, read_fields};
use crate::forms::Word;
use crate::line_fault::{Expected, LineFault, Stop};
use crate::packets::packet_of;
use crate::pieces::cut;
use ados_model::Packet;
use std::alloc::{AllocError, Global};

/// The keyword of a line, and the values of its fields.
#[derive(Clone, Copy)]
pub struct Line<'a> {
    word: Word,
    fields: Fields<'a>,
}

/// The packet of a line, or `None` for a faulty line. `values` are the values of the replies so far, to which `$k`
/// refers.
pub fn parse(
    alloc: Global,
    values: &[Option<u32>],
    line: &[u8],
) -> Result<Option<Packet>, AllocError>
    ensures { IfOk result (λ found. MatchOption found
        (IsFaulty values.now line.now)
        (λ packet. IsPacketLine values.now packet line.now)) }
{
    match read_line(values, line) {
        Ok(line) => Ok(Some(packet_of(alloc, line.word, &line.fields)?)),
        Err(_) => Ok(None),
    }
}

/// The keyword and the fields of a line, or where and why the reader stopped. A `$k` of a reply without a value is
/// the fault only of a line without another.
pub fn read_line<'a>(values: &[Option<u32>], line: &'a [u8]) -> Result<Line<'a>, LineFault<'a>>
    ensures { MatchResult result
        (λ read. HasFields values.now read line.now)
        (λ _. IsFaulty values.now line.now) }
{
    let (keyword, rest) = cut(line);
    let Some(word) = Word::of_keyword(keyword) else {
        let found = if keyword.is_empty() { line } else { keyword };
        let expected = Expected::Keyword;
        return Err(LineFault {
            shown: None,
            stop: Stop { expected, found },
        });
    };
    let form = word.form();
    match read_fields(values, form.fields, rest) {
        Ok(fields) => Ok(Line { word, fields }),
        Err(stop) => Err(LineFault {
            shown: Some(form.shown),
            stop: stop.with_fields(rest),
        }),
    }
}
