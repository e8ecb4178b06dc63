//! Arguments that are dates.
ghost use Rattle.std.specs.Prelude.{IfErr, IfOk};
ghost use Rattle.adf_cli.specs.When.{IsWhen, TellsNoWhen};

use crate::fault::WordsFault;
use adf_text::written_date;
use ados_name::Date3;
use std::alloc::Global;

/// The moment of the argument with this name; `None` for `now`. Any other text makes the command line wrong.
pub(crate) fn moment_word(
    alloc: Global,
    name: &str,
    word: &str,
) -> Result<Option<Date3>, WordsFault>
    ensures moment { IfOk result (IsWhen word.now) }
    ensures fault { IfErr result (TellsNoWhen word.now) }
{
    if word == "now" {
        return Ok(None);
    }
    match written_date(alloc, word.as_bytes())? {
        Some(date) => Ok(Some(date)),
        None => Err(WordsFault::wrong(
            alloc,
            format_args!(
                "error: invalid value '{word}' for '{name}': now, or a date from 1978-01-01 on, is expected, as YYYY-MM-DD or 'YYYY-MM-DD HH:MM:SS.CC', where .CC, :SS and the time may be left out, and CC is even"
            ),
        )),
    }
}
