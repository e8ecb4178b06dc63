//! Dates as a person writes them.
ghost use Rattle.std.specs.Prelude.{◌++◌, IfOk, MatchOption};
ghost use Rattle.ados_name.specs.Date.{IsTextOf};
ghost use Rattle.adf_text.specs.Dated.{IsTextOfNone};
ghost use Rattle.adf_text.specs.Written.{HasNoWritten, IsWritten};

use crate::leading_date::date_of_text;
use ados_name::Date3;
use std::alloc::{AllocError, Global};

/// The date that a person wrote: `YYYY-MM-DD`, `YYYY-MM-DD HH:MM`, `YYYY-MM-DD HH:MM:SS` or `YYYY-MM-DD HH:MM:SS.CC`. A
/// part that is left out is zero. `CC` is hundredths of a second, an even number, because a tick has two. Also `raw DAYS
/// MINUTES TICKS`, as `Date3::text` writes a date outside the calendar.
///
/// `None` for any other text: a day that the calendar lacks, one before 1 January 1978, a time past 23:59:59.98.
pub fn written_date(alloc: Global, text: &[u8]) -> Result<Option<Date3>, AllocError>
    ensures { IfOk result (λ found. MatchOption found (HasNoWritten text.now) (λ date. IsWritten date text.now)) }
{
    let whole = date_of_text(alloc, text)?;
    let seconds = completed_date(alloc, text, b".00")?;
    let minutes = completed_date(alloc, text, b":00.00")?;
    let day = completed_date(alloc, text, b" 00:00:00.00")?;
    Ok(whole.or(seconds).or(minutes).or(day))
}

/// The date of a text after which a part was left out.
fn completed_date(alloc: Global, text: &[u8], part: &[u8]) -> Result<Option<Date3>, AllocError>
    ensures { IfOk result (λ found. MatchOption found (IsTextOfNone (text.now ++ part.now)) (λ date. IsTextOf date (text.now ++ part.now))) }
{
    let mut whole = Vec::from_slice(alloc, text)?;
    whole.extend_from_slice(part)?;
    date_of_text(alloc, &whole)
}
