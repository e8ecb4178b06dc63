//! Dates for C, as texts and as times of a host, in both directions.

ghost use Rattle.std.specs.Prelude.{◌≡◌, ◌<◌, ◌≤◌, MatchResult};
ghost use Rattle.std.specs.String.{string_bytes};
ghost use Rattle.std.specs.Time.{system_time_nanos};
ghost use Rattle.std.specs.Duration.{as_nanos};
ghost use Rattle.ados_name.specs.Date.{IsTextOf};
ghost use Rattle.adf_text.specs.Dated.{IsTextOfNone};
ghost use Rattle.adf_host.specs.Dates.{IsDateAt, nanos_of};
ghost use Rattle.adf_c.specs.Buffers.{Refuses};
ghost use Rattle.adf_c.specs.Dates.{second_nanos, since_1970};
ghost use Rattle.adf_c.specs.declared.values.refusal.Refusal.TheVariants.{WrongArgument as Wrong};

use crate::values::refusal::Refusal;
use ados_name::Date3;
use std::alloc::Global;
use std::time::{Duration, SystemTime, UNIX_EPOCH};

/// Nanoseconds in a second.
const SECOND_NANOS: u32 = 1_000_000_000;

/// The text of a date: `YYYY-MM-DD hh:mm:ss.cc`, or `raw DAYS MINUTES TICKS` if it has none of this form.
pub fn text_of_date(alloc: Global, date: Date3) -> Result<String, Refusal>
    ensures { MatchResult result (λ text. IsTextOf date (string_bytes text)) (Refuses ⊥) }
{
    match date.text(alloc) {
        Ok(text) => Ok(text),
        Err(_) => Err(Refusal::NoMemory),
    }
}

/// The date that has this text, in the form of `text_of_date`.
///
/// Errors: `WrongArgument` if no date has this text.
pub fn date_of_text(alloc: Global, text: &[u8]) -> Result<Date3, Refusal>
    ensures { MatchResult result (λ date. IsTextOf date text.now) (Refuses (IsTextOfNone text.now)) }
{
    match adf_text::date_of_text(alloc, text) {
        Ok(Some(date)) => Ok(date),
        Ok(None) => Err(Refusal::WrongArgument),
        Err(_) => Err(Refusal::NoMemory),
    }
}

/// The date at a host's time, in seconds and nanoseconds since 1970: the last tick that is not after it. A time before
/// 1978 is the first date, and one after the last day the last date.
///
/// Errors: `WrongArgument` for a second or more in nanoseconds.
pub fn date_of_time(seconds: i64, nanoseconds: u32) -> Result<Date3, Refusal>
    ensures { MatchResult result (λ date. (nanoseconds < second_nanos) × IsDateAt (since_1970 seconds nanoseconds) date)
        (λ refusal. (refusal ≡ Wrong) × (second_nanos ≤ nanoseconds)) }
{
    if nanoseconds >= SECOND_NANOS {
        return Err(Refusal::WrongArgument);
    }
    Ok(adf_host::date_of_time(time_at(seconds, nanoseconds)))
}

/// The time so long after 1970; the start of 1970 for a time before.
fn time_at(seconds: i64, nanoseconds: u32) -> SystemTime
    requires { nanoseconds < 1_000_000_000 }
    ensures { system_time_nanos result ≡ since_1970 seconds nanoseconds }
{
    match u64::try_from(seconds) {
        Ok(seconds) => UNIX_EPOCH + Duration::new(seconds, nanoseconds),
        Err(_) => UNIX_EPOCH,
    }
}

/// How long after 1970 the time of a host for a date is: the start of its tick. Minutes beyond a day and ticks beyond a
/// minute are added.
pub fn time_of_date(date: Date3) -> Duration
    ensures { as_nanos result ≡ nanos_of date }
{
    match adf_host::host_time(date).duration_since(UNIX_EPOCH) {
        Ok(since) => since,
        Err(_) => Duration::ZERO,
    }
}
