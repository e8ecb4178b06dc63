//! Times of host files as dates of entries, and the way back. Host times are UTC.
ghost use Rattle.std.specs.Prelude.{◌≡◌, ◌+◌, ◌*◌, ◌/◌, ◌<◌};
ghost use Rattle.std.specs.Time.{system_time_nanos};
ghost use Rattle.adf_host.specs.Dates.{IsDateAt, IsWithinDay, nanos_of, DatesComeBack};

use ados_name::Date3;
use std::io;
use std::time::{Clock, Duration, SystemTime, UNIX_EPOCH};

/// Days from 1 January 1970, the start of a host's times, to 1 January 1978, the start of dates.
const DAYS_BEFORE: u64 = 2_922;

/// Seconds in a day.
const DAY_SECONDS: u64 = 86_400;

/// Ticks in a second, in a minute and in a day.
const SECOND_TICKS: u64 = 50;

const MINUTE_TICKS: u64 = 3_000;

const DAY_TICKS: u64 = 4_320_000;

/// Nanoseconds in a tick.
const TICK_NANOS: u32 = 20_000_000;

/// The time of a host file for a date: the start of its tick. Minutes and ticks beyond a day or a minute are added.
pub fn host_time(date: Date3) -> SystemTime
    ensures { system_time_nanos result ≡ nanos_of date }
{
    let days = (DAYS_BEFORE + u64::from(date.days)) * DAY_SECONDS;
    let minutes = u64::from(date.minutes) * 60;
    let seconds = u64::from(date.ticks) / SECOND_TICKS;
    let nanos = date.ticks % 50 * TICK_NANOS;
    UNIX_EPOCH + Duration::new(days + minutes + seconds, nanos)
}

/// The date of a host's time: the last tick that is not after it. A time before 1978 is the first date, one after the
/// last day the last date.
pub fn date_of_time(time: SystemTime) -> Date3
    ensures { IsDateAt (system_time_nanos time) result }
{
    let since = match time.duration_since(UNIX_EPOCH) {
        Ok(since) => since,
        Err(_) => Duration::ZERO,
    };
    let days = since.as_secs() / DAY_SECONDS;
    if days < DAYS_BEFORE {
        return FIRST;
    }
    match u32::try_from(days - DAYS_BEFORE) {
        Ok(days) => date_on(days, since.as_secs() % DAY_SECONDS, since.subsec_nanos()),
        Err(_) => LAST,
    }
}

/// The first date, and the last.
const FIRST: Date3 = Date3 {
    days: 0,
    minutes: 0,
    ticks: 0,
};

const LAST: Date3 = Date3 {
    days: u32::MAX,
    minutes: 1_439,
    ticks: 2_999,
};

/// The date at this many seconds and nanoseconds of a day.
fn date_on(days: u32, seconds: u64, nanos: u32) -> Date3
    requires seconds { seconds < 86_400 }
    requires nanos { nanos < 1_000_000_000 }
    ensures days { result.days ≡ days }
    ensures proper { IsWithinDay result }
    ensures ticks { 3_000 * result.minutes + result.ticks ≡ 50 * seconds + nanos / 20_000_000 }
{
    Date3 {
        days,
        minutes: (seconds / 60) as u32,
        ticks: (seconds % 60) as u32 * 50 + nanos / TICK_NANOS,
    }
}

/// The time of the host's clock, as a date.
pub fn moment_of<C: Clock>(clock: &C) -> io::Result<Date3> {
    Ok(date_of_time(SystemTime::now(clock)?))
}

/// A date with a valid time of day is read back from its host time.
pub fn dates_come_back()
    ensures { DatesComeBack }
{}
