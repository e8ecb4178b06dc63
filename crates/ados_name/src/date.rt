//! Dates, and their text.
ghost use Rattle.std.specs.Prelude.{◌≡◌, ◌≤◌, IfOk};
ghost use Rattle.std.specs.String.{string_bytes};
ghost use Rattle.ados_name.specs.CivilDay.{IsDaysAfterEpoch};

use crate::Date3;
use jiff::ToSpan;
use jiff::civil::{self, Date};
use std::alloc::{AllocError, Global};

impl Date3 {
    ghost use Rattle.ados_name.specs.Date.{has_civil_text, IsTextOf};

    /// The date as text: `YYYY-MM-DD hh:mm:ss.cc`, or `raw DAYS MINUTES TICKS`. The second form is for days after 31
    /// December 9999, 1,440 minutes or more, and 3,000 ticks or more.
    ///
    /// The hundredths `cc` are even, because a tick has two.
    pub fn text(self, alloc: Global) -> Result<String, AllocError>
        ensures { IfOk result (λ text. IsTextOf self (string_bytes text)) }
    {
        if !self.has_civil_text() {
            return format!(in alloc; "raw {} {} {}", self.days, self.minutes, self.ticks);
        }
        let date = civil_date(self.days);
        let (hour, minute) = (self.minutes / 60, self.minutes % 60);
        let (second, hundredths) = (self.ticks / 50, 2 * (self.ticks % 50));
        format!(in alloc; "{date} {hour:02}:{minute:02}:{second:02}.{hundredths:02}")
    }

    // Whether the year has at most four digits, and minutes and ticks are a time of day.
    fn has_civil_text(self) -> bool
        ensures { result ≡ has_civil_text self }
    {
        self.days <= 2_929_974 && self.minutes < 1_440 && self.ticks < 3_000
    }
}

// The date in the calendar, this many days after 1 January 1978.
fn civil_date(days: u32) -> Date
    requires { days ≤ 2_929_974 }
    ensures { IsDaysAfterEpoch days result }
{
    civil::date(1978, 1, 1)
        .checked_add((days as i64).days())
        .unwrap()
}
