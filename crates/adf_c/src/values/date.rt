//! Dates for C.

ghost use Rattle.std.specs.Prelude.{◌≡◌};
ghost use Rattle.adf_c.specs.Dates.{date_of, told_date};

use ados_name::Date3;

/// A date for C: days since 1 January 1978, minutes since midnight, ticks of 1/50 second in the minute.
#[repr(C)]
#[derive(Clone, Copy)]
pub struct JipDate {
    pub days: u32,
    pub minutes: u32,
    pub ticks: u32,
}

impl JipDate {
    /// A date for C.
    pub fn of(date: Date3) -> JipDate
        ensures { result ≡ told_date date }
    {
        JipDate {
            days: date.days,
            minutes: date.minutes,
            ticks: date.ticks,
        }
    }

    /// The same date for the crates below.
    pub fn date(self) -> Date3
        ensures { result ≡ date_of self }
    {
        Date3 {
            days: self.days,
            minutes: self.minutes,
            ticks: self.ticks,
        }
    }
}
