//! The time stamp of AmigaDOS.

/// A DateStamp: days since 1 January 1978, minutes since midnight, ticks of 1/50 second in the minute. Any three
/// numbers are a date. Not every date has a calendar text.
#[derive(Clone, Copy, PartialEq, Eq)]
pub struct Date3 {
    pub days: u32,
    pub minutes: u32,
    pub ticks: u32,
}
