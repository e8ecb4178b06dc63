//! Numbers for people.
use std::fmt;
use std::fmt::{Display, Formatter};

/// A number with a comma before each three digits, as 101,602.
#[derive(Clone, Copy, PartialEq, Eq)]
pub struct Grouped(pub u64);

/// What each group of digits counts.
const SCALES: [u64; 7] = [
    1_000_000_000_000_000_000,
    1_000_000_000_000_000,
    1_000_000_000_000,
    1_000_000_000,
    1_000_000,
    1_000,
    1,
];

impl Display for Grouped {
    fn fmt<W: fmt::Write>(&self, f: &mut Formatter<W>) -> fmt::Result {
        for scale in SCALES {
            let whole = self.0.checked_div(scale).unwrap_or(0);
            let (before, group) = (whole / 1_000, whole % 1_000);
            if before > 0 {
                write!(f, ",{group:03}")?;
            } else if group > 0 || scale == 1 {
                write!(f, "{group}")?;
            }
        }
        Ok(())
    }
}
