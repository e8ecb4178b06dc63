//! What the standard streams of a command are, and what the environment says of the screen.
use std::env::FillError;
use std::rt::Env;

/// The letters of a line of help if the environment does not say how wide the screen is.
const USUAL_COLUMNS: usize = 80;

/// What the standard streams of a command are.
#[derive(Clone, Copy)]
pub struct Screen {
    /// Whether the progress of a check is printed on standard error.
    pub progress: bool,
    /// Whether text for people may have bold letters.
    pub styled: bool,
}

/// Whether a terminal may get bold letters: not if the environment variable `NO_COLOR` is set and not empty.
pub(crate) fn takes_bold<T: Env>(rt: &T) -> bool {
    let mut first = [0; 1];
    match rt.var("NO_COLOR", &mut first) {
        Ok(length) => length == 0,
        Err(FillError::NotPresent) => true,
        Err(FillError::TooLong) => false,
    }
}

/// How wide the screen is: the number in the environment variable `COLUMNS`, if it is one above 0. The kit has no call that
/// asks the terminal.
pub(crate) fn columns<T: Env>(rt: &T) -> usize {
    match number_of(rt) {
        Some(number) if number > 0 => number as usize,
        _ => USUAL_COLUMNS,
    }
}

/// The number in the environment variable `COLUMNS`.
fn number_of<T: Env>(rt: &T) -> Option<u16> {
    let mut digits = [0; 5];
    let length = rt.var("COLUMNS", &mut digits).ok()?;
    std::str::from_utf8(digits.get(..length)?)
        .ok()?
        .parse()
        .ok()
}
