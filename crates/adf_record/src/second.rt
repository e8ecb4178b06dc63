//! Dates to the second.
ghost use Rattle.std.specs.Prelude.{◌≡◌, ◌==◌, OnOk, position};
ghost use Rattle.adf_record.specs.Second.{PushesSecond, to_second};

use ados_name::Date3;
use std::alloc::{AllocError, Global};

/// Appends the text of a date without hundredths of a second.
pub fn push_second(alloc: Global, text: &mut Vec<u8>, date: Date3) -> Result<(), AllocError>
    ensures { OnOk result (PushesSecond text.old.items text.new.items date) }
{
    let whole = date.text(alloc)?;
    text.extend_from_slice(to_second(whole.as_bytes()))?;
    Ok(())
}

/// The text of a date up to its full stop, if it has one.
fn to_second(date: &[u8]) -> &[u8]
    ensures { result.now ≡ to_second date.now }
{
    match full_stop(date) {
        Some(place) => &date[..place],
        None => date,
    }
}

/// The position of the first full stop.
fn full_stop(text: &[u8]) -> Option<usize>
    ensures { result ≡ position (λ c. c == 46) text.now }
{
    text.iter().position(|byte| *byte == b'.')
}
