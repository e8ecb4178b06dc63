//! Numbers for people, as text that contracts know.
ghost use Rattle.std.specs.Prelude.{◌≡◌, ◌==◌, IfOk, if◌then◌else◌};
ghost use Rattle.std.specs.String.{string_bytes};
ghost use Rattle.adf_record.specs.Shown.{counted, grouped};

use std::alloc::{AllocError, Global};

/// A number with a comma before its last three digits, if it has more.
pub fn grouped_text(alloc: Global, n: u64) -> Result<String, AllocError>
    ensures { IfOk result (λ text. string_bytes text ≡ grouped n) }
{
    if n < 1_000 {
        return format!(in alloc; "{n}");
    }
    let (hundreds, tens, ones) = (n / 100 % 10, n / 10 % 10, n % 10);
    let text = format!(in alloc; "{},{hundreds}{tens}{ones}", n / 1_000)?;
    Ok(text)
}

/// A number, and the word for one or for more.
pub(crate) fn counted(alloc: Global, n: usize, one: &str, more: &str) -> Result<String, AllocError>
    ensures { IfOk result (λ text. string_bytes text ≡ counted n one.now more.now) }
{
    let number = grouped_text(alloc, n as u64)?;
    let word = word_for(n, one, more);
    let text = format!(in alloc; "{} {word}", number.as_str())?;
    Ok(text)
}

/// The word for one, or for another number.
fn word_for<'a>(n: usize, one: &'a str, more: &'a str) -> &'a str
    ensures { result.now ≡ if n == 1 then one.now else more.now }
{
    if n == 1 { one } else { more }
}
