//! Unsigned numbers in a line, and values of replies.
ghost use Rattle.std.specs.Prelude.{◌≡◌, ◌≤◌, ℕ, MatchOption};
ghost use Rattle.adf_script.specs.Values.{reply_value};
ghost use Rattle.adf_script.specs.Grammar.{IsNumber, IsValue};

use crate::pieces::behind;

/// The most bytes that a READ in a script requests.
const LONGEST_READ: u32 = 1_048_576;

/// The unsigned decimal number of 32 bits in a field.
pub(crate) fn number(field: &[u8]) -> Option<u32>
    ensures { MatchOption result ((n : ℕ) → IsNumber n field.now → ⊥) (λ n. IsNumber n field.now) }
{
    if field.first() == Some(&b'+') {
        return None;
    }
    match str::from_utf8(field) {
        Ok(text) => text.parse().ok(),
        Err(_) => None,
    }
}

/// The number of bytes of a READ in a field.
pub(crate) fn count(field: &[u8]) -> Option<u32>
    ensures { MatchOption result
        ((n : ℕ) → n ≤ 1048576 → IsNumber n field.now → ⊥)
        (λ n. (n ≤ 1048576) × IsNumber n field.now) }
{
    match number(field) {
        Some(n) if n <= LONGEST_READ => Some(n),
        _ => None,
    }
}

/// The value of the reply with this number, from 1.
fn reply_value(values: &[Option<u32>], number: u32) -> Option<u32>
    ensures { result ≡ reply_value values.now number }
{
    let place = (number as usize).checked_sub(1)?;
    *values.get(place)?
}

/// The number in a field; after a `$`, the value of the reply with that number.
pub(crate) fn value(values: &[Option<u32>], field: &[u8]) -> Option<u32>
    ensures { MatchOption result ((n : ℕ) → IsValue values.now n field.now → ⊥) (λ n. IsValue values.now n field.now) }
{
    match behind(field, b'$') {
        Some(digits) => reply_value(values, number(digits)?),
        None => number(field),
    }
}
