//! Signed numbers in a line.
ghost use Rattle.std.specs.Prelude.{ℤ, MatchOption};
ghost use Rattle.adf_script.specs.Grammar.{IsSigned};

/// The signed decimal number of 32 bits in a field, with an optional `-`.
pub(crate) fn signed(field: &[u8]) -> Option<i32>
    ensures { MatchOption result ((z : ℤ) → IsSigned z field.now → ⊥) (λ z. IsSigned z field.now) }
{
    if field.first() == Some(&b'+') {
        return None;
    }
    match str::from_utf8(field) {
        Ok(text) => text.parse().ok(),
        Err(_) => None,
    }
}
