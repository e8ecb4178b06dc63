//! Splits at a separating byte.
ghost use Rattle.std.specs.Prelude.{◌≡◌, ◌≢◌, ◌==◌, ◌∷◌, ℕ, List, false, position, MatchOption};
ghost use Rattle.adf_script.specs.Pieces.{has_byte, IsSplit, IsCut};

/// The position of the first such byte.
fn place_of(bytes: &[u8], separator: u8) -> Option<usize>
    ensures { result ≡ position (λ byte. byte == separator) bytes.now }
{
    bytes.iter().position(|byte| *byte == separator)
}

/// The bytes before the first separator and those after it, or `None`.
pub fn split_once(bytes: &[u8], separator: u8) -> Option<(&[u8], &[u8])>
    ensures { MatchOption result
        (has_byte separator bytes.now ≡ false)
        (λ parts. IsSplit separator bytes.now parts.0.now parts.1.now) }
{
    match place_of(bytes, separator) {
        Some(place) => Some((&bytes[..place], &bytes[place + 1..])),
        None => None,
    }
}

/// The bytes before the first space, and the rest from that space.
pub(crate) fn cut(bytes: &[u8]) -> (&[u8], &[u8])
    ensures { IsCut bytes.now result.0.now result.1.now }
{
    match place_of(bytes, b' ') {
        Some(place) => (&bytes[..place], &bytes[place..]),
        None => (bytes, &[]),
    }
}

/// The bytes after this byte, if it is the first one.
pub(crate) fn behind(bytes: &[u8], byte: u8) -> Option<&[u8]>
    ensures { MatchOption result
        ((rest : List ℕ) → bytes.now ≢ byte ∷ rest)
        (λ rest. bytes.now ≡ byte ∷ rest.now) }
{
    if bytes.first() == Some(&byte) {
        Some(&bytes[1..])
    } else {
        None
    }
}
