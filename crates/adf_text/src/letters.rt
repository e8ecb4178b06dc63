//! Letters of ISO 8859-1 for the bytes of names, comments and paths.
ghost use Rattle.std.specs.Prelude.{◌≡◌, IfOk, IfErr, OnOk, All};
ghost use Rattle.std.specs.Str.{chars};
ghost use Rattle.std.specs.String.{string_bytes};
ghost use Rattle.adf_text.specs.Letters.{IsByte, letters, IsFaultOf, LettersComeBack};

use std::alloc::{AllocError, Global};

/// Why a text has no bytes.
#[derive(Clone, Copy, PartialEq, Eq)]
pub enum LettersFault {
    /// The first letter past U+00FF, and the number of letters before it.
    NoByte { letter: char, place: usize },
    /// Out of memory.
    Memory,
}

impl From<AllocError> for LettersFault {
    ghost use Rattle.std.specs.Prelude.{◌≡◌};
    ghost use Rattle.adf_text.specs.declared.letters.LettersFault.TheVariants.{Memory};

    ghost from_gives = { λ _ fault. fault ≡ Memory };

    fn from(_: AllocError) -> Self {
        LettersFault::Memory
    }
}

/// The letters of these bytes, as text in UTF-8: byte b is the letter U+00b (ISO 8859-1).
pub fn letter_text(alloc: Global, bytes: &[u8]) -> Result<String, AllocError>
    ensures { IfOk result (λ text. string_bytes text ≡ letters bytes.now) }
{
    bytes.iter().map(|byte| char::from(*byte)).collect(alloc)
}

/// The bytes of a text's letters. It fails for a letter past U+00FF, or if memory runs out.
pub fn letter_bytes(alloc: Global, text: &str) -> Result<Vec<u8>, LettersFault>
    ensures ok { IfOk result (λ bytes. letters bytes.items ≡ text.now) }
    ensures letters { OnOk result (All IsByte (chars text.now)) }
    ensures fault { IfErr result (IsFaultOf text.now) }
{
    let mut bytes = Vec::new(alloc);
    for letter in text.chars() {
        match u8::try_from(letter) {
            Ok(byte) => bytes.push(byte).map_err(AllocError::from)?,
            Err(_) => {
                return Err(LettersFault::NoByte {
                    letter,
                    place: bytes.len(),
                });
            }
        }
    }
    Ok(bytes)
}

/// The letters of bytes are read back as these bytes.
pub fn letters_come_back()
    ensures { LettersComeBack }
{}
