//! Names and letters for C, in both directions.

ghost use Rattle.std.specs.Prelude.{◌≡◌, MatchResult};
ghost use Rattle.std.specs.String.{string_bytes};
ghost use Rattle.ados_name.specs.Name.{IsName};
ghost use Rattle.adf_text.specs.Letters.{letters};
ghost use Rattle.adf_c.specs.Buffers.{Refuses};
ghost use Rattle.adf_c.specs.Names.{AreBytesOf, HasByteLetters, IsHostOf, IsNamedBy};

use crate::values::refusal::Refusal;
use adf_text::{LettersFault, host_name, host_name_bytes, letter_bytes, letter_text};
use ados_name::Name;
use std::alloc::Global;
use std::str;

/// The name of the host file for an entry's name, in UTF-8.
///
/// Errors: `WrongArgument` if the bytes are not a name.
pub fn host_of_name(alloc: Global, name: &[u8]) -> Result<String, Refusal>
    ensures { MatchResult result (λ text. IsHostOf name.now (string_bytes text)) (Refuses (¬ IsName name.now)) }
{
    let Ok(name) = Name::new(name) else {
        return Err(Refusal::WrongArgument);
    };
    match host_name(alloc, &name) {
        Ok(text) => Ok(text),
        Err(_) => Err(Refusal::NoMemory),
    }
}

/// The bytes that the name of a host file stands for. They may be no name.
///
/// Errors: `WrongArgument` if the name is not UTF-8, or if a letter is not in ISO 8859-1.
pub fn name_of_host(alloc: Global, host: &[u8]) -> Result<Vec<u8>, Refusal>
    ensures { MatchResult result (λ bytes. IsNamedBy host.now bytes.items) (Refuses (¬ HasByteLetters host.now)) }
{
    let Ok(text) = str::from_utf8(host) else {
        return Err(Refusal::WrongArgument);
    };
    match host_name_bytes(alloc, text) {
        Ok(bytes) => Ok(bytes),
        Err(LettersFault::NoByte { .. }) => Err(Refusal::WrongArgument),
        Err(LettersFault::Memory) => Err(Refusal::NoMemory),
    }
}

/// The letters of bytes in UTF-8.
pub fn letters_of_bytes(alloc: Global, bytes: &[u8]) -> Result<String, Refusal>
    ensures { MatchResult result (λ text. string_bytes text ≡ letters bytes.now) (Refuses ⊥) }
{
    match letter_text(alloc, bytes) {
        Ok(text) => Ok(text),
        Err(_) => Err(Refusal::NoMemory),
    }
}

/// The bytes of a text's letters.
///
/// Errors: `WrongArgument` if the text is not UTF-8, or if a letter is not in ISO 8859-1.
pub fn bytes_of_letters(alloc: Global, text: &[u8]) -> Result<Vec<u8>, Refusal>
    ensures { MatchResult result (λ bytes. AreBytesOf text.now bytes.items) (Refuses (¬ HasByteLetters text.now)) }
{
    let Ok(letters) = str::from_utf8(text) else {
        return Err(Refusal::WrongArgument);
    };
    match letter_bytes(alloc, letters) {
        Ok(bytes) => Ok(bytes),
        Err(LettersFault::NoByte { .. }) => Err(Refusal::WrongArgument),
        Err(LettersFault::Memory) => Err(Refusal::NoMemory),
    }
}
