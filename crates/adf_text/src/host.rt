//! Names of entries as names of host files.
ghost use Rattle.std.specs.Prelude.{◌≡◌, IfOk, IfErr, OnOk, All};
ghost use Rattle.std.specs.Str.{chars};
ghost use Rattle.std.specs.String.{string_bytes};
ghost use Rattle.adf_text.specs.Letters.{IsByte, IsFaultOf};
ghost use Rattle.adf_text.specs.Escapes.{unescaped};
ghost use Rattle.adf_text.specs.HostNames.{host_letters, host_name, IsHostName, HostNamesComeBack};

use crate::escapes::{Place, escaped};
use crate::letters::{LettersFault, letter_bytes, letter_text};
use ados_name::Name;
use percent_encoding::percent_decode;
use std::alloc::{AllocError, Global};

/// The name of an entry as the name of a host file: its letters in UTF-8. The bytes 00 to 1F and 7F to 9F, `%` and `\`
/// become `%` and two upper-case hexadecimal digits, and so does the first dot of `.` and `..`.
pub fn host_name(alloc: Global, name: &Name) -> Result<String, AllocError>
    ensures value { IfOk result (λ text. string_bytes text ≡ host_name name.now) }
    ensures fit { IfOk result (λ text. IsHostName (string_bytes text)) }
{
    letter_text(alloc, &host_letters(alloc, name.bytes())?)
}

fn host_letters(alloc: Global, name: &[u8]) -> Result<Vec<u8>, AllocError>
    ensures { IfOk result (λ letters. letters.items ≡ host_letters name.now) }
{
    if name == b".".as_slice() {
        return Vec::from_slice(alloc, b"%2E");
    }
    if name == b"..".as_slice() {
        return Vec::from_slice(alloc, b"%2E.");
    }
    escaped(alloc, name, Place::HostName)
}

/// The bytes of a host file's name: its letters, with each `%` and two hexadecimal digits as the byte of these digits.
/// Any other `%` is the byte `%`.
///
/// It fails for a letter past U+00FF, or if memory runs out. `Name::new` then checks whether the bytes are a name.
pub fn host_name_bytes(alloc: Global, text: &str) -> Result<Vec<u8>, LettersFault>
    ensures ok { IfOk result (λ bytes. bytes.items ≡ unescaped text.now) }
    ensures letters { OnOk result (All IsByte (chars text.now)) }
    ensures fault { IfErr result (IsFaultOf text.now) }
{
    let letters = letter_bytes(alloc, text)?;
    let mut bytes = Vec::new(alloc);
    percent_decode(&letters).append_to(&mut bytes)?;
    Ok(bytes)
}

/// The host name of an entry is read back as the entry's name.
pub fn host_names_come_back()
    ensures { HostNamesComeBack }
{}
