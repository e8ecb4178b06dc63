//! Names, letters and protection bits for C, in both directions.
//!
//! A text goes into a buffer of the caller, and its length in bytes into `length`. If the buffer is shorter, it is unchanged.

ghost use Rattle.std.specs.Prelude.{◌≡◌, ◌⊎◌, pos};
ghost use Rattle.ados_name.specs.Name.{IsName};
ghost use Rattle.adf_text.specs.Letters.{letters};
ghost use Rattle.adf_text.specs.ProtectionLetters.{protection_letters as letters_of};
ghost use Rattle.adf_c.specs.Buffers.{Puts, TextEnds};
ghost use Rattle.adf_c.specs.Names.{AreBytesOf, BitsEnd, HasByteLetters, IsHostOf, IsNamedBy};

use crate::values::{Refusal, bytes_of_letters, host_of_name, letters_of_bytes, name_of_host, put};
use adf_text::{protection_letters, protection_of_letters};
use ados_name::{Name, Protect};
use std::alloc::Global;

/// Whether the bytes are a name of an entry: 1 if so, else 0.
#[unsafe(no_mangle)]
pub extern "C" fn jip_lib_is_name(name: &[u8]) -> i32
    ensures { ((result ≡ pos 1) × IsName name.now) ⊎ ((result ≡ pos 0) × (¬ IsName name.now)) }
{
    match Name::new(name) {
        Ok(_) => 1,
        Err(_) => 0,
    }
}

/// The name of the host file for an entry's name, in UTF-8. The status is 0.
///
/// Status 2: out of memory. Status 3: the bytes are not a name. In these cases `to` and `length` are unchanged.
#[unsafe(no_mangle)]
pub extern "C" fn jip_lib_host_of_name(
    alloc: Global,
    name: &[u8],
    to: &mut [u8],
    length: &mut usize,
) -> i32
    ensures { TextEnds (IsHostOf name.now) (¬ IsName name.now) to.old to.new length.old length.new result }
{
    match host_of_name(alloc, name) {
        Ok(text) => {
            *length = put(text.as_bytes(), to);
            0
        }
        Err(refusal) => refusal.number(),
    }
}

/// The bytes that the name of a host file stands for. The status is 0. `jip_lib_is_name` says whether they are a name.
///
/// Status 2: out of memory. Status 3: the name is not UTF-8, or a letter is not in ISO 8859-1. In these cases `to` and
/// `length` are unchanged.
#[unsafe(no_mangle)]
pub extern "C" fn jip_lib_name_of_host(
    alloc: Global,
    host: &[u8],
    to: &mut [u8],
    length: &mut usize,
) -> i32
    ensures { TextEnds (IsNamedBy host.now) (¬ HasByteLetters host.now) to.old to.new length.old length.new result }
{
    match name_of_host(alloc, host) {
        Ok(bytes) => {
            *length = put(&bytes, to);
            0
        }
        Err(refusal) => refusal.number(),
    }
}

/// The letters of bytes in UTF-8. The status is 0, or 2 if memory runs out; then `to` and `length` are unchanged.
#[unsafe(no_mangle)]
pub extern "C" fn jip_lib_letters_of_bytes(
    alloc: Global,
    bytes: &[u8],
    to: &mut [u8],
    length: &mut usize,
) -> i32
    ensures { TextEnds (λ text. text ≡ letters bytes.now) ⊥ to.old to.new length.old length.new result }
{
    match letters_of_bytes(alloc, bytes) {
        Ok(text) => {
            *length = put(text.as_bytes(), to);
            0
        }
        Err(refusal) => refusal.number(),
    }
}

/// The bytes of a text's letters. The status is 0.
///
/// Status 2: out of memory. Status 3: the text is not UTF-8, or a letter is not in ISO 8859-1. In these cases `to` and
/// `length` are unchanged.
#[unsafe(no_mangle)]
pub extern "C" fn jip_lib_bytes_of_letters(
    alloc: Global,
    text: &[u8],
    to: &mut [u8],
    length: &mut usize,
) -> i32
    ensures { TextEnds (AreBytesOf text.now) (¬ HasByteLetters text.now) to.old to.new length.old length.new result }
{
    match bytes_of_letters(alloc, text) {
        Ok(bytes) => {
            *length = put(&bytes, to);
            0
        }
        Err(refusal) => refusal.number(),
    }
}

/// The low eight protection bits as `hsparwed`, with a dash for each letter that is not shown. The status is 0.
#[unsafe(no_mangle)]
pub extern "C" fn jip_lib_letters_of_protection(bits: u32, to: &mut [u8], length: &mut usize) -> i32
    ensures status { result ≡ pos 0 }
    ensures letters { Puts (letters_of bits) to.old to.new length.new }
{
    *length = put(&protection_letters(Protect(bits)), to);
    0
}

/// The protection bits of eight such places, or of some of the letters in any order. The status is 0.
///
/// Status 3: the text is neither; the bits are unchanged.
#[unsafe(no_mangle)]
pub extern "C" fn jip_lib_protection_of_letters(letters: &[u8], bits: &mut u32) -> i32
    ensures { BitsEnd letters.now bits.old bits.new result }
{
    match protection_of_letters(letters) {
        Some(protect) => {
            *bits = protect.bits();
            0
        }
        None => Refusal::WrongArgument.number(),
    }
}
