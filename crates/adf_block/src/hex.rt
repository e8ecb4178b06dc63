//! Bytes as hexadecimal digits, and as letters.
ghost use Rattle.std.specs.Prelude.{◌≡◌, ◌<◌, ◌++◌, OnOk, flat_map, map};
ghost use Rattle.adf_block.specs.BootText.{hex_byte, hex_digit, letter, spaced_byte};

use std::alloc::AllocError;

/// Appends a space and two digits for each byte.
pub(crate) fn push_bytes(text: &mut Vec<u8>, bytes: &[u8]) -> Result<(), AllocError>
    ensures { OnOk result (text.new.items ≡ text.old.items ++ flat_map spaced_byte bytes.now) }
{
    for byte in bytes {
        text.push(b' ')?;
        push_byte(text, *byte)?;
    }
    Ok(())
}

/// Appends two lower-case digits for a byte.
pub(crate) fn push_byte(text: &mut Vec<u8>, byte: u8) -> Result<(), AllocError>
    ensures { OnOk result (text.new.items ≡ text.old.items ++ hex_byte byte) }
{
    text.push(digit(byte / 16))?;
    text.push(digit(byte % 16))?;
    Ok(())
}

/// A lower-case hexadecimal digit.
fn digit(n: u8) -> u8
    requires { n < 16 }
    ensures { result ≡ hex_digit n }
{
    if n < 10 { b'0' + n } else { b'a' - 10 + n }
}

/// Appends each byte as a letter.
pub(crate) fn push_letters(text: &mut Vec<u8>, bytes: &[u8]) -> Result<(), AllocError>
    ensures { OnOk result (text.new.items ≡ text.old.items ++ map letter bytes.now) }
{
    for byte in bytes {
        text.push(letter(*byte))?;
    }
    Ok(())
}

/// A printable byte of ASCII as it is, any other byte as a dot.
fn letter(byte: u8) -> u8
    ensures { result ≡ letter byte }
{
    if 32 <= byte && byte < 127 { byte } else { b'.' }
}
