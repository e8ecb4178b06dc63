//! Lower-case hexadecimal digits.
ghost use Rattle.std.specs.Prelude.{◌≡◌, ◌<◌, ◌++◌, OnOk, flat_map};
ghost use Rattle.adf_script.specs.Text.{hex_digit, hex_byte, hex_long};

use std::alloc::AllocError;

/// Appends two digits for each byte.
pub(crate) fn push_hex(text: &mut Vec<u8>, bytes: &[u8]) -> Result<(), AllocError>
    ensures { OnOk result (text.new.items ≡ text.old.items ++ flat_map hex_byte bytes.now) }
{
    for byte in bytes {
        push_hex_byte(text, *byte)?;
    }
    Ok(())
}

pub(crate) fn push_hex_long(text: &mut Vec<u8>, n: u32) -> Result<(), AllocError>
    ensures { OnOk result (text.new.items ≡ text.old.items ++ hex_long n) }
{
    push_hex_byte(text, (n / 0x100_0000) as u8)?;
    push_hex_byte(text, (n / 0x1_0000 % 256) as u8)?;
    push_hex_byte(text, (n / 0x100 % 256) as u8)?;
    push_hex_byte(text, (n % 256) as u8)
}

fn push_hex_byte(text: &mut Vec<u8>, byte: u8) -> Result<(), AllocError>
    ensures { OnOk result (text.new.items ≡ text.old.items ++ hex_byte byte) }
{
    text.push(digit(byte / 16))?;
    text.push(digit(byte % 16))?;
    Ok(())
}

/// A lower-case hexadecimal digit.
fn digit(n: u8) -> u8
    requires { n < 16 }
    ensures { result ≡ hex_digit n }
{
    if n < 10 { b'0' + n } else { b'a' - 10 + n }
}
