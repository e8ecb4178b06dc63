//! The text that shows a boot block.
ghost use Rattle.std.specs.Prelude.{◌≡◌, ◌≢◌, ◌<◌, ◌≤◌, ◌-◌, ◌++◌, ℕ, IfOk, OnOk, length, slice_index};
ghost use Rattle.adf_block.specs.BootText.{IsBootText, code_line, hex_line, hex_lines};

use crate::Image;
use crate::code::{BootCode, boot_bytes, boot_code};
use crate::hex::{push_byte, push_bytes, push_letters};
use std::alloc::{AllocError, Global};

/// Bytes in a line.
const LINE: usize = 16;

/// The text that shows the boot block of an image: a line that says what it is, then its bytes as hexadecimal digits, 16 a
/// line with their offset and their letters, up to the line of the last byte that is not zero.
pub fn boot_text(alloc: Global, image: &Image) -> Result<Vec<u8>, AllocError>
    ensures { IfOk result (λ text. IsBootText image.now text.items) }
{
    let bytes = boot_bytes(image);
    let mut text = Vec::new(alloc);
    text.extend_from_slice(code_line(boot_code(image)).as_bytes())?;
    push_lines(&mut text, bytes, end_of(bytes).div_ceil(LINE))?;
    Ok(text)
}

/// The line that says what a boot block is.
pub fn code_line(code: BootCode) -> &'static str
    ensures { result.now ≡ code_line code }
{
    match code {
        BootCode::Empty => "boot block: none\n",
        BootCode::Wrong => "boot block: custom, checksum wrong: not bootable\n",
        BootCode::Standard => "boot block: standard\n",
        BootCode::Custom => "boot block: custom, checksum right\n",
    }
}

/// The number of these bytes up to the last one that is not zero.
fn end_of(bytes: &[u8]) -> usize
    ensures bound { result ≤ length bytes.now }
    ensures zeros { (k : ℕ) → result ≤ k → slice_index bytes.now k ≡ 0 }
    ensures last { 0 < result → slice_index bytes.now (result - 1) ≢ 0 }
{
    let mut end = bytes.len();
    while end > 0 && bytes[end - 1] == 0 {
        end -= 1;
    }
    end
}

/// Appends the first lines of a boot block's bytes.
fn push_lines(text: &mut Vec<u8>, bytes: &[u8], count: usize) -> Result<(), AllocError>
    requires whole { length bytes.now ≡ 1024 }
    requires count { count ≤ 64 }
    ensures { OnOk result (text.new.items ≡ text.old.items ++ hex_lines bytes.now count) }
{
    for line in 0..count {
        let at = LINE * line;
        push_line(text, at, &bytes[at..at + LINE])?;
    }
    Ok(())
}

/// Appends a line: the offset, the bytes, and their letters.
fn push_line(text: &mut Vec<u8>, at: usize, bytes: &[u8]) -> Result<(), AllocError>
    requires { at < 1024 }
    ensures { OnOk result (text.new.items ≡ text.old.items ++ hex_line at bytes.now) }
{
    push_byte(text, (at / 256) as u8)?;
    push_byte(text, (at % 256) as u8)?;
    text.push(b' ')?;
    push_bytes(text, bytes)?;
    text.extend_from_slice(b"  |")?;
    push_letters(text, bytes)?;
    text.extend_from_slice(b"|\n")
}
