//! A boot block as a JSON object.
ghost use Rattle.std.specs.Prelude.{◌≡◌, ◌++◌, IfOk, OnOk};
ghost use Rattle.adf_record.specs.BootObject.{IsBootObject, boot_tokens};

use crate::members::put_text;
use crate::words::boot_word;
use adf_block::{BootCode, Image, boot_bytes, boot_code};
use json::Writer;
use std::alloc::{AllocError, Global};

/// What the boot block of an image is, and its bytes as hexadecimal digits, as a JSON object on a line of its own.
pub fn boot_object(alloc: Global, image: &Image) -> Result<Vec<u8>, AllocError>
    ensures { IfOk result (λ text. IsBootObject image.now text.items) }
{
    let digits = hex::encode(alloc, boot_bytes(image))?;
    let mut writer = Writer::new(Vec::new(alloc));
    put_boot(&mut writer, boot_code(image), digits.as_str())?;
    let mut text = writer.into_inner();
    text.push(b'\n')?;
    Ok(text)
}

/// Writes the object of a boot block with these digits.
fn put_boot(writer: &mut Writer, code: BootCode, digits: &str) -> Result<(), AllocError>
    ensures before { writer.new.before ≡ writer.old.before }
    ensures tokens { OnOk result (writer.new.tokens ≡ writer.old.tokens ++ boot_tokens code digits.now) }
{
    writer.begin_object()?;
    put_text(writer, "boot", Some(boot_word(code)))?;
    put_text(writer, "bytes", Some(digits))?;
    writer.end_object()
}
