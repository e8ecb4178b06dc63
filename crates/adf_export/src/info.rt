//! The result of DISK_INFO as text, and whether the disk is bootable.
ghost use Rattle.std.specs.Prelude.{◌≡◌, IfOk, OnOk, OnErr};
ghost use Rattle.std.specs.Io.KnownBytes.{Appends, Keeps};
ghost use Rattle.adf_io.specs.Prefix.{WritesFront};
ghost use Rattle.adf_export.specs.Info.{boot_line, info_text, is_bootable};

use crate::info_object::info_object;
use adf_block::Image;
use adf_io::{PrintFault, write_text};
use adf_script::text::results_text;
use ados_model::Answer;
use std::alloc::{AllocError, Global};
use std::io::Write;

/// Writes the results of an answer to DISK_INFO as a script prints them, then `boot yes` or `boot no`: whether the
/// boot checksum is right. With `json` it writes an object with both. If memory runs out, nothing is written.
pub fn write_info<W: Write>(
    alloc: Global,
    answer: &Answer,
    image: &Image,
    json: bool,
    writer: &mut W,
) -> Result<(), PrintFault>
    ensures ok { OnOk result (Appends (W.contents writer.old) (W.contents writer.new) (info_text json answer.now image.now)) }
    ensures front { OnErr result (WritesFront (W.contents writer.old) (W.contents writer.new) (info_text json answer.now image.now)) }
    ensures memory { result ≡ Err PrintFault.Memory → Keeps (W.contents writer.old) (W.contents writer.new) }
{
    let text = info_text(alloc, answer, image, json)?;
    write_text(text.as_slice(), writer)
}

/// The text, in one of the forms.
fn info_text(
    alloc: Global,
    answer: &Answer,
    image: &Image,
    json: bool,
) -> Result<Vec<u8>, AllocError>
    ensures { IfOk result (λ text. text.items ≡ info_text json answer.now image.now) }
{
    if json {
        return info_object(alloc, answer, is_bootable(image));
    }
    let mut text = results_text(alloc, answer)?;
    text.extend_from_slice(boot_text(image).as_bytes())?;
    Ok(text)
}

/// Whether the boot checksum is right.
fn is_bootable(image: &Image) -> bool
    ensures { result ≡ is_bootable image.now }
{
    image.is_bootable()
}

/// The line for the boot blocks.
fn boot_text(image: &Image) -> &'static str
    ensures { result.now ≡ boot_line image.now }
{
    if image.is_bootable() {
        "boot yes\n"
    } else {
        "boot no\n"
    }
}
