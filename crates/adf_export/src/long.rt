//! The lines of a list for people.
ghost use Rattle.std.specs.Prelude.{◌≡◌, ◌++◌, OnOk, true, false, if◌then◌else◌, negsuc};
ghost use Rattle.std.specs.Ordering.{int_eq};
ghost use Rattle.adf_record.specs.Shown.{bold};
ghost use Rattle.adf_export.specs.Listing.{comment_text, shown};
ghost use Rattle.adf_export.specs.steps.Going.{PushesDate, PushesLong};

use crate::keys::is_file;
use crate::lines::{push_names, push_right, push_spaced, size_word};
use adf_record::push_second;
use adf_text::protection_letters;
use ados_model::FileInfo;
use ados_name::Date3;
use itoa::Buffer;
use std::alloc::{AllocError, Global};

/// Appends the long line of an entry: its size or `dir`, right-aligned in 8 places, then all eight protection bits, its
/// date without hundredths of a second, its path in letters, and its comment in quotes, if it has one. With `styled` the
/// path of a directory is bold on a terminal.
pub(crate) fn push_long(
    alloc: Global,
    text: &mut Vec<u8>,
    info: &FileInfo,
    path: &[u8],
    styled: bool,
) -> Result<(), AllocError>
    ensures { OnOk result (PushesLong styled text.old.items text.new.items info.now path.now) }
{
    let mut digits = Buffer::new();
    push_right(text, size_word(&mut digits, info).as_bytes())?;
    push_spaced(text, &protection_letters(info.protection))?;
    push_date(alloc, text, info.date)?;
    text.push(b' ')?;
    push_path(alloc, text, path, is_bold(info, styled))?;
    push_comment(alloc, text, info.comment.bytes())?;
    text.push(b'\n')?;
    Ok(())
}

/// Appends a space and a date without hundredths of a second.
fn push_date(alloc: Global, text: &mut Vec<u8>, date: Date3) -> Result<(), AllocError>
    ensures { OnOk result (PushesDate text.old.items text.new.items date) }
{
    text.push(b' ')?;
    push_second(alloc, text, date)
}

/// Whether the path of an entry is bold.
fn is_bold(info: &FileInfo, styled: bool) -> bool
    ensures { result ≡ (if int_eq info.now.entry_type (negsuc 2) then false else styled) }
{
    if is_file(info) { false } else { styled }
}

/// Appends a path in letters, in bold or as it is.
fn push_path(
    alloc: Global,
    text: &mut Vec<u8>,
    path: &[u8],
    is_bold: bool,
) -> Result<(), AllocError>
    ensures { OnOk result (text.new.items ≡ text.old.items ++ bold is_bold (shown true path.now)) }
{
    if !is_bold {
        return push_names(alloc, text, path, true);
    }
    text.extend_from_slice(b"\x1b[1m")?;
    push_names(alloc, text, path, true)?;
    text.extend_from_slice(b"\x1b[0m")
}

/// Appends a space and a comment in quotes, if there is one.
fn push_comment(alloc: Global, text: &mut Vec<u8>, comment: &[u8]) -> Result<(), AllocError>
    ensures { OnOk result (text.new.items ≡ text.old.items ++ comment_text comment.now) }
{
    if comment.is_empty() {
        return Ok(());
    }
    text.extend_from_slice(b" \"")?;
    push_names(alloc, text, comment, true)?;
    text.push(b'"')?;
    Ok(())
}
