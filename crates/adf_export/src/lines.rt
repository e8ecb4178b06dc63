//! The texts of entries in a list.
ghost use Rattle.std.specs.Prelude.{◌≡◌, ◌++◌, OnOk};
ghost use Rattle.ados_name.specs.Protection.{letters};
ghost use Rattle.adf_script.specs.Text.{spaced};
ghost use Rattle.adf_export.specs.Listing.{right_in, shown, size_text};
ghost use Rattle.adf_export.specs.steps.Going.{PushesEntry, PushesLine};

use crate::keys::is_file;
use crate::long::push_long;
use crate::objects::push_object;
use adf_cli::ListForm;
use adf_text::{letter_text, push_plain};
use ados_model::FileInfo;
use itoa::Buffer;
use std::alloc::{AllocError, Global};

/// As many spaces as a size has places.
const BLANKS: &[u8] = b"        ";

/// Appends the text of an entry with this path: its line, or its JSON object.
pub(crate) fn push_entry(
    alloc: Global,
    text: &mut Vec<u8>,
    info: &FileInfo,
    path: &[u8],
    form: ListForm,
) -> Result<(), AllocError>
    ensures { OnOk result (PushesEntry form text.old.items text.new.items info.now path.now) }
{
    match form {
        ListForm::Bytes => push_line(alloc, text, info, path, false),
        ListForm::Letters => push_line(alloc, text, info, path, true),
        ListForm::Long => push_long(alloc, text, info, path, false),
        ListForm::Bold => push_long(alloc, text, info, path, true),
        ListForm::Json => push_object(alloc, text, info, path),
    }
}

/// Appends the line of an entry: its size or `dir`, right-aligned in 8 places, then its protection bits, its date and
/// its path.
fn push_line(
    alloc: Global,
    text: &mut Vec<u8>,
    info: &FileInfo,
    path: &[u8],
    letters: bool,
) -> Result<(), AllocError>
    ensures { OnOk result (PushesLine letters text.old.items text.new.items info.now path.now) }
{
    let mut digits = Buffer::new();
    let size = size_word(&mut digits, info);
    let date = info.date.text(alloc)?;
    push_right(text, size.as_bytes())?;
    push_spaced(text, &info.protection.letters())?;
    push_spaced(text, date.as_bytes())?;
    text.push(b' ')?;
    push_names(alloc, text, path, letters)?;
    text.push(b'\n')?;
    Ok(())
}

/// Appends names: their bytes, or the letters of these bytes, with control characters as escapes.
pub(crate) fn push_names(
    alloc: Global,
    text: &mut Vec<u8>,
    names: &[u8],
    letters: bool,
) -> Result<(), AllocError>
    ensures { OnOk result (text.new.items ≡ text.old.items ++ shown letters names.now) }
{
    if letters {
        let letters = letter_text(alloc, names)?;
        push_plain(text, letters.as_str())
    } else {
        text.extend_from_slice(names)
    }
}

/// The size of a file as a number, or `dir`.
pub(crate) fn size_word<'a>(digits: &'a mut Buffer, info: &FileInfo) -> &'a str
    ensures { result.now ≡ size_text info.now }
{
    if is_file(info) {
        digits.format(info.size)
    } else {
        "dir"
    }
}

/// Appends a word, right-aligned in 8 places.
pub(crate) fn push_right(text: &mut Vec<u8>, word: &[u8]) -> Result<(), AllocError>
    ensures { OnOk result (text.new.items ≡ text.old.items ++ right_in 8 word.now) }
{
    text.extend_from_slice(&BLANKS[word.len().min(8)..])?;
    text.extend_from_slice(word)?;
    Ok(())
}

/// Appends a space and a word.
pub(crate) fn push_spaced(text: &mut Vec<u8>, word: &[u8]) -> Result<(), AllocError>
    ensures { OnOk result (text.new.items ≡ text.old.items ++ spaced word.now) }
{
    text.push(b' ')?;
    text.extend_from_slice(word)
}
