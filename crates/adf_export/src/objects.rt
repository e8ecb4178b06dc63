//! The JSON objects of entries.
ghost use Rattle.std.specs.Prelude.{◌≡◌, ◌++◌, ◌∷◌, [], OnOk, codes};
ghost use Rattle.json.specs.Token.{key, string};
ghost use Rattle.adf_text.specs.Letters.{letters};
ghost use Rattle.adf_export.specs.Objects.{measures_tokens, object_line, object_tokens, type_word};
ghost use Rattle.adf_export.specs.steps.Going.{PushesEntry};

use crate::keys::is_file;
use adf_cli::ListForm;
use adf_record::{put_number, put_text};
use adf_text::letter_text;
use ados_model::FileInfo;
use json::Writer;
use std::alloc::{AllocError, Global};

/// Appends the line with the JSON object of an entry.
pub(crate) fn push_object(
    alloc: Global,
    text: &mut Vec<u8>,
    info: &FileInfo,
    path: &[u8],
) -> Result<(), AllocError>
    ensures { OnOk result (PushesEntry ListForm.Json text.old.items text.new.items info.now path.now) }
{
    let date = info.date.text(alloc)?;
    let letters = letter_text(alloc, path)?;
    push_told(alloc, text, info, letters.as_str(), date.as_str())
}

/// Appends the line with the object of an entry, with the texts of its path and its date.
fn push_told(
    alloc: Global,
    text: &mut Vec<u8>,
    info: &FileInfo,
    path: &str,
    date: &str,
) -> Result<(), AllocError>
    ensures { OnOk result (text.new.items ≡ text.old.items ++ object_line info.now path.now date.now) }
{
    let mut writer = Writer::new(Vec::new(alloc));
    put_object(alloc, &mut writer, info, path, date)?;
    text.extend_from_slice(writer.into_inner().as_slice())?;
    text.push(b'\n')?;
    Ok(())
}

/// Writes the object of an entry.
fn put_object(
    alloc: Global,
    writer: &mut Writer,
    info: &FileInfo,
    path: &str,
    date: &str,
) -> Result<(), AllocError>
    ensures before { writer.new.before ≡ writer.old.before }
    ensures tokens { OnOk result (writer.new.tokens ≡ writer.old.tokens ++ object_tokens info.now path.now date.now) }
{
    writer.begin_object()?;
    put_text(writer, "path", Some(path))?;
    put_measures(writer, info)?;
    put_text(writer, "date", Some(date))?;
    put_comment(alloc, writer, info.comment.bytes())?;
    writer.end_object()
}

/// Writes the type of an entry, its size, its blocks, its header block and its protection bits.
fn put_measures(writer: &mut Writer, info: &FileInfo) -> Result<(), AllocError>
    ensures before { writer.new.before ≡ writer.old.before }
    ensures tokens { OnOk result (writer.new.tokens ≡ writer.old.tokens ++ measures_tokens info.now) }
{
    put_text(writer, "type", Some(type_word(info)))?;
    put_number(writer, "size", Some(u64::from(info.size)))?;
    put_number(writer, "blocks", Some(u64::from(info.blocks)))?;
    put_number(writer, "header", Some(u64::from(info.key)))?;
    put_number(writer, "bits", Some(u64::from(info.protection.bits())))
}

/// Writes a comment in letters.
fn put_comment(alloc: Global, writer: &mut Writer, comment: &[u8]) -> Result<(), AllocError>
    ensures before { writer.new.before ≡ writer.old.before }
    ensures tokens { OnOk result (writer.new.tokens ≡ writer.old.tokens ++ key (codes "comment") ∷ string (letters comment.now) ∷ []) }
{
    let letters = letter_text(alloc, comment)?;
    put_text(writer, "comment", Some(letters.as_str()))
}

/// `file` or `directory`.
fn type_word(info: &FileInfo) -> &'static str
    ensures { result.now ≡ type_word info.now }
{
    if is_file(info) { "file" } else { "directory" }
}
