//! A bundle as text: a JSON object, with a line for each entry.
ghost use Rattle.std.specs.Prelude.{◌≡◌, ◌+◌, ◌≤◌, ◌<◌, ◌⊎◌, ◌++◌, ◌∷◌, [], List, ℕ, length, reverse, IfErr, IfOk, OnOk};
ghost use Rattle.json.specs.Token.{key, string};
ghost use Rattle.json.specs.Print.{print};
ghost use Rattle.ados_name.specs.Date.{IsTextOf};
ghost use Rattle.adf_text.specs.Letters.{letters};
ghost use Rattle.adf_record.specs.Described.{AreWithoutZeros, IsBundleText, IsHeadLine, IsTextFault, LacksDirectory, entry_tokens, no_memory, size_tokens, too_long};
ghost use Rattle.adf_record.specs.steps.Lines.{IsPathAt, separator};

use crate::bundle::{Bundle, BundleEntry};
use crate::bundle_fault::{BundleFault, BundleWhy};
use crate::members::{put_number, put_text};
use crate::words::format_word;
use adf_text::letter_text;
use ados_name::{Date3, Name};
use json::Writer;
use std::alloc::{AllocError, Global};

/// The most bytes of a description.
pub const MOST_BUNDLE_BYTES: usize = 67_108_864;

/// What ends the list of entries, the object and the text.
const END: &[u8] = b"\n]}\n";

/// The text of a bundle, which [`read_bundle`](crate::read_bundle) reads.
///
/// It fails if memory runs out, if the text would be longer than [`MOST_BUNDLE_BYTES`], as with thousands of directories in
/// one another, and if the directory of an entry is not before it.
pub fn bundle_text(alloc: Global, bundle: &Bundle) -> Result<Vec<u8>, BundleFault>
    ensures text { IfOk result (λ text. IsBundleText bundle.now text.items) }
    ensures within { IfOk result (λ text. length text.items ≤ MOST_BUNDLE_BYTES) }
    ensures fault { IfErr result (λ fault. IsTextFault bundle.now fault) }
{
    let mut text = Vec::new(alloc);
    push_line(&mut text, "", &head_line(alloc, bundle)?)?;
    for place in 0..bundle.entries.len() {
        let entry = &bundle.entries[place];
        let path = path_of(alloc, &bundle.entries, place)?;
        let line = entry_line(alloc, entry, &path)?;
        push_line(&mut text, separator(place), &line)?;
    }
    text.extend_from_slice(END)?;
    Ok(text)
}

/// What separates the line of the entry at a position from the text before it.
fn separator(place: usize) -> &'static str
    ensures { result.now ≡ separator place }
{
    if place == 0 { "\n" } else { ",\n" }
}

/// Appends a line after what separates it from the text before it, if there is room for the end of the text too.
fn push_line(text: &mut Vec<u8>, separator: &str, line: &[u8]) -> Result<(), BundleFault>
    ensures line { OnOk result (text.new.items ≡ text.old.items ++ separator.now ++ line.now) }
    ensures within { OnOk result (length text.new.items + 4 ≤ MOST_BUNDLE_BYTES) }
    ensures fault { IfErr result (λ fault. (fault ≡ no_memory) ⊎ ((fault ≡ too_long) × (MOST_BUNDLE_BYTES < length (text.old.items ++ separator.now ++ line.now) + 4))) }
{
    text.extend_from_slice(separator.as_bytes())?;
    text.extend_from_slice(line)?;
    if text.len() > MOST_BUNDLE_BYTES - END.len() {
        return Err(BundleFault::from(BundleWhy::Long));
    }
    Ok(())
}

/// The path of the entry at a position. It fails if the directory of the entry, or of one above it, is not before it.
fn path_of(alloc: Global, entries: &[BundleEntry], place: usize) -> Result<Vec<u8>, BundleFault>
    requires { place < length entries.now }
    ensures path { IfOk result (λ path. IsPathAt entries.now place path.items) }
    ensures fault { IfErr result (λ fault. (fault ≡ no_memory) ⊎ LacksDirectory entries.now fault) }
{
    let mut path = Vec::new(alloc);
    let mut at = place;
    while let Some(above) = entries[at].above {
        if above >= at {
            return Err(BundleFault {
                entry: Some(at + 1),
                why: BundleWhy::NoDirectory,
            });
        }
        push_backwards(alloc, &mut path, &entries[at].name)?;
        path.push(b'/')?;
        at = above;
    }
    push_backwards(alloc, &mut path, &entries[at].name)?;
    path.reverse();
    Ok(path)
}

/// Appends the bytes of a name, the last one first.
fn push_backwards(alloc: Global, path: &mut Vec<u8>, name: &Name) -> Result<(), AllocError>
    ensures { OnOk result (path.new.items ≡ path.old.items ++ reverse name.now) }
{
    let mut bytes = Vec::from_slice(alloc, name.bytes())?;
    bytes.reverse();
    path.extend_from_slice(&bytes)
}

/// The line of the volume: the object and its list of entries begin.
fn head_line(alloc: Global, bundle: &Bundle) -> Result<Vec<u8>, AllocError>
    ensures { IfOk result (λ line. IsHeadLine bundle.now line.items) }
{
    let head = bundle.head;
    let mut writer = Writer::new(Vec::new(alloc));
    writer.begin_object()?;
    put_text(&mut writer, "kind", Some(format_word(head.format)))?;
    put_number(&mut writer, "blocks", Some(u64::from(head.blocks)))?;
    put_letters(alloc, &mut writer, "label", head.label.bytes())?;
    put_date(alloc, &mut writer, "created", head.created)?;
    put_date(alloc, &mut writer, "changed", head.changed)?;
    put_date(alloc, &mut writer, "root", head.root_date)?;
    let boot = hex::encode(alloc, without_zeros(&bundle.boot))?;
    put_text(&mut writer, "boot", Some(boot.as_str()))?;
    writer.key("entries")?;
    writer.begin_array()?;
    Ok(writer.into_inner())
}

/// Bytes without the zeros at their end.
fn without_zeros(bytes: &[u8]) -> &[u8]
    ensures { AreWithoutZeros bytes.now result.now }
{
    let mut kept = bytes;
    while let Some(front) = kept.strip_suffix(b"\0".as_slice()) {
        kept = front;
    }
    kept
}

/// The object of an entry with this path.
fn entry_line(alloc: Global, entry: &BundleEntry, path: &[u8]) -> Result<Vec<u8>, AllocError>
    ensures { IfOk result (λ line. (date : List ℕ) × IsTextOf entry.now.date date × (line.items ≡ print (entry_tokens entry.now path.now date))) }
{
    let mut writer = Writer::new(Vec::new(alloc));
    writer.begin_object()?;
    put_letters(alloc, &mut writer, "path", path)?;
    put_size(&mut writer, entry.size)?;
    put_number(&mut writer, "bits", Some(u64::from(entry.protection.0)))?;
    put_date(alloc, &mut writer, "date", entry.date)?;
    put_letters(alloc, &mut writer, "comment", entry.comment.bytes())?;
    writer.end_object()?;
    Ok(writer.into_inner())
}

/// Writes `file` and its size, or `directory`.
fn put_size(writer: &mut Writer, size: Option<u32>) -> Result<(), AllocError>
    ensures before { writer.new.before ≡ writer.old.before }
    ensures tokens { OnOk result (writer.new.tokens ≡ writer.old.tokens ++ size_tokens size) }
{
    match size {
        Some(size) => {
            put_text(writer, "type", Some("file"))?;
            put_number(writer, "size", Some(u64::from(size)))
        }
        None => put_text(writer, "type", Some("directory")),
    }
}

/// Writes a member whose value is the letters of these bytes.
fn put_letters(
    alloc: Global,
    writer: &mut Writer,
    name: &str,
    bytes: &[u8],
) -> Result<(), AllocError>
    ensures before { writer.new.before ≡ writer.old.before }
    ensures tokens { OnOk result (writer.new.tokens ≡ writer.old.tokens ++ key name.now ∷ string (letters bytes.now) ∷ []) }
{
    let letters = letter_text(alloc, bytes)?;
    put_text(writer, name, Some(letters.as_str()))
}

/// Writes a member whose value is the text of a date.
fn put_date(alloc: Global, writer: &mut Writer, name: &str, date: Date3) -> Result<(), AllocError>
    ensures before { writer.new.before ≡ writer.old.before }
    ensures tokens { OnOk result ((text : List ℕ) × IsTextOf date text × (writer.new.tokens ≡ writer.old.tokens ++ key name.now ∷ string text ∷ [])) }
{
    let text = date.text(alloc)?;
    put_text(writer, name, Some(text.as_str()))
}
