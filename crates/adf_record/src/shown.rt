//! The facts of a volume as text for people.
ghost use Rattle.std.specs.Prelude.{◌≡◌, ◌++◌, IfOk, OnOk};
ghost use Rattle.adf_record.specs.Shown.{IsFactsText, PushesDates, contents_line, label_text, volume_words};

use crate::contents::{contents_line, volume_words};
use crate::facts::Facts;
use crate::lost_line::lost_line;
use crate::second::push_second;
use adf_block::code_line;
use adf_text::{letter_text, push_plain};
use std::alloc::{AllocError, Global};

/// The facts of a volume as text: a line for the volume, one for what is in it, one for its lost blocks if there are some, one
/// for its dates, and one for its boot block. With `styled` the label is bold on a terminal.
pub(crate) fn facts_text(alloc: Global, facts: &Facts, styled: bool) -> Result<Vec<u8>, AllocError>
    ensures { IfOk result (λ text. IsFactsText styled facts.now text.items) }
{
    let mut text = Vec::new(alloc);
    push_label(alloc, &mut text, facts.label.bytes(), styled)?;
    text.extend_from_slice(volume_words(alloc, facts)?.as_bytes())?;
    text.extend_from_slice(contents_line(alloc, facts)?.as_bytes())?;
    text.extend_from_slice(lost_line(alloc, facts.lost)?.as_bytes())?;
    push_dates(alloc, &mut text, facts)?;
    text.extend_from_slice(code_line(facts.boot).as_bytes())?;
    Ok(text)
}

/// Appends a label in letters, with control characters as escapes; with `styled` in bold.
fn push_label(
    alloc: Global,
    text: &mut Vec<u8>,
    label: &[u8],
    styled: bool,
) -> Result<(), AllocError>
    ensures { OnOk result (text.new.items ≡ text.old.items ++ label_text styled label.now) }
{
    let letters = letter_text(alloc, label)?;
    if !styled {
        return push_plain(text, letters.as_str());
    }
    text.extend_from_slice(b"\x1b[1m")?;
    push_plain(text, letters.as_str())?;
    text.extend_from_slice(b"\x1b[0m")
}

/// Appends the line with both dates.
fn push_dates(alloc: Global, text: &mut Vec<u8>, facts: &Facts) -> Result<(), AllocError>
    ensures { OnOk result (PushesDates text.old.items text.new.items facts.now.created facts.now.changed) }
{
    text.extend_from_slice(b"created ")?;
    push_second(alloc, text, facts.created)?;
    text.extend_from_slice(b", changed ")?;
    push_second(alloc, text, facts.changed)?;
    text.push(b'\n')?;
    Ok(())
}
