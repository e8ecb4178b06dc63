//! The lines of a report on an image.
ghost use Rattle.std.specs.Prelude.{◌≡◌, ◌++◌, OnOk, flat_map};
ghost use Rattle.adf_archive.specs.Lines.{accepted_lines, entry_words, fault_lines, header_front, header_words, lines_of, refused_words, line_behind, suspect_line};

use crate::owned::{entry_of, owner_text, slash};
use crate::report::{AcceptedImage, ImageReport, RefusedImage};
use crate::suspects::Suspect;
use crate::words::{kind_word, size_word};
use adf_text::push_plain;
use ados_volume::Owner;
use std::alloc::{AllocError, Global};

/// Appends the lines of a report, each after this prefix: `ok` or `ok validated`, and a line for each suspect block;
/// `refused KIND BLOCK` for each fault, and `more` if there may be more; no line for an image that was not checked.
pub fn push_lines(
    alloc: Global,
    text: &mut Vec<u8>,
    front: &[u8],
    report: &ImageReport,
) -> Result<(), AllocError>
    ensures { OnOk result (text.new.items ≡ text.old.items ++ lines_of front.now report.now) }
{
    match report {
        ImageReport::Accepted(told) => push_accepted(alloc, text, front, told),
        ImageReport::Refused(told) => push_faults(alloc, text, front, told),
        ImageReport::WrongSize(fault) => push_refusal(alloc, text, front, size_word(*fault), 0),
        ImageReport::NotChecked(_) => Ok(()),
    }
}

/// Appends the lines of an accepted image: `ok`, or `ok validated` if the bitmap was rebuilt.
fn push_accepted(
    alloc: Global,
    text: &mut Vec<u8>,
    front: &[u8],
    told: &AcceptedImage,
) -> Result<(), AllocError>
    ensures { OnOk result (text.new.items ≡ text.old.items ++ accepted_lines front.now told.now) }
{
    let words: &[u8] = if told.validated {
        b"ok validated"
    } else {
        b"ok"
    };
    push_line(text, front, words)?;
    if let Some(suspects) = &told.suspects {
        push_suspects(alloc, text, front, suspects)?;
    }
    Ok(())
}

/// Appends a line for each of these blocks.
fn push_suspects(
    alloc: Global,
    text: &mut Vec<u8>,
    front: &[u8],
    suspects: &[Suspect],
) -> Result<(), AllocError>
    ensures { OnOk result (text.new.items ≡ text.old.items ++ flat_map (suspect_line front.now) suspects.now) }
{
    for suspect in suspects {
        push_suspect(alloc, text, front, suspect)?;
    }
    Ok(())
}

/// Appends the line of a suspect block, as `suspect block BLOCK, data PLACE of PATH`.
fn push_suspect(
    alloc: Global,
    text: &mut Vec<u8>,
    front: &[u8],
    suspect: &Suspect,
) -> Result<(), AllocError>
    ensures { OnOk result (text.new.items ≡ text.old.items ++ suspect_line front.now suspect.now) }
{
    text.extend_from_slice(front)?;
    let block = suspect.block;
    let words = format!(in alloc; "suspect block {block}, ")?;
    text.extend_from_slice(words.as_bytes())?;
    let owner = owner_text(alloc, suspect.owner)?;
    text.extend_from_slice(owner.as_bytes())?;
    push_entry(alloc, text, suspect)?;
    text.push(b'\n')?;
    Ok(())
}

/// Appends the path of the entry that a suspect block belongs to, with escapes for control characters, and a slash for a directory; if
/// the path is too long, the block of the header.
fn push_entry(alloc: Global, text: &mut Vec<u8>, suspect: &Suspect) -> Result<(), AllocError>
    ensures { OnOk result (text.new.items ≡ text.old.items ++ entry_words suspect.now) }
{
    if let Some(path) = &suspect.path {
        push_plain(text, path.as_str())?;
        return text.extend_from_slice(slash(suspect.owner).as_bytes());
    }
    match entry_of(suspect.block, suspect.owner) {
        Some(entry) => push_header(alloc, text, suspect.owner, entry),
        None => Ok(()),
    }
}

/// Appends the block of an entry's header, which is the entry of a block with this owner.
fn push_header(
    alloc: Global,
    text: &mut Vec<u8>,
    owner: Owner,
    entry: u32,
) -> Result<(), AllocError>
    ensures { OnOk result (text.new.items ≡ text.old.items ++ header_words owner entry) }
{
    text.extend_from_slice(header_front(owner).as_bytes())?;
    let number = format!(in alloc; "{entry}")?;
    text.extend_from_slice(number.as_bytes())
}

/// What stands before the block of an entry's header.
fn header_front(owner: Owner) -> &'static str
    ensures { result.now ≡ header_front owner }
{
    match owner {
        Owner::Directory => "the directory at block ",
        _ => "the file at block ",
    }
}

/// Appends the lines of faults.
fn push_faults(
    alloc: Global,
    text: &mut Vec<u8>,
    front: &[u8],
    told: &RefusedImage,
) -> Result<(), AllocError>
    ensures { OnOk result (text.new.items ≡ text.old.items ++ fault_lines front.now told.now) }
{
    for shown in told.faults.iter() {
        let kind = kind_word(shown.fault.kind);
        push_refusal(alloc, text, front, kind, shown.fault.block)?;
    }
    if told.more {
        push_line(text, front, b"more")?;
    }
    Ok(())
}

/// Appends `refused KIND BLOCK`.
fn push_refusal(
    alloc: Global,
    text: &mut Vec<u8>,
    front: &[u8],
    kind: &str,
    block: u32,
) -> Result<(), AllocError>
    ensures { OnOk result (text.new.items ≡ text.old.items ++ line_behind front.now (refused_words kind.now block)) }
{
    let words = format!(in alloc; "refused {kind} {block}")?;
    push_line(text, front, words.as_bytes())
}

/// Appends a line after a prefix.
fn push_line(text: &mut Vec<u8>, front: &[u8], words: &[u8]) -> Result<(), AllocError>
    ensures { OnOk result (text.new.items ≡ text.old.items ++ line_behind front.now words.now) }
{
    text.extend_from_slice(front)?;
    text.extend_from_slice(words)?;
    text.push(b'\n')?;
    Ok(())
}
