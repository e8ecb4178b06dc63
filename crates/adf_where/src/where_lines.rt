//! The lines of blocks with their owners.
ghost use Rattle.std.specs.Prelude.{◌≡◌, ◌++◌, IfOk, OnOk, option_map};
ghost use Rattle.std.specs.String.{string_bytes};
ghost use Rattle.adf_where.specs.Where.{path_text, place_text, span_text, unread_line};

use crate::forms::Tell;
use crate::owned::{OwnedBlock, Span};
use crate::places::{cylinder_of, head_of, sector_of};
use adf_archive::{entry_of, owner_text, slash};
use adf_text::push_plain;
use std::alloc::{AllocError, Global};

impl Tell for OwnedBlock {
    ghost use Rattle.adf_where.specs.Where.{seen, where_line};

    ghost lines_of = { λ blocks owned. where_line blocks (seen owned) };

    /// Appends the line of a block, and that of one that could not be read.
    fn push_lines(&self, alloc: Global, text: &mut Vec<u8>, blocks: u32) -> Result<(), AllocError> {
        let place = place_text(alloc, blocks, self.block)?;
        let owner = owner_text(alloc, self.owner)?;
        text.extend_from_slice(place.as_bytes())?;
        text.extend_from_slice(owner.as_bytes())?;
        push_path(alloc, text, self)?;
        push_span(alloc, text, self.span)?;
        text.push(b'\n')?;
        push_unread(alloc, text, self.unread, self.block)
    }
}

/// Appends the line of a block that could not be read.
pub(crate) fn push_unread(
    alloc: Global,
    text: &mut Vec<u8>,
    unread: Option<bool>,
    block: u32,
) -> Result<(), AllocError>
    ensures { OnOk result (text.new.items ≡ text.old.items ++ unread_line unread block) }
{
    match unread {
        Some(true) => {
            let line = format!(in alloc; "{block}  unread\n")?;
            text.extend_from_slice(line.as_bytes())
        }
        _ => Ok(()),
    }
}

/// The line of a block up to its owner.
pub(crate) fn place_text(alloc: Global, blocks: u32, block: u32) -> Result<String, AllocError>
    ensures { IfOk result (λ text. string_bytes text ≡ place_text blocks block) }
{
    format!(in alloc;
        "{block}  cyl {} head {} sector {}  ",
        cylinder_of(blocks, block),
        head_of(blocks, block),
        sector_of(blocks, block)
    )
}

/// Appends the path of the entry that a block belongs to, with escapes for control characters, and a slash for a directory;
/// or the header block of the entry, if its path is too long.
fn push_path(alloc: Global, text: &mut Vec<u8>, owned: &OwnedBlock) -> Result<(), AllocError>
    ensures { OnOk result (text.new.items ≡ text.old.items ++ path_text owned.now.block owned.now.owner (option_map string_bytes owned.now.path)) }
{
    if let Some(path) = &owned.path {
        push_plain(text, path.as_str())?;
        return text.extend_from_slice(slash(owned.owner).as_bytes());
    }
    match entry_of(owned.block, owned.owner) {
        Some(entry) => {
            let words = format!(in alloc; "the entry at block {entry}")?;
            text.extend_from_slice(words.as_bytes())
        }
        None => Ok(()),
    }
}

/// Appends the bytes in a data block.
fn push_span(alloc: Global, text: &mut Vec<u8>, span: Option<Span>) -> Result<(), AllocError>
    ensures { OnOk result (text.new.items ≡ text.old.items ++ span_text span) }
{
    let Some(span) = span else {
        return Ok(());
    };
    let bytes = format!(in alloc; ", bytes {} to {}", span.first, span.last)?;
    text.extend_from_slice(bytes.as_bytes())
}
