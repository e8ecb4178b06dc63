//! The JSON objects of blocks with their owners.
ghost use Rattle.std.specs.Prelude.{◌≡◌, ◌++◌, ◌∷◌, [], OnOk, codes, option_map};
ghost use Rattle.std.specs.String.{string_bytes};
ghost use Rattle.json.specs.Token.{key};
ghost use Rattle.adf_record.specs.Members.{string_token};
ghost use Rattle.adf_where.specs.Where.{owner_tokens, place_tokens, seen, unread_tokens};

use crate::forms::Put;
use crate::owned::{OwnedBlock, Span};
use crate::places::{cylinder_of, head_of, sector_of};
use adf_archive::{owner_word, position_of};
use adf_record::{put_flag, put_number, put_text};
use json::Writer;
use std::alloc::AllocError;

impl Put for OwnedBlock {
    ghost use Rattle.adf_where.specs.Where.{seen, told_tokens};

    ghost tokens_of = { λ blocks owned. told_tokens blocks (seen owned) };

    /// Writes the object of a block.
    fn put(&self, writer: &mut Writer, blocks: u32) -> Result<(), AllocError> {
        writer.begin_object()?;
        put_place(writer, blocks, self.block)?;
        put_owner(writer, self)?;
        put_unread(writer, self.unread)?;
        writer.end_object()
    }
}

/// Writes whether a block could not be read, if that is asked.
pub(crate) fn put_unread(writer: &mut Writer, unread: Option<bool>) -> Result<(), AllocError>
    ensures before { writer.new.before ≡ writer.old.before }
    ensures tokens { OnOk result (writer.new.tokens ≡ writer.old.tokens ++ unread_tokens unread) }
{
    match unread {
        Some(unread) => put_flag(writer, "unread", unread),
        None => Ok(()),
    }
}

/// Writes the number of a block and its place on the disk.
pub(crate) fn put_place(writer: &mut Writer, blocks: u32, block: u32) -> Result<(), AllocError>
    ensures before { writer.new.before ≡ writer.old.before }
    ensures tokens { OnOk result (writer.new.tokens ≡ writer.old.tokens ++ place_tokens blocks block) }
{
    put_number(writer, "block", Some(u64::from(block)))?;
    put_number(
        writer,
        "cylinder",
        Some(u64::from(cylinder_of(blocks, block))),
    )?;
    put_number(writer, "head", Some(u64::from(head_of(blocks, block))))?;
    put_number(writer, "sector", Some(u64::from(sector_of(blocks, block))))
}

/// Writes what a block is.
fn put_owner(writer: &mut Writer, owned: &OwnedBlock) -> Result<(), AllocError>
    ensures before { writer.new.before ≡ writer.old.before }
    ensures tokens { OnOk result (writer.new.tokens ≡ writer.old.tokens ++ owner_tokens (seen owned.now)) }
{
    put_text(writer, "owner", Some(owner_word(owned.owner)))?;
    put_path(writer, &owned.path)?;
    put_number(writer, "number", position_of(owned.owner))?;
    put_number(writer, "first", first_of(owned.span))?;
    put_number(writer, "last", last_of(owned.span))
}

/// Writes a path, or null.
fn put_path(writer: &mut Writer, path: &Option<String>) -> Result<(), AllocError>
    ensures before { writer.new.before ≡ writer.old.before }
    ensures tokens { OnOk result (writer.new.tokens ≡ writer.old.tokens ++ key (codes "path") ∷ string_token (option_map string_bytes path.now) ∷ []) }
{
    match path {
        Some(path) => put_text(writer, "path", Some(path.as_str())),
        None => put_text(writer, "path", None),
    }
}

/// The first byte in a data block.
fn first_of(span: Option<Span>) -> Option<u64>
    ensures { result ≡ option_map (λ bytes. bytes.first) span }
{
    match span {
        Some(span) => Some(span.first),
        None => None,
    }
}

/// The last byte in a data block.
fn last_of(span: Option<Span>) -> Option<u64>
    ensures { result ≡ option_map (λ bytes. bytes.last) span }
{
    match span {
        Some(span) => Some(span.last),
        None => None,
    }
}
