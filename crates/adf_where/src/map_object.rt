//! The map of an image as a JSON object.
ghost use Rattle.std.specs.Prelude.{◌≡◌, ◌++◌, ◌∷◌, [], IfOk, OnOk, codes, flat_map};
ghost use Rattle.std.specs.List.{enumerate_from};
ghost use Rattle.json.specs.Print.{print};
ghost use Rattle.adf_text.specs.Letters.{letters};
ghost use Rattle.adf_record.specs.Members.{number_token};
ghost use Rattle.adf_where.specs.BlockMap.{header, header_tokens, object_tokens};
ghost use Rattle.adf_where.specs.FaultyMap.{faulty_map_tokens};

use crate::refused::{FaultReason, begin_refused, end_refused, put_fault_reason};
use adf_record::{put_flag, put_text};
use adf_text::letter_text;
use ados_volume::Owner;
use json::Writer;
use std::alloc::{AllocError, Global};

/// The object of blocks with these owners and these letters, on a line of its own.
pub(crate) fn map_object(
    alloc: Global,
    owners: &[Owner],
    marks: &[u8],
) -> Result<Vec<u8>, AllocError>
    ensures { IfOk result (λ text. text.items ≡ print (object_tokens (letters marks.now) owners.now) ++ codes "\n") }
{
    let marks = letter_text(alloc, marks)?;
    let mut writer = Writer::new(Vec::new(alloc));
    put_object(&mut writer, owners, marks.as_str())?;
    let mut text = writer.into_inner();
    text.push(b'\n')?;
    Ok(text)
}

/// The object of a refused image whose blocks have these letters, on a line of its own.
pub(crate) fn faulty_map_object(
    alloc: Global,
    reason: FaultReason,
    marks: &[u8],
) -> Result<Vec<u8>, AllocError>
    ensures { IfOk result (λ text. text.items ≡ print (faulty_map_tokens reason.kind.now reason.block (letters marks.now)) ++ codes "\n") }
{
    let marks = letter_text(alloc, marks)?;
    let mut writer = begin_refused(alloc)?;
    put_fault_reason(&mut writer, reason)?;
    put_text(&mut writer, "map", Some(marks.as_str()))?;
    put_flag(&mut writer, "more", false)?;
    end_refused(writer)
}

/// Writes the object.
fn put_object(writer: &mut Writer, owners: &[Owner], marks: &str) -> Result<(), AllocError>
    ensures before { writer.new.before ≡ writer.old.before }
    ensures tokens { OnOk result (writer.new.tokens ≡ writer.old.tokens ++ object_tokens marks.now owners.now) }
{
    writer.begin_object()?;
    put_text(writer, "map", Some(marks))?;
    writer.key("headers")?;
    writer.begin_array()?;
    put_headers(writer, owners)?;
    writer.end_array()?;
    writer.end_object()
}

/// Writes the header of each block's owner.
fn put_headers(writer: &mut Writer, owners: &[Owner]) -> Result<(), AllocError>
    ensures before { writer.new.before ≡ writer.old.before }
    ensures tokens { OnOk result (writer.new.tokens ≡ writer.old.tokens ++ flat_map header_tokens (enumerate_from 0 owners.now)) }
{
    for (block, owner) in owners.iter().enumerate() {
        put_header(writer, header_of(block as u64, *owner))?;
    }
    Ok(())
}

/// Writes a header, or null.
fn put_header(writer: &mut Writer, header: Option<u64>) -> Result<(), AllocError>
    ensures before { writer.new.before ≡ writer.old.before }
    ensures tokens { OnOk result (writer.new.tokens ≡ writer.old.tokens ++ number_token header ∷ []) }
{
    match header {
        Some(block) => writer.u64(block),
        None => writer.null(),
    }
}

/// The header of a block's owner.
fn header_of(block: u64, owner: Owner) -> Option<u64>
    ensures { result ≡ header block owner }
{
    match owner {
        Owner::Root | Owner::Directory | Owner::File => Some(block),
        Owner::Extension(file, _) | Owner::Data(file, _) => Some(u64::from(file)),
        Owner::Boot | Owner::Page(_) | Owner::Lost | Owner::Free => None,
    }
}
