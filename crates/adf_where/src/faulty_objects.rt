//! The JSON objects of blocks of a refused image.
ghost use Rattle.std.specs.Prelude.{◌≡◌, ◌++◌, IfOk, OnOk};
ghost use Rattle.json.specs.Print.{print};
ghost use Rattle.adf_where.specs.Faulty.{place_word};
ghost use Rattle.adf_where.specs.steps.Parts.{head_tokens, tail_tokens};

use crate::faulty::FaultyBlock;
use crate::forms::{Put, put_array};
use crate::where_objects::{put_place, put_unread};
use adf_archive::kind_word;
use adf_record::{put_flag, put_number, put_text};
use ados_census::{Place, PlaceKind};
use ados_model::VolumeFault;
use json::Writer;
use std::alloc::{AllocError, Global};

/// The object of a block up to the first of its places.
pub(crate) fn head_text(alloc: Global, blocks: u32, block: u32) -> Result<Vec<u8>, AllocError>
    ensures { IfOk result (λ text. text.items ≡ print (head_tokens blocks block)) }
{
    let mut writer = Writer::new(Vec::new(alloc));
    put_head(&mut writer, blocks, block)?;
    Ok(writer.into_inner())
}

/// Writes the object of a block up to the first of its places.
fn put_head(writer: &mut Writer, blocks: u32, block: u32) -> Result<(), AllocError>
    ensures before { writer.new.before ≡ writer.old.before }
    ensures tokens { OnOk result (writer.new.tokens ≡ writer.old.tokens ++ head_tokens blocks block) }
{
    writer.begin_object()?;
    put_place(writer, blocks, block)?;
    writer.key("places")?;
    writer.begin_array()
}

/// The object of a block behind the last of its places.
pub(crate) fn tail_text(alloc: Global, told: &FaultyBlock<'_>) -> Result<Vec<u8>, AllocError>
    ensures { IfOk result (λ text. text.items ≡ print (tail_tokens told.now)) }
{
    let mut writer = Writer::new(Vec::new(alloc));
    put_tail(&mut writer, told)?;
    Ok(writer.into_inner())
}

/// Writes the object of a block behind the last of its places.
fn put_tail(writer: &mut Writer, told: &FaultyBlock<'_>) -> Result<(), AllocError>
    ensures before { writer.new.before ≡ writer.old.before }
    ensures tokens { OnOk result (writer.new.tokens ≡ writer.old.tokens ++ tail_tokens told.now) }
{
    writer.end_array()?;
    writer.key("faults")?;
    put_array(writer, 0, told.faults)?;
    put_flag(writer, "more", false)?;
    put_unread(writer, told.unread)?;
    writer.end_object()
}

impl Put for Place {
    ghost use Rattle.adf_where.specs.Faulty.{place_object};

    ghost tokens_of = { λ _ place. place_object place };

    /// Writes the object of a place.
    fn put(&self, writer: &mut Writer, _blocks: u32) -> Result<(), AllocError> {
        writer.begin_object()?;
        put_number(writer, "block", Some(u64::from(self.holder)))?;
        put_number(writer, "long", Some(u64::from(self.long)))?;
        put_text(writer, "role", Some(place_word(self.kind)))?;
        writer.end_object()
    }
}

impl Put for VolumeFault {
    ghost use Rattle.adf_where.specs.Faulty.{fault_word};

    ghost tokens_of = { λ _ fault. fault_word fault };

    /// Writes the word of a fault.
    fn put(&self, writer: &mut Writer, _blocks: u32) -> Result<(), AllocError> {
        writer.string(kind_word(self.kind))
    }
}

/// What a place makes of the block that it names, as one word.
fn place_word(kind: PlaceKind) -> &'static str
    ensures { result.now ≡ place_word kind }
{
    match kind {
        PlaceKind::Entry => "entry",
        PlaceKind::NextEntry => "next",
        PlaceKind::Extension => "extension",
        PlaceKind::Data => "data",
        PlaceKind::Page => "bitmap",
    }
}
