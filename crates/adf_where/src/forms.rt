//! The forms in which blocks are told: lines, or an array of JSON objects.
ghost use Rattle.std.specs.Prelude.{◌≡◌, ◌++◌, ℕ, List, IfOk, OnOk};
ghost use Rattle.json.specs.Print.{print};
ghost use Rattle.json.specs.Token.{Token};
ghost use Rattle.adf_where.specs.Where.{array_of};
ghost use Rattle.adf_where.specs.steps.Parts.{closing, comma, opening, part};

use json::Writer;
use std::alloc::{AllocError, Global};

/// An element of an array. The cylinder, head and sector of a block follow from the number of blocks of the disk.
pub(crate) trait Put {
    ghost tokens_of: { ℕ → Self → List Token };

    /// Writes it.
    fn put(&self, writer: &mut Writer, blocks: u32) -> Result<(), AllocError>
        ensures before { writer.new.before ≡ writer.old.before }
        ensures tokens { OnOk result (writer.new.tokens ≡ writer.old.tokens ++ tokens_of blocks self.now) };
}

/// What is told of a block.
pub(crate) trait Tell: Put {
    ghost lines_of: { ℕ → Self → List ℕ };

    /// Appends its lines.
    fn push_lines(&self, alloc: Global, text: &mut Vec<u8>, blocks: u32) -> Result<(), AllocError>
        ensures { OnOk result (text.new.items ≡ text.old.items ++ lines_of blocks self.now) };
}

/// What is before what is told of all blocks: with `json` the bracket of an array.
pub(crate) fn opening(json: bool) -> &'static [u8]
    ensures { result.now ≡ opening json }
{
    if json { b"[" } else { b"" }
}

/// What is behind what is told of all blocks: with `json` the bracket of an array, and the end of its line.
pub(crate) fn closing(json: bool) -> &'static [u8]
    ensures { result.now ≡ closing json }
{
    if json { b"]\n" } else { b"" }
}

/// Appends what is before an element: in an array a comma, unless it is the first.
pub(crate) fn push_comma(text: &mut Vec<u8>, json: bool, is_first: bool) -> Result<(), AllocError>
    ensures { OnOk result (text.new.items ≡ text.old.items ++ comma json is_first) }
{
    if !json || is_first {
        return Ok(());
    }
    text.push(b',')?;
    Ok(())
}

/// Appends what is told of a block: its lines, or with `json` its object, behind a comma unless it is the first.
pub(crate) fn push_told<T: Tell>(
    alloc: Global,
    text: &mut Vec<u8>,
    blocks: u32,
    told: &T,
    json: bool,
    is_first: bool,
) -> Result<(), AllocError>
    ensures { OnOk result (text.new.items ≡ text.old.items ++ part json is_first (T.tokens_of blocks) (T.lines_of blocks) told.now) }
{
    push_comma(text, json, is_first)?;
    if !json {
        return told.push_lines(alloc, text, blocks);
    }
    let object = object_text(alloc, blocks, told)?;
    text.extend_from_slice(&object)
}

/// The JSON of an element.
pub(crate) fn object_text<T: Put>(
    alloc: Global,
    blocks: u32,
    element: &T,
) -> Result<Vec<u8>, AllocError>
    ensures { IfOk result (λ text. text.items ≡ print (T.tokens_of blocks element.now)) }
{
    let mut writer = Writer::new(Vec::new(alloc));
    element.put(&mut writer, blocks)?;
    Ok(writer.into_inner())
}

/// Writes an array.
pub(crate) fn put_array<T: Put>(
    writer: &mut Writer,
    blocks: u32,
    elements: &[T],
) -> Result<(), AllocError>
    ensures before { writer.new.before ≡ writer.old.before }
    ensures tokens { OnOk result (writer.new.tokens ≡ writer.old.tokens ++ array_of (T.tokens_of blocks) elements.now) }
{
    writer.begin_array()?;
    for element in elements {
        element.put(writer, blocks)?;
    }
    writer.end_array()
}
