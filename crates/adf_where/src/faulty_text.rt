//! What is told of blocks of a refused image, written piece by piece.
ghost use Rattle.std.specs.Prelude.{◌≡◌, ◌++◌, OnErr, OnOk};
ghost use Rattle.std.specs.Io.KnownBytes.{Appends};
ghost use Rattle.adf_io.specs.Prefix.{Passes, WritesFront};
ghost use Rattle.adf_where.specs.steps.Parts.{block_part, blocks_text, head_part, object_end, place_part, tail_part};

use crate::faulty::FaultyBlock;
use crate::faulty_lines::{push_behind, push_first, push_place_line};
use crate::faulty_objects::{head_text, tail_text};
use crate::forms::{object_text, opening, push_comma};
use adf_io::{PrintFault, write_text, write_when_long};
use ados_census::Place;
use std::alloc::{AllocError, Global};
use std::io::Write;

/// Writes what is before these blocks, and then what is told of them: lines, or with `json` an array and the end of the object
/// that it is in.
pub(crate) fn write_faulty<W: Write>(
    alloc: Global,
    blocks: u32,
    told: &[FaultyBlock<'_>],
    json: bool,
    front: &[u8],
    writer: &mut W,
) -> Result<(), PrintFault>
    ensures ok { OnOk result (Appends (W.contents writer.old) (W.contents writer.new) (front.now ++ blocks_text json blocks told.now)) }
    ensures front { OnErr result (WritesFront (W.contents writer.old) (W.contents writer.new) (front.now ++ blocks_text json blocks told.now)) }
{
    let mut text = Vec::from_slice(alloc, front)?;
    text.extend_from_slice(opening(json))?;
    for place in 0..told.len() {
        push_comma(&mut text, json, place == 0)?;
        write_block(alloc, &mut text, blocks, &told[place], json, writer)?;
    }
    text.extend_from_slice(object_end(json))?;
    write_text(text.as_slice(), writer)
}

/// What is behind what is told of all blocks: with `json` the end of the array, of the object, and of its line.
fn object_end(json: bool) -> &'static [u8]
    ensures { result.now ≡ object_end json }
{
    if json { b"]}\n" } else { b"" }
}

/// Appends what is told of a block, and writes it as far as it is long.
fn write_block<W: Write>(
    alloc: Global,
    text: &mut Vec<u8>,
    blocks: u32,
    told: &FaultyBlock<'_>,
    json: bool,
    writer: &mut W,
) -> Result<(), PrintFault>
    ensures ok { OnOk result (Passes (W.contents writer.old) (W.contents writer.new) (text.old.items ++ block_part json blocks told.now) text.new.items) }
    ensures front { OnErr result (WritesFront (W.contents writer.old) (W.contents writer.new) (text.old.items ++ block_part json blocks told.now)) }
{
    push_head(alloc, text, blocks, told, json)?;
    for at in 0..told.places.len() {
        push_place(
            alloc,
            text,
            blocks,
            told.block,
            told.places[at],
            json,
            at == 0,
        )?;
        write_when_long(text, writer)?;
    }
    push_tail(alloc, text, told, json)?;
    Ok(())
}

/// Appends what is told of a block before its places.
fn push_head(
    alloc: Global,
    text: &mut Vec<u8>,
    blocks: u32,
    told: &FaultyBlock<'_>,
    json: bool,
) -> Result<(), AllocError>
    ensures { OnOk result (text.new.items ≡ text.old.items ++ head_part json blocks told.now) }
{
    if !json {
        return push_first(alloc, text, blocks, told);
    }
    let head = head_text(alloc, blocks, told.block)?;
    text.extend_from_slice(&head)
}

/// Appends what is told of a place that names a block.
fn push_place(
    alloc: Global,
    text: &mut Vec<u8>,
    blocks: u32,
    block: u32,
    place: Place,
    json: bool,
    is_first: bool,
) -> Result<(), AllocError>
    ensures { OnOk result (text.new.items ≡ text.old.items ++ place_part json is_first blocks block place) }
{
    push_comma(text, json, is_first)?;
    if !json {
        return push_place_line(alloc, text, blocks, block, place);
    }
    let object = object_text(alloc, blocks, &place)?;
    text.extend_from_slice(&object)
}

/// Appends what is told of a block behind its places.
fn push_tail(
    alloc: Global,
    text: &mut Vec<u8>,
    told: &FaultyBlock<'_>,
    json: bool,
) -> Result<(), AllocError>
    ensures { OnOk result (text.new.items ≡ text.old.items ++ tail_part json told.now) }
{
    if !json {
        return push_behind(alloc, text, told);
    }
    let tail = tail_text(alloc, told)?;
    text.extend_from_slice(&tail)
}
