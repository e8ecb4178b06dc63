//! The lines of blocks of a refused image.
ghost use Rattle.std.specs.Prelude.{◌≡◌, ◌++◌, IfOk, OnOk, flat_map, option_map};
ghost use Rattle.std.specs.String.{string_bytes};
ghost use Rattle.adf_where.specs.Faulty.{behind_lines, block_line, fault_line, first_line, first_words, place_words};

use crate::faulty::FaultyBlock;
use crate::where_lines::{place_text, push_unread};
use adf_archive::kind_word;
use adf_block::layout::{BOOT_BLOCKS, FIRST_PAGE, FIRST_POINTER};
use ados_census::{Place, PlaceKind};
use ados_model::VolumeFault;
use std::alloc::{AllocError, Global};

/// Appends a line of a block.
fn push_line(
    alloc: Global,
    text: &mut Vec<u8>,
    blocks: u32,
    block: u32,
    words: &str,
) -> Result<(), AllocError>
    ensures { OnOk result (text.new.items ≡ text.old.items ++ block_line blocks block words.now) }
{
    let place = place_text(alloc, blocks, block)?;
    text.extend_from_slice(place.as_bytes())?;
    text.extend_from_slice(words.as_bytes())?;
    text.push(b'\n')?;
    Ok(())
}

/// Appends the line before the places of a block, if there is one.
pub(crate) fn push_first(
    alloc: Global,
    text: &mut Vec<u8>,
    blocks: u32,
    told: &FaultyBlock<'_>,
) -> Result<(), AllocError>
    ensures { OnOk result (text.new.items ≡ text.old.items ++ first_line blocks told.now) }
{
    match first_words(told) {
        Some(words) => push_line(alloc, text, blocks, told.block, words),
        None => Ok(()),
    }
}

/// What is said of a block before its places: what it always is, or that nothing names it.
fn first_words(told: &FaultyBlock<'_>) -> Option<&'static str>
    ensures { option_map (λ words. words.now) result ≡ first_words told.now }
{
    if told.block < BOOT_BLOCKS {
        return Some("boot block");
    }
    if told.is_root {
        return Some("root");
    }
    if told.places.is_empty() {
        return Some("named by nothing");
    }
    None
}

/// Appends the line of a place that names a block.
pub(crate) fn push_place_line(
    alloc: Global,
    text: &mut Vec<u8>,
    blocks: u32,
    block: u32,
    place: Place,
) -> Result<(), AllocError>
    ensures { OnOk result (text.new.items ≡ text.old.items ++ block_line blocks block (place_words place)) }
{
    let words = place_words(alloc, place)?;
    push_line(alloc, text, blocks, block, words.as_str())
}

/// What a place makes of the block that it names, and of which block it is.
fn place_words(alloc: Global, place: Place) -> Result<String, AllocError>
    ensures { IfOk result (λ words. string_bytes words ≡ place_words place) }
{
    let Place { holder, long, kind } = place;
    match kind {
        PlaceKind::Entry => format!(in alloc; "entry of block {holder}, long {long}"),
        PlaceKind::NextEntry => format!(in alloc; "next entry of block {holder}"),
        PlaceKind::Extension => format!(in alloc; "extension of block {holder}"),
        PlaceKind::Data => {
            let number = FIRST_POINTER.saturating_sub(long);
            format!(in alloc; "data {number} of block {holder}")
        }
        PlaceKind::Page => {
            let number = long.saturating_sub(FIRST_PAGE);
            format!(in alloc; "bitmap block {number} of block {holder}")
        }
    }
}

/// Appends the lines behind those of the places: one for each fault, and one if the block could not be read.
pub(crate) fn push_behind(
    alloc: Global,
    text: &mut Vec<u8>,
    told: &FaultyBlock<'_>,
) -> Result<(), AllocError>
    ensures { OnOk result (text.new.items ≡ text.old.items ++ behind_lines told.now) }
{
    push_faults(alloc, text, told.faults)?;
    push_unread(alloc, text, told.unread, told.block)
}

/// Appends a line for each fault.
fn push_faults(alloc: Global, text: &mut Vec<u8>, faults: &[VolumeFault]) -> Result<(), AllocError>
    ensures { OnOk result (text.new.items ≡ text.old.items ++ flat_map fault_line faults.now) }
{
    for fault in faults {
        let line = fault_line(alloc, *fault)?;
        text.extend_from_slice(line.as_bytes())?;
    }
    Ok(())
}

/// The line of a fault.
fn fault_line(alloc: Global, fault: VolumeFault) -> Result<String, AllocError>
    ensures { IfOk result (λ line. string_bytes line ≡ fault_line fault) }
{
    let VolumeFault { kind, block } = fault;
    let line = format!(in alloc; "{block}  fault {}\n", kind_word(kind))?;
    Ok(line)
}
