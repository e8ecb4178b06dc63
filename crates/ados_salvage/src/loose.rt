//! Files whose header is gone, from the OFS data blocks that name it, or from the FFS extension blocks that do.
ghost use Rattle.std.specs.Prelude.{◌≡◌, ◌<◌, ◌≤◌, ◌+◌, ℕ, IfOk, IfSome, MatchOption, OnOk, length, ⊤};
ghost use Rattle.adf_block.specs.Image.{block_count};
ghost use Rattle.ados_salvage.specs.Known.{AreKnown};
ghost use Rattle.ados_salvage.specs.Loose.{IsLeft, IsLooseData};
ghost use Rattle.ados_salvage.specs.Salvaged.{IsLoose, broken_length};
ghost use Rattle.ados_salvage.specs.steps.Counting.{GivesMore};
ghost use Rattle.ados_salvage.specs.steps.Giving.{IsGiving};
ghost use Rattle.ados_salvage.specs.steps.Settling.{AreSettled};

use crate::extensions::{give_listed, loose_extensions};
use crate::gathered::Gathered;
use crate::giving::{Giving, Piece, Remains};
use crate::known::{Known, Part, is_loose_data, is_own_data, is_used};
use crate::salvaged::{HeaderState, State};
use crate::state::damaged;
use adf_block::layout::{HELD, NEXT_DATA, OFS_ROOM};
use adf_block::{Format, Image};
use std::alloc::AllocError;

/// Adds a file for each header that is not told and that OFS data blocks or FFS extension blocks with right checksums name: in
/// place of the lost entry with that block, if there is one, and else as a recovered one. There is none if a bitmap that can be
/// trusted marks all of these blocks free. Of OFS data blocks with one number the lowest is taken.
pub(crate) fn add_loose(known: &Known, gathered: &mut Gathered) -> Result<(), AllocError>
    requires { AreSettled known.now 0 gathered.old }
    ensures { OnOk result ((next : ℕ) × AreSettled known.now next gathered.new) }
{
    match known.image.format() {
        Format::Ofs => add_files(known, &known.numbered, gathered),
        Format::Ffs => {
            let parts = loose_extensions(known, &gathered.giving.links)?;
            add_files(known, &parts, gathered)
        }
    }
}

/// Adds the files that these parts name.
fn add_files(known: &Known, parts: &[Part], gathered: &mut Gathered) -> Result<(), AllocError>
    requires { AreSettled known.now 0 gathered.old }
    ensures { OnOk result ((next : ℕ) × AreSettled known.now next gathered.new) }
{
    replace_lost(known, parts, gathered)?;
    add_found(known, parts, gathered)
}

/// Those that name a header; none if they are all deleted.
fn naming<'a>(known: &Known, parts: &'a [Part], header: u32) -> &'a [Part]
    requires { AreKnown known.now }
{
    let first = parts.partition_point(|part| part.header < header);
    let end = parts.partition_point(|part| part.header <= header);
    if first >= end {
        return &[];
    }
    let parts = &parts[first..end];
    if known.trusted && parts.iter().all(|part| !is_used(&known.image, part.block)) {
        return &[];
    }
    parts
}

/// Gives the lost entries the data blocks of the parts that name them.
fn replace_lost(known: &Known, parts: &[Part], gathered: &mut Gathered) -> Result<(), AllocError>
    requires { AreSettled known.now 0 gathered.old }
    ensures { OnOk result (AreSettled known.now 0 gathered.new) }
{
    for place in 0..gathered.entries.len() {
        replace(known, parts, place, gathered)?;
    }
    Ok(())
}

/// Gives the entry at a position the data blocks of the parts that name it, if it is lost.
fn replace(
    known: &Known,
    parts: &[Part],
    place: usize,
    gathered: &mut Gathered,
) -> Result<(), AllocError>
    requires place { place < length gathered.old.entries.items }
    requires settled { AreSettled known.now 0 gathered.old }
    ensures settled { OnOk result (AreSettled known.now 0 gathered.new) }
    ensures count { length gathered.new.entries.items ≡ length gathered.old.entries.items }
{
    let State::Lost = gathered.entries[place].state else {
        return Ok(());
    };
    let header = gathered.entries[place].header;
    let state = loose_state(known, parts, header, place, &mut gathered.giving)?;
    if let Some(state) = state {
        gathered.entries[place].state = state;
    }
    Ok(())
}

/// Adds the files of the headers that have no entry.
fn add_found(known: &Known, parts: &[Part], gathered: &mut Gathered) -> Result<(), AllocError>
    requires { AreSettled known.now 0 gathered.old }
    ensures { OnOk result ((next : ℕ) × AreSettled known.now next gathered.new) }
{
    let mut next = 0_u64;
    for part in parts {
        if u64::from(part.header) < next {
            continue;
        }
        add_file(known, parts, part.header, gathered)?;
        next = u64::from(part.header) + 1;
    }
    Ok(())
}

/// Adds the file of a header, if it has no entry and something is left of it.
fn add_file(
    known: &Known,
    parts: &[Part],
    header: u32,
    gathered: &mut Gathered,
) -> Result<(), AllocError>
    requires known { AreKnown known.now }
    requires giving { IsGiving known.now.holes.items known.now.image gathered.old.giving }
    ensures { OnOk result ((next : ℕ) → next ≤ header → AreSettled known.now next gathered.old → AreSettled known.now (header + 1) gathered.new) }
{
    if gathered.has(header) {
        return Ok(());
    }
    let place = gathered.entries.len();
    let state = loose_state(known, parts, header, place, &mut gathered.giving)?;
    match state {
        Some(state) => gathered.add_loose(known.alloc, header, state),
        None => Ok(()),
    }
}

/// The state of a file without a header, whose entry has this position and is given its data blocks. `None` if the header is
/// told, or if no block is left for it.
fn loose_state(
    known: &Known,
    parts: &[Part],
    header: u32,
    place: usize,
    giving: &mut Giving,
) -> Result<Option<State>, AllocError>
    requires known { AreKnown known.now }
    requires giving { IsGiving known.now.holes.items known.now.image giving.old }
    ensures state { IfOk result (λ state. IfSome state (IsLoose known.now.left_out known.now.image header)) }
    ensures giving { OnOk result (IsGiving known.now.holes.items known.now.image giving.new) }
    ensures left { IfOk result (λ state. MatchOption state (giving.new.left ≡ giving.old.left) (λ state. broken_length state + giving.new.left ≡ giving.old.left)) }
    ensures more { OnOk result (GivesMore known.now.image header place giving.old.pieces.items giving.new.pieces.items) }
    ensures none { IfOk result (λ state. MatchOption state (giving.new.pieces.items ≡ giving.old.pieces.items) (λ some. ⊤)) }
{
    if known.is_header(header) {
        return Ok(None);
    }
    let parts = naming(known, parts, header);
    let Some(remains) = give(known, header, place, parts, giving)? else {
        return Ok(None);
    };
    let state = damaged(remains, giving.left, HeaderState::Gone);
    giving.left -= state.broken_length();
    Ok(Some(state))
}

/// Gives a file without a header, whose entry has this position, the data blocks of these parts. The result is `None` if no block
/// is left for it.
fn give(
    known: &Known,
    header: u32,
    place: usize,
    parts: &[Part],
    giving: &mut Giving,
) -> Result<Option<Remains>, AllocError>
    requires giving { IsGiving known.now.holes.items known.now.image giving.old }
    ensures named { IfOk result (λ remains. IfSome remains (λ some. (block : ℕ) × IsLeft known.now.image header block)) }
    ensures giving { OnOk result (IsGiving known.now.holes.items known.now.image giving.new) }
    ensures left { giving.new.left ≡ giving.old.left }
    ensures more { OnOk result (GivesMore known.now.image header place giving.old.pieces.items giving.new.pieces.items) }
    ensures none { IfOk result (λ remains. MatchOption remains (giving.new.pieces.items ≡ giving.old.pieces.items) (λ some. ⊤)) }
{
    match known.image.format() {
        Format::Ofs => give_data(known, header, place, parts, giving),
        Format::Ffs => give_listed(known, header, place, parts, giving),
    }
}

/// Gives a file without a header, whose entry has this position, these OFS data blocks, and of those with one number the first. The
/// result is `None` if no block is left for it.
fn give_data(
    known: &Known,
    header: u32,
    place: usize,
    parts: &[Part],
    giving: &mut Giving,
) -> Result<Option<Remains>, AllocError>
    requires giving { IsGiving known.now.holes.items known.now.image giving.old }
    ensures named { IfOk result (λ remains. IfSome remains (λ some. (block : ℕ) × IsLooseData known.now.image header block)) }
    ensures giving { OnOk result (IsGiving known.now.holes.items known.now.image giving.new) }
    ensures left { giving.new.left ≡ giving.old.left }
    ensures more { OnOk result (GivesMore known.now.image header place giving.old.pieces.items giving.new.pieces.items) }
    ensures none { IfOk result (λ remains. MatchOption remains (giving.new.pieces.items ≡ giving.old.pieces.items) (λ some. ⊤)) }
{
    let image = &known.image;
    let mut there = 0_u32;
    let mut last: Option<Part> = None;
    for part in parts {
        let at = part.number.saturating_sub(1);
        if !last.is_some_and(|last| last.number == part.number)
            && is_loose_data(image, header, part.block)
            && is_own_data(image, header, at, part.block)
            && giving.is_open(part.block)
        {
            giving.note(Piece {
                place,
                at,
                block: part.block,
            })?;
            there = there.saturating_add(1);
            last = Some(*part);
        }
    }
    match last {
        Some(last) => Ok(Some(remains_of(image, last, there))),
        None => Ok(None),
    }
}

/// What is left of a file without a header, by its last data block and the number of those that are there. If the last one
/// names another, one more is missing.
fn remains_of(image: &Image, last: Part, there: u32) -> Remains
    requires { last.block < block_count image.now }
{
    let room = OFS_ROOM as usize;
    let before = last.number.saturating_sub(1) as usize * room;
    let held = image.long(last.block, HELD).min(OFS_ROOM) as usize;
    let more = u32::from(image.long(last.block, NEXT_DATA) != 0);
    Remains {
        missing: last.number.saturating_sub(there).saturating_add(more),
        end: (before + held).min(image.blocks() as usize * room),
    }
}
