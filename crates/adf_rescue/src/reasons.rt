//! Why each entry is doubtful or cut short.
ghost use Rattle.std.specs.Prelude.{◌≡◌, ◌≢◌, IfOk, IsTrue, true};
ghost use Rattle.adf_rescue.specs.Reasons.{AreDoubts, IsBlockDoubt, IsGoneDoubt, IsHeaderDoubt, IsInOther, IsReason, is_part};
ghost use Rattle.adf_block.specs.Image.{block_sum};
ghost use Rattle.ados_census.specs.Fillers.{HoldsFiller};
ghost use Rattle.ados_salvage.specs.Marks.{IsHole};
ghost use Rattle.ados_salvage.specs.Parts.{header_at};

use crate::doubt::Doubt;
use crate::evidence::{Hint, Link, is_part};
use crate::hints::{hint_at, hints};
use adf_block::layout::COMMENT_BYTE;
use ados_census::holds_filler;
use ados_salvage::{HeaderState, Salvage, Salvaged, State, is_hole};
use std::alloc::{AllocError, Global};

/// The most letters of a comment.
const MOST_LETTERS: u8 = 79;

/// For each entry, why it is doubtful or cut short, if it is. What the hints say is looked at once more.
pub(crate) fn doubts(alloc: Global, salvage: &Salvage) -> Result<Vec<Option<Doubt>>, AllocError>
    ensures { IfOk result (λ doubts. AreDoubts salvage.now doubts.items) }
{
    let entries = salvage.entries();
    let hints = hints(alloc, salvage)?;
    let mut doubts = Vec::with_capacity(alloc, entries.len())?;
    for entry in entries {
        let hint = hint_at(&hints, doubts.len(), entry.header);
        doubts.push(doubt_of(salvage, entry.header, entry.state, hint))?;
    }
    Ok(doubts)
}

/// Why an entry with this header and this state is doubtful or cut short, if it is.
fn doubt_of(salvage: &Salvage, header: u32, state: State, hint: Hint) -> Option<Doubt>
    ensures { IsReason salvage.now header state result }
{
    match state {
        State::DoubtfulDirectory => Some(header_doubt(salvage, header)),
        State::Doubtful {
            header: heading,
            ..
        } => match heading {
            HeaderState::Sound => Some(block_doubt(salvage, header, hint)),
            HeaderState::Doubtful => Some(header_doubt(salvage, header)),
            HeaderState::Gone => Some(gone_doubt(salvage, header)),
        },
        State::Broken { cut: true, .. } => Some(Doubt::Cut),
        _ => None,
    }
}

/// Why a header is doubtful, by its own bytes.
fn header_doubt(salvage: &Salvage, header: u32) -> Doubt
    ensures { IsHeaderDoubt salvage.now header result }
{
    let image = salvage.image();
    if header >= image.blocks() {
        return Doubt::Field(header);
    }
    if image.sum(header) != 0 {
        return Doubt::Sum(header);
    }
    if image.byte(header, COMMENT_BYTE) > MOST_LETTERS {
        return Doubt::Comment;
    }
    Doubt::Field(header)
}

/// Why a file without a header is doubtful.
fn gone_doubt(salvage: &Salvage, header: u32) -> Doubt
    ensures { IsGoneDoubt salvage.now header result }
{
    if is_hole(salvage.holes(), header) {
        return Doubt::Hole(header);
    }
    Doubt::Gone
}

/// Why a file with a sound header is doubtful: what the hint says, if it holds.
fn block_doubt(salvage: &Salvage, header: u32, hint: Hint) -> Doubt
    ensures { IsBlockDoubt salvage.now header hint result }
{
    match hint.doubt {
        Doubt::Sum(block) if has_wrong_sum(salvage, header, hint.own, block) => Doubt::Sum(block),
        Doubt::Hole(block) if is_unread(salvage, header, hint.own, block) => Doubt::Hole(block),
        Doubt::Shared(block, place) if is_shared(salvage, header, hint, block, place) => {
            Doubt::Shared(block, place)
        }
        Doubt::Filler(block) if is_filled(salvage, header, hint.own, block) => Doubt::Filler(block),
        Doubt::Field(block) if is_part(salvage.image(), header, hint.own, block) => {
            Doubt::Field(block)
        }
        _ => Doubt::Field(header),
    }
}

/// Whether a block is one of the entry with this header, and has a wrong checksum.
fn has_wrong_sum(salvage: &Salvage, header: u32, link: Link, block: u32) -> bool
    ensures { IsTrue result → (is_part salvage.now.image header link block ≡ true) × (block_sum salvage.now.image block ≢ 0) }
{
    let image = salvage.image();
    is_part(image, header, link, block) && block < image.blocks() && image.sum(block) != 0
}

/// Whether a block is one of the entry with this header, and nobody read it.
fn is_unread(salvage: &Salvage, header: u32, link: Link, block: u32) -> bool
    ensures { IsTrue result → (is_part salvage.now.image header link block ≡ true) × IsHole salvage.now.holes block }
{
    is_part(salvage.image(), header, link, block) && is_hole(salvage.holes(), block)
}

/// Whether a block is one of the entry with this header, and holds a known filler where fillers count.
fn is_filled(salvage: &Salvage, header: u32, link: Link, block: u32) -> bool
    ensures { IsTrue result → (is_part salvage.now.image header link block ≡ true) × (salvage.now.fillers ≡ true) × HoldsFiller salvage.now.image block }
{
    let image = salvage.image();
    is_part(image, header, link, block)
        && salvage.counts_fillers()
        && block < image.blocks()
        && holds_filler(image, block)
}

/// Whether a block is one of the entry with this header, and of another at this position too.
fn is_shared(salvage: &Salvage, header: u32, hint: Hint, block: u32, place: usize) -> bool
    ensures { IsTrue result → (is_part salvage.now.image header hint.own block ≡ true) × IsInOther salvage.now header hint.other block place }
{
    is_part(salvage.image(), header, hint.own, block)
        && is_in_other(salvage, header, hint.other, block, place)
}

/// Whether a block is one of the entry at this position, and that has another header than this one.
fn is_in_other(salvage: &Salvage, header: u32, link: Link, block: u32, place: usize) -> bool
    ensures { IsTrue result → IsInOther salvage.now header link block place }
{
    let entries = salvage.entries();
    if place >= entries.len() {
        return false;
    }
    let other = header_at(entries, place);
    other != header && is_part(salvage.image(), other, link, block)
}

/// The header of the entry at a position; 0 if there is none.
fn header_at(entries: &[Salvaged], place: usize) -> u32
    ensures { result ≡ header_at entries.now place }
{
    match entries.get(place) {
        Some(entry) => entry.header,
        None => 0,
    }
}
