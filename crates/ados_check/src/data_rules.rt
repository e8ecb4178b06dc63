//! The rules that a data block of an OFS file keeps at its place in the file, each with the long that shows that it is
//! broken: one table, for the check, which stops at the first fault, and for the list of all faults.
ghost use Rattle.std.specs.Prelude.{◌≡◌, ◌≢◌, ◌<◌, ◌^◌, ◌↔◌, IfSome, IsTrue, if◌then◌else◌, is_some, nat_lt};
ghost use Rattle.adf_block.specs.Fields.{sequence_number};
ghost use Rattle.adf_block.specs.Image.{block_count};
ghost use Rattle.ados_check.specs.DataRules.{BreaksRule, HoldsTooLittle, TellsHeader, data_evidence, kind_of_data};
ghost use Rattle.ados_check.specs.Evidence.{evidence_of};

use crate::evidence::{Evidence, other_at};
use crate::source::Source;
use adf_block::layout::{HELD, NEXT_DATA, OFS_ROOM, SEQUENCE};
use ados_model::FaultKind;

/// A data block at its place in a file.
#[derive(Clone, Copy)]
pub struct Place {
    pub block: u32,
    /// The number of data blocks before it.
    pub position: u64,
    /// The data block after it, unless it is the last one.
    pub next: Option<u32>,
}

/// A rule for the fields of a data block at its place.
#[derive(Clone, Copy)]
pub enum DataRule {
    /// The sequence number is the position in the file, from 1.
    Sequence,
    /// A block is not empty, and each but the last one is full.
    TooFew,
    /// A block has no more bytes than fit into it.
    TooMany,
    /// A block links the next one, and the last one none.
    Link,
}

/// The rules of data blocks, in the order in which the check looks at them.
pub const DATA_RULES: [DataRule; 4] = [
    DataRule::Sequence,
    DataRule::TooFew,
    DataRule::TooMany,
    DataRule::Link,
];

impl DataRule {
    /// The kind of fault of a block that breaks the rule.
    pub fn kind(self) -> FaultKind
        ensures { result ≡ kind_of_data self }
    {
        match self {
            DataRule::Sequence => FaultKind::BadSequence,
            DataRule::TooFew | DataRule::TooMany => FaultKind::BadCount,
            DataRule::Link => FaultKind::BadPointer,
        }
    }
}

/// The field of a data block that breaks a rule at its place.
#[inline(always)]
pub fn data_evidence(source: &Source<'_>, place: Place, rule: DataRule) -> Option<Evidence>
    requires inside { place.block < block_count source.now.bytes }
    requires few { place.position < 2 ^ 63 }
    requires told { TellsHeader source.now place.block }
    ensures broken { IsTrue (is_some result) ↔ BreaksRule source.now.bytes place rule }
    ensures evidence { IfSome result (λ e. e ≡ data_evidence source.now.bytes place rule) }
{
    match rule {
        DataRule::Sequence => number_evidence(source, place.block, place.position + 1),
        DataRule::TooFew => held_evidence(source, place, holds_too_little(source, place)),
        DataRule::TooMany => {
            let is_wrong = source.long(place.block, HELD) > OFS_ROOM;
            held_evidence(source, place, is_wrong)
        }
        DataRule::Link => other_at(source, place.block, NEXT_DATA, place.next.unwrap_or(0)),
    }
}

/// The sequence number, if it is not this one. No long holds a number from 2^32.
#[inline(always)]
fn number_evidence(source: &Source<'_>, block: u32, number: u64) -> Option<Evidence>
    requires inside { block < block_count source.now.bytes }
    requires told { TellsHeader source.now block }
    ensures broken { IsTrue (is_some result) ↔ (sequence_number source.now.bytes block ≢ number) }
    ensures evidence { IfSome result (λ e. e ≡ evidence_of source.now.bytes block SEQUENCE (if nat_lt number (2 ^ 32) then Some number else None)) }
{
    if u64::from(source.long(block, SEQUENCE)) == number {
        return None;
    }
    let wanted = if number <= u64::from(u32::MAX) {
        Some(number as u32)
    } else {
        None
    };
    Some(Evidence::of(source, block, SEQUENCE, wanted))
}

/// The number of bytes in a data block, if it is wrong. Before another block only the full number is right.
#[inline(always)]
fn held_evidence(source: &Source<'_>, place: Place, is_wrong: bool) -> Option<Evidence>
    requires inside { place.block < block_count source.now.bytes }
    requires told { TellsHeader source.now place.block }
    ensures broken { is_some result ≡ is_wrong }
    ensures evidence { IfSome result (λ e. e ≡ evidence_of source.now.bytes place.block HELD (if is_some place.next then Some OFS_ROOM else None)) }
{
    if !is_wrong {
        return None;
    }
    let full = match place.next {
        Some(_) => Some(OFS_ROOM),
        None => None,
    };
    Some(Evidence::of(source, place.block, HELD, full))
}

/// Whether a data block is empty, or is not full and not the last one.
fn holds_too_little(source: &Source<'_>, place: Place) -> bool
    requires inside { place.block < block_count source.now.bytes }
    requires told { TellsHeader source.now place.block }
    ensures { IsTrue result ↔ HoldsTooLittle source.now.bytes place.block place.next }
{
    let held = source.long(place.block, HELD);
    if held == 0 {
        return true;
    }
    if place.next.is_none() {
        return false;
    }
    held != OFS_ROOM
}
