//! The OFS data blocks that a file is given by the numbers in them, where its pointers and links give nothing.
ghost use Rattle.std.specs.Prelude.{◌≡◌, ◌+◌, ◌<◌, ◌≤◌, ℕ, IfOk, IsTrue, List, OnOk};
ghost use Rattle.ados_salvage.specs.declared.giving.Piece.{Piece as Given};
ghost use Rattle.ados_salvage.specs.Due.{IsDue};
ghost use Rattle.ados_salvage.specs.steps.Counting.{GivesFirst};
ghost use Rattle.ados_salvage.specs.steps.Giving.{IsGiving, IsOpen};

use crate::giving::{Giving, Piece};
use crate::known::{Known, Part, is_loose_data, is_own_data};
use std::alloc::AllocError;

/// What a file has of its first data blocks.
#[derive(Clone, Copy)]
pub(crate) struct Kept {
    /// How many data blocks were looked for.
    pub(crate) next: u32,
    /// How many of them are there.
    pub(crate) there: u32,
    /// The number of the last one that is there, from 1; 0 if none is.
    pub(crate) last: u32,
    /// Where the rest of the file's blocks begins in the list of numbered ones.
    pub(crate) from: usize,
}

impl Kept {
    /// No data block of a file was looked for.
    pub(crate) fn none(known: &Known, file: u32) -> Kept
        ensures next { result.next ≡ 0 }
        ensures there { result.there ≡ 0 }
    {
        Kept {
            next: 0,
            there: 0,
            last: 0,
            from: known.numbered.partition_point(|part| part.header < file),
        }
    }

    /// The same where data block `i` is there.
    pub(crate) fn with(self, i: u32) -> Kept
        requires there { self.there ≤ i }
        requires small { i < 4294967295 }
        ensures next { result.next ≡ i + 1 }
        ensures there { result.there ≡ self.there + 1 }
    {
        Kept {
            next: i + 1,
            there: self.there + 1,
            last: i + 1,
            from: self.from,
        }
    }
}

/// Gives a file, whose entry has this position, its OFS data blocks with right checksums by the numbers in them, up to this number.
/// Of those with one number the lowest is given that still can be.
pub(crate) fn give_numbered(
    known: &Known,
    file: u32,
    place: usize,
    before: Kept,
    needed: u32,
    giving: &mut Giving,
) -> Result<Kept, AllocError>
    requires there { before.there ≤ before.next }
    requires order { before.next ≤ needed }
    requires giving { IsGiving known.now.holes.items known.now.image giving.old }
    ensures next { IfOk result (λ kept. kept.next ≡ needed) }
    ensures there { IfOk result (λ kept. kept.there ≤ needed) }
    ensures giving { OnOk result (IsGiving known.now.holes.items known.now.image giving.new) }
    ensures left { giving.new.left ≡ giving.old.left }
    ensures first { IfOk result (λ kept. (old : List Given) → GivesFirst known.now.image file place before.next before.there old giving.old.pieces.items
        → GivesFirst known.now.image file place needed kept.there old giving.new.pieces.items) }
{
    let mut kept = before;
    for from in before.from..known.numbered.len() {
        let part = known.numbered[from];
        if part.header != file || part.number > needed {
            break;
        }
        kept.from = from + 1;
        if part.number > kept.next && is_next(known, file, part, giving) {
            let at = part.number - 1;
            giving.note(Piece {
                place,
                at,
                block: part.block,
            })?;
            kept = kept.with(at);
        }
    }
    kept.next = needed;
    Ok(kept)
}

/// Whether a block can still be given, and is an OFS data block of a file with this number and a right checksum.
fn is_next(known: &Known, file: u32, part: Part, giving: &Giving) -> bool
    requires { 0 < part.number }
    ensures open { IsTrue result → IsOpen giving.now.given.items part.block }
    ensures due { IsTrue result → (i : ℕ) → i + 1 ≡ part.number → IsDue known.now.image file i part.block }
{
    giving.is_open(part.block)
        && is_loose_data(&known.image, file, part.block)
        && is_own_data(&known.image, file, part.number - 1, part.block)
}
