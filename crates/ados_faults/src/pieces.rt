//! The data blocks of an OFS file, by the header and extension blocks whose pointers name them.
//!
//! A header or extension block of a damaged image may belong to many files. Its data blocks show the same in each of them,
//! but for their positions: at one of two positions each shows that its sequence number is wrong. So they are checked at
//! two positions at most, and then only the last one is, if another data block comes after it.
ghost use Rattle.std.specs.Prelude.{◌≡◌, ◌<◌, ◌+◌, ◌++◌, ℕ, All, Bool, IsTrue, List, None, Some, false, length, slice_index_or, slice_set, true};
ghost use Rattle.adf_block.specs.Image.{block_count};
ghost use Rattle.adf_block.specs.declared.layout.TheConstants.{FIRST_POINTER};
ghost use Rattle.ados_model.specs.Faults.{AreDataBlocks, InImage, IsFile, IsOfs, pointers_of};
ghost use Rattle.ados_check.specs.DataRules.{IsPlaced};
ghost use Rattle.ados_faults.specs.steps.Chain.{IsPiece, first_in, next_in};
ghost use Rattle.ados_faults.specs.steps.FileNotes.{AreAllSeen, AreHeld, ArePlacesNoted, IsHeld, IsOneNoted, IsPieceNoted, HasNext, IsPlaceNoted, is_known};
ghost use Rattle.ados_faults.specs.steps.Longs.{AreLongs, AreTabled};
ghost use Rattle.ados_faults.specs.steps.Tails.{AreTails, IsHeaderList, IsSummary, is_settled_at};
ghost use Rattle.ados_faults.specs.steps.Noted.{AreNoted, AreStillNoted};

use crate::bits::is_inside;
use crate::data_summary::DataSummary;
use crate::header_list::HeaderList;
use crate::header_table::HeaderTable;
use crate::notes::Notes;
use crate::tail::{Tail, is_settled_at};
use adf_block::Image;
use adf_block::beside::KIND_BYTE;
use adf_block::layout::{FEWEST_BLOCKS, FIRST_POINTER};
use ados_check::{DATA_RULES, Place, Source, data_evidence};

/// The data blocks in the pointers of a block, at their places in a file.
#[derive(Clone, Copy)]
struct Piece {
    header: u32,
    /// How many they are.
    count: u32,
    /// The number of data blocks before them.
    position: u64,
    /// The data block after them, unless the file ends there.
    next: Option<u32>,
}

/// The data blocks in the pointers of a block, as they were checked last.
#[derive(Clone, Copy)]
pub(crate) struct Seen {
    piece: Piece,
    /// Whether they were also checked at another position.
    is_settled: bool,
}

/// What was checked of files before.
#[derive(Drop)]
pub(crate) struct Known {
    /// For each block of an OFS file the data blocks in its pointers, as they were checked last.
    pub(crate) seen: Vec<Option<Seen>>,
    /// For each block the chain of header and extension blocks from it on, if it ends outside the image.
    pub(crate) tails: Vec<Option<Tail>>,
}

impl Known {
    /// Keeps what is known of the chain from a block on, if it ends outside the image.
    fn keep_tail(&mut self, is_open: bool, header: u32, summary: DataSummary, position: u64)
        requires { header < length self.old.tails.items }
        ensures seen { self.new.seen.items ≡ self.old.seen.items }
        ensures kept { is_open ≡ true → (is_settled : Bool) × (is_settled ≡ is_settled_at (slice_index_or self.old.tails.items header None) position) × (self.new.tails.items ≡ slice_set self.old.tails.items header (Some (record { summary = summary; position = position; is_settled = is_settled }))) }
        ensures same { is_open ≡ false → self.new.tails.items ≡ self.old.tails.items }
    {
        if !is_open {
            return;
        }
        let is_settled = is_settled_at(self.tails[header as usize], position);
        self.tails[header as usize] = Some(Tail {
            summary,
            position,
            is_settled,
        });
    }
}

/// Checks the data blocks of a file at their places, from the last one that is not known to the first. The result sums up
/// all of them.
pub(crate) fn look_along(
    image: &Image,
    file: u32,
    headers: &HeaderList,
    table: &HeaderTable,
    known: &mut Known,
    notes: &mut Notes,
) -> DataSummary
    requires noted { AreNoted image.now notes.old.cells.items }
    requires file { IsFile image.now file }
    requires inside { All (InImage image.now) headers.now.listed.list.items }
    requires list { IsHeaderList image.now notes.old.cells.items file headers.now.listed.list.items headers.now }
    requires table { AreTabled image.now table.now.nexts.items table.now.counts.items table.now.firsts.items }
    requires held { IsOfs image.now → AreHeld image.now table.now.held.items }
    requires seen { AreAllSeen image.now notes.old.cells.items known.old.seen.items }
    requires tails { AreTails image.now notes.old.cells.items known.old.tails.items }
    ensures noted { AreNoted image.now notes.new.cells.items }
    ensures stays { AreStillNoted notes.old.cells.items notes.new.cells.items }
    ensures seen { AreAllSeen image.now notes.new.cells.items known.new.seen.items }
    ensures tails { AreTails image.now notes.new.cells.items known.new.tails.items }
    ensures summary { (blocks : List ℕ) → AreDataBlocks image.now file blocks → IsSummary image.now blocks result }
    ensures places { IsOfs image.now → (blocks : List ℕ) → AreDataBlocks image.now file blocks → ArePlacesNoted image.now notes.new.cells.items blocks 0 }
{
    prove!(image.blocks() >= FEWEST_BLOCKS);
    let _file = file;
    let mut position = headers.count;
    let mut summary = headers.rest;
    for passed in 0..headers.listed.list.len() {
        let header = headers.listed.list[headers.listed.list.len() - 1 - passed];
        let count = table.counts[header as usize];
        position -= u64::from(count);
        let piece = Piece {
            header,
            count,
            position,
            next: summary.first,
        };
        let first = look_at_piece(image, piece, &table.firsts, &mut known.seen, notes);
        summary = DataSummary {
            count: summary.count + u64::from(count),
            held: held_with(&table.held, header, summary.held),
            first,
        };
        known.keep_tail(headers.is_open, header, summary, position);
    }
    summary
}

/// In OFS the number of bytes that the data blocks in the pointers of a block hold, together with others.
fn held_with(held: &[Option<u64>], header: u32, others: Option<u64>) -> Option<u64>
    ensures { (image blocks : List ℕ) → header < block_count image → AreHeld image held.now → IsHeld image blocks others → IsHeld image (pointers_of image header ++ blocks) result }
{
    if header as usize >= held.len() {
        return None;
    }
    let Some(own) = held[header as usize] else {
        return None;
    };
    let Some(more) = others else {
        return None;
    };
    Some(own.saturating_add(more))
}

/// Checks the data blocks of a piece of an OFS file, but not those of which all is known. The result is the first one, or
/// the data block after the piece if it has none. The data blocks of FFS files have no fields.
fn look_at_piece(
    image: &Image,
    piece: Piece,
    firsts: &[u32],
    seen: &mut [Option<Seen>],
    notes: &mut Notes,
) -> Option<u32>
    requires noted { AreNoted image.now notes.old.cells.items }
    requires firsts { AreLongs image.now FIRST_POINTER firsts.now }
    requires inside { InImage image.now piece.header }
    requires piece { IsOfs image.now → IsPiece image.now piece }
    requires seen { AreAllSeen image.now notes.old.cells.items seen.old }
    ensures noted { AreNoted image.now notes.new.cells.items }
    ensures stays { AreStillNoted notes.old.cells.items notes.new.cells.items }
    ensures seen { AreAllSeen image.now notes.new.cells.items seen.new }
    ensures piece { IsOfs image.now → IsPieceNoted image.now notes.new.cells.items piece }
    ensures first { IsOfs image.now → result ≡ first_in image.now piece }
{
    if image.byte(0, KIND_BYTE) != 0 {
        return None;
    }
    if piece.count == 0 {
        return piece.next;
    }
    let first = Some(firsts[piece.header as usize]);
    let before = seen[piece.header as usize];
    if !is_known(before, piece.position) {
        look_at_all_in(image, piece, notes);
        seen[piece.header as usize] = Some(Seen {
            piece,
            is_settled: before.is_some(),
        });
        return first;
    }
    if has_next(before, piece.next) {
        return first;
    }
    look_at_one(image, piece, piece.count - 1, notes);
    first
}

/// Whether all data blocks of a piece but the last one need no check at this position.
fn is_known(seen: Option<Seen>, position: u64) -> bool
    ensures { result ≡ is_known seen position }
{
    match seen {
        Some(seen) => seen.is_settled || seen.piece.position == position,
        None => false,
    }
}

/// Whether the data blocks were checked last with this one after them.
fn has_next(seen: Option<Seen>, next: Option<u32>) -> bool
    ensures { IsTrue result → HasNext seen next }
{
    match seen {
        Some(seen) => seen.piece.next == next,
        None => false,
    }
}

/// Checks each data block of a piece.
fn look_at_all_in(image: &Image, piece: Piece, notes: &mut Notes)
    requires noted { AreNoted image.now notes.old.cells.items }
    requires ofs { IsOfs image.now }
    requires piece { IsPiece image.now piece }
    ensures noted { AreNoted image.now notes.new.cells.items }
    ensures stays { AreStillNoted notes.old.cells.items notes.new.cells.items }
    ensures piece { IsPieceNoted image.now notes.new.cells.items piece }
{
    for i in 0..piece.count {
        look_at_one(image, piece, i, notes);
    }
}

/// Checks one data block of a piece.
fn look_at_one(image: &Image, piece: Piece, i: u32, notes: &mut Notes)
    requires noted { AreNoted image.now notes.old.cells.items }
    requires ofs { IsOfs image.now }
    requires piece { IsPiece image.now piece }
    requires within { i < piece.count }
    ensures noted { AreNoted image.now notes.new.cells.items }
    ensures stays { AreStillNoted notes.old.cells.items notes.new.cells.items }
    ensures place { IsOneNoted image.now notes.new.cells.items piece i }
{
    let place = Place {
        block: image.long(piece.header, FIRST_POINTER - i),
        position: piece.position + u64::from(i),
        next: next_of(image, piece, i),
    };
    look_at_place(image, place, notes);
}

/// The data block after number `i` of a piece.
fn next_of(image: &Image, piece: Piece, i: u32) -> Option<u32>
    requires piece { IsPiece image.now piece }
    requires within { i < piece.count }
    ensures { result ≡ next_in image.now piece i }
{
    let next = i + 1;
    if next == piece.count {
        return piece.next;
    }
    Some(image.long(piece.header, FIRST_POINTER - next))
}

/// Checks a data block at its place, if it is inside the image.
pub(crate) fn look_at_place(image: &Image, place: Place, notes: &mut Notes)
    requires noted { AreNoted image.now notes.old.cells.items }
    requires ofs { IsOfs image.now }
    requires at { IsPlaced image.now place }
    ensures noted { AreNoted image.now notes.new.cells.items }
    ensures stays { AreStillNoted notes.old.cells.items notes.new.cells.items }
    ensures placed { InImage image.now place.block → IsPlaceNoted image.now notes.new.cells.items place.block place.position place.next }
{
    if !is_inside(image, place.block) {
        return;
    }
    let source = Source::whole(image);
    for rule in DATA_RULES.iter() {
        let broken = data_evidence(&source, place, *rule).is_some();
        notes.note_if(image, rule.kind(), place.block, broken);
    }
}
