//! Where to look for what is wrong with files that have sound headers.

use crate::doubt::Doubt;
use crate::evidence::{Hint, Link, is_extension};
use crate::sharing::add_shared;
use adf_block::layout::{
    BOOT_BLOCKS, FILE_SIZE, HELD, NEXT_DATA, NEXT_EXTENSION, OFS_ROOM, POINTER_COUNT, TABLE_LONGS,
};
use adf_block::{Format, Image};
use ados_census::holds_filler;
use ados_salvage::{
    HeaderState, Piece, Salvage, Salvaged, State, data_needed, is_file, is_hole, is_sound_header,
};
use std::alloc::{AllocError, Global};

/// For each entry of a salvage, what may be wrong with it, if it is a doubtful file with a sound header. None if there is no such file.
pub(crate) fn hints(alloc: Global, salvage: &Salvage) -> Result<Vec<Option<Hint>>, AllocError> {
    let entries = salvage.entries();
    if !entries.iter().any(|entry| is_by_block(entry.state)) {
        return Ok(Vec::new(alloc));
    }
    let image = salvage.image();
    let mut passed = vec![in alloc; false; image.blocks() as usize]?;
    let mut hints = Vec::with_capacity(alloc, entries.len())?;
    for place in 0..entries.len() {
        hints.push(own_hint(salvage, place, &entries[place], &mut passed))?;
    }
    if image.format() == Format::Ffs {
        add_shared(alloc, salvage, &mut hints)?;
    }
    Ok(hints)
}

/// The hint for the entry at a position; that a field of its header is wrong, if there is none.
pub(crate) fn hint_at(hints: &[Option<Hint>], place: usize, header: u32) -> Hint {
    match hints.get(place) {
        Some(Some(hint)) => *hint,
        _ => hint_of(Doubt::Field(header), header),
    }
}

/// Whether a file is doubtful because of a block behind its header.
pub(crate) fn is_by_block(state: State) -> bool {
    match state {
        State::Doubtful { header, .. } => header == HeaderState::Sound,
        _ => false,
    }
}

/// A doubt about a block that this pointer block names as the next extension block, or that needs no pointer.
fn hint_of(doubt: Doubt, holder: u32) -> Hint {
    let link = Link { holder, i: 0 };
    Hint {
        doubt,
        own: link,
        other: link,
    }
}

/// What is wrong with a file that is not whole and whose header is sound, by its own blocks alone: the first that is found.
fn own_hint(
    salvage: &Salvage,
    place: usize,
    entry: &Salvaged,
    passed: &mut Vec<bool>,
) -> Option<Hint> {
    let (image, header) = (salvage.image(), entry.header);
    if !is_damaged_file(image, header, entry.state) {
        return None;
    }
    let found = pointer_hint(salvage, header, passed);
    if found.is_some() {
        return found;
    }
    if image.format() == Format::Ofs {
        let found = data_hint(image, header, place, salvage.pieces());
        if found.is_some() {
            return found;
        }
    }
    if salvage.counts_fillers() {
        return filler_hint(image, header, place, salvage.pieces());
    }
    None
}

/// Whether an entry is a file with a sound header, and not whole.
pub(crate) fn is_damaged_file(image: &Image, header: u32, state: State) -> bool {
    match state {
        State::Doubtful { header, .. } => {
            if header != HeaderState::Sound {
                return false;
            }
        }
        State::Broken { .. } => {}
        _ => return false,
    }
    header >= BOOT_BLOCKS
        && header < image.blocks()
        && is_file(image, header)
        && is_sound_header(image, header)
}

/// What is wrong with the pointer blocks of a file. Each extension block is passed once.
fn pointer_hint(salvage: &Salvage, header: u32, passed: &mut Vec<bool>) -> Option<Hint> {
    let image = salvage.image();
    if header >= image.blocks() {
        return None;
    }
    let needed = data_needed(image, header);
    let last = needed.saturating_sub(1) / TABLE_LONGS;
    let (mut before, mut holder) = (header, header);
    for q in 0..image.blocks() {
        if holder >= image.blocks() {
            return None;
        }
        let wrong = hint_of(Doubt::Field(holder), before);
        let rest = needed.saturating_sub(q.saturating_mul(TABLE_LONGS));
        if image.long(holder, POINTER_COUNT) != rest.min(TABLE_LONGS) {
            return Some(wrong);
        }
        let next = image.long(holder, NEXT_EXTENSION);
        if q >= last {
            return if next == 0 { None } else { Some(wrong) };
        }
        if next < BOOT_BLOCKS || next == header || next as usize >= passed.len() {
            return Some(wrong);
        }
        if let Some(doubt) = extension_doubt(salvage, header, next) {
            return Some(hint_of(doubt, holder));
        }
        if passed[next as usize] {
            return Some(wrong);
        }
        passed[next as usize] = true;
        before = holder;
        holder = next;
    }
    None
}

/// What is wrong with a block that should be an extension block of a file, by itself.
fn extension_doubt(salvage: &Salvage, header: u32, block: u32) -> Option<Doubt> {
    let image = salvage.image();
    if block >= image.blocks() {
        return None;
    }
    if is_hole(salvage.holes(), block) {
        return Some(Doubt::Hole(block));
    }
    if image.sum(block) != 0 {
        return Some(Doubt::Sum(block));
    }
    if !is_extension(image, header, block) {
        return Some(Doubt::Field(block));
    }
    None
}

/// What is wrong with the OFS data blocks of a file: a checksum, the number of bytes in one, or the link to the next.
fn data_hint(image: &Image, header: u32, place: usize, pieces: &[Piece]) -> Option<Hint> {
    if header >= image.blocks() {
        return None;
    }
    let size = image.long(header, FILE_SIZE);
    let mut before = header;
    // The pieces are in the order of the files.
    for at in pieces.partition_point(|piece| piece.place < place)..pieces.len() {
        let piece = pieces[at];
        if piece.place != place || piece.block >= image.blocks() || before >= image.blocks() {
            break;
        }
        if image.sum(piece.block) != 0 {
            return Some(hint_of(Doubt::Sum(piece.block), header));
        }
        let held = size.saturating_sub(piece.at.saturating_mul(OFS_ROOM));
        if image.long(piece.block, HELD) != held.min(OFS_ROOM) {
            return Some(hint_of(Doubt::Field(piece.block), header));
        }
        if image.long(before, NEXT_DATA) != piece.block {
            return Some(hint_of(Doubt::Field(before), header));
        }
        before = piece.block;
    }
    if before < image.blocks() && image.long(before, NEXT_DATA) != 0 {
        return Some(hint_of(Doubt::Field(before), header));
    }
    None
}

/// The first data block of a file that holds a known filler.
fn filler_hint(image: &Image, header: u32, place: usize, pieces: &[Piece]) -> Option<Hint> {
    // The pieces are in the order of the files.
    for at in pieces.partition_point(|piece| piece.place < place)..pieces.len() {
        let piece = pieces[at];
        if piece.place != place || piece.block >= image.blocks() {
            break;
        }
        if holds_filler(image, piece.block) {
            let own = pointer_to(image, header, piece.at);
            return Some(Hint {
                doubt: Doubt::Filler(piece.block),
                own,
                other: own,
            });
        }
    }
    None
}

/// Where the pointer to a data block of a file is, along its extension blocks.
fn pointer_to(image: &Image, header: u32, at: u32) -> Link {
    let mut holder = header;
    for _passed in 0..at / TABLE_LONGS {
        if holder >= image.blocks() {
            break;
        }
        holder = image.long(holder, NEXT_EXTENSION);
    }
    Link {
        holder,
        i: at % TABLE_LONGS,
    }
}
