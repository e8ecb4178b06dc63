//! Blocks that two files of an FFS disk have.

use crate::doubt::Doubt;
use crate::evidence::{Hint, Link};
use crate::hints::{is_by_block, is_damaged_file};
use adf_block::Image;
use adf_block::layout::{BOOT_BLOCKS, FIRST_POINTER, NEXT_EXTENSION, POINTER_COUNT, TABLE_LONGS};
use ados_salvage::{Salvage, State, data_needed};
use std::alloc::{AllocError, Global};

/// A file that names a block: its position among the entries, and where the block is named.
#[derive(Clone, Copy)]
struct Namer {
    place: usize,
    link: Link,
}

/// For each block, two files that name it, if there are so many.
#[derive(Drop)]
struct Namers {
    first: Vec<Option<Namer>>,
    second: Vec<Option<Namer>>,
}

/// A block that a file names, and where.
#[derive(Clone, Copy)]
struct Named {
    block: u32,
    link: Link,
}

impl Namers {
    /// No block is named.
    fn none(alloc: Global, count: usize) -> Result<Namers, AllocError> {
        Ok(Namers {
            first: vec![in alloc; None; count]?,
            second: vec![in alloc; None; count]?,
        })
    }

    /// Notes that the file at a position names a block.
    fn note(&mut self, place: usize, named: Named) {
        let at = named.block as usize;
        if at >= self.first.len() || at >= self.second.len() {
            return;
        }
        let link = named.link;
        match self.first[at] {
            None => self.first[at] = Some(Namer { place, link }),
            Some(first) => {
                if first.place != place && self.second[at].is_none() {
                    self.second[at] = Some(Namer { place, link });
                }
            }
        }
    }

    /// Another file than the one at this position that names a block, if there is one.
    fn beside(&self, place: usize, block: u32) -> Option<Namer> {
        let at = block as usize;
        if at >= self.first.len() || at >= self.second.len() {
            return None;
        }
        match self.first[at] {
            Some(first) if first.place != place => Some(first),
            _ => self.second[at],
        }
    }
}

/// Adds a hint for each doubtful file without one, if another file names a block of it. Only files count of which the own blocks are
/// right, as far as hints say.
pub(crate) fn add_shared(
    alloc: Global,
    salvage: &Salvage,
    hints: &mut Vec<Option<Hint>>,
) -> Result<(), AllocError> {
    let namers = namers_of(alloc, salvage, hints)?;
    let entries = salvage.entries();
    for place in 0..entries.len() {
        if place < hints.len() && hints[place].is_none() && is_by_block(entries[place].state) {
            let header = entries[place].header;
            hints[place] = shared_hint(alloc, salvage.image(), place, header, &namers)?;
        }
    }
    Ok(())
}

/// The first block of a file that another one names too, as a hint.
fn shared_hint(
    alloc: Global,
    image: &Image,
    place: usize,
    header: u32,
    namers: &Namers,
) -> Result<Option<Hint>, AllocError> {
    for named in &blocks_of(alloc, image, header)? {
        if let Some(other) = namers.beside(place, named.block) {
            return Ok(Some(Hint {
                doubt: Doubt::Shared(named.block, other.place),
                own: named.link,
                other: other.link,
            }));
        }
    }
    Ok(None)
}

/// The files that name each block: the whole ones, and those with sound headers for which there is no hint but that of a filler.
fn namers_of(
    alloc: Global,
    salvage: &Salvage,
    hints: &[Option<Hint>],
) -> Result<Namers, AllocError> {
    let (image, entries) = (salvage.image(), salvage.entries());
    let mut namers = Namers::none(alloc, image.blocks() as usize)?;
    for place in 0..entries.len() {
        let entry = &entries[place];
        if place < hints.len()
            && are_right_blocks(&hints[place])
            && is_right(image, entry.header, entry.state)
        {
            for named in &blocks_of(alloc, image, entry.header)? {
                namers.note(place, *named);
            }
        }
    }
    Ok(namers)
}

/// Whether the own blocks of a file are right, as far as its hint says: there is none, or that of a filler.
fn are_right_blocks(hint: &Option<Hint>) -> bool {
    match hint {
        Some(hint) => matches!(hint.doubt, Doubt::Filler(_)),
        None => true,
    }
}

/// Whether an entry is a file with a sound header.
fn is_right(image: &Image, header: u32, state: State) -> bool {
    state == State::Whole || is_damaged_file(image, header, state)
}

/// The blocks that a file names, as far as its size needs them: its header, its extension blocks and its data blocks.
fn blocks_of(alloc: Global, image: &Image, header: u32) -> Result<Vec<Named>, AllocError> {
    let mut blocks = Vec::new(alloc);
    if header >= image.blocks() {
        return Ok(blocks);
    }
    let last = data_needed(image, header).saturating_sub(1) / TABLE_LONGS;
    let mut holder = header;
    let mut link = Link { holder, i: 0 };
    for q in 0..image.blocks() {
        blocks.push(Named {
            block: holder,
            link,
        })?;
        if holder < BOOT_BLOCKS || holder >= image.blocks() {
            break;
        }
        for i in 0..image.long(holder, POINTER_COUNT).min(TABLE_LONGS) {
            blocks.push(Named {
                block: image.long(holder, FIRST_POINTER - i),
                link: Link { holder, i },
            })?;
        }
        if q >= last {
            break;
        }
        link = Link { holder, i: 0 };
        holder = image.long(holder, NEXT_EXTENSION);
    }
    Ok(blocks)
}
