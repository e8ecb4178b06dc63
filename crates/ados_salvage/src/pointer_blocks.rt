//! The extension blocks of a file to which no link leads: which of its pointer blocks they are, and the data blocks that they name.
ghost use Rattle.std.specs.Prelude.{◌≡◌, ◌≤◌, IfOk, OnOk};
ghost use Rattle.ados_salvage.specs.Loose.{IsLooseExtension};
ghost use Rattle.ados_salvage.specs.steps.Counting.{TakesMore};
ghost use Rattle.ados_salvage.specs.steps.Giving.{IsGiving};

use crate::giving::{Giving, Piece};
use crate::known::{Known, Part};
use crate::links::{Link, is_loose_extension};
use crate::numbered::Kept;
use adf_block::layout::{BOOT_BLOCKS, FIRST_POINTER, POINTER_COUNT, TABLE_LONGS};
use std::alloc::AllocError;

/// A file that is given its data blocks.
#[derive(Clone, Copy)]
pub(crate) struct Wanted {
    /// Its header.
    pub(crate) file: u32,
    /// The position of its entry.
    pub(crate) place: usize,
    /// The most data blocks that it can have.
    pub(crate) needed: u32,
}

/// Gives a file the data blocks that its extension blocks name to which no link leads. It has these of those that were looked for along
/// links, and the result is what it has then.
pub(crate) fn give_unlinked(
    known: &Known,
    wanted: Wanted,
    earlier: Kept,
    giving: &mut Giving,
) -> Result<Kept, AllocError>
    requires giving { IsGiving known.now.holes.items known.now.image giving.old }
    requires few { earlier.there ≤ earlier.next }
    ensures giving { OnOk result (IsGiving known.now.holes.items known.now.image giving.new) }
    ensures left { giving.new.left ≡ giving.old.left }
    ensures more { IfOk result (λ kept. TakesMore known.now.image wanted earlier kept giving.old.pieces.items giving.new.pieces.items) }
{
    let parts = unlinked(known, wanted, earlier.next, giving)?;
    let mut kept = earlier;
    for part in &parts {
        if is_loose_extension(&known.image, wanted.file, part.block) {
            kept = give_pointers(known, wanted, *part, kept, giving)?;
        }
    }
    Ok(kept)
}

/// The extension blocks of a file to which no link leads, behind the pointer blocks for so many data blocks.
fn unlinked(
    known: &Known,
    wanted: Wanted,
    looked: u32,
    giving: &mut Giving,
) -> Result<Vec<Part>, AllocError>
    requires { IsGiving known.now.holes.items known.now.image giving.old }
    ensures giving { OnOk result (IsGiving known.now.holes.items known.now.image giving.new) }
    ensures left { giving.new.left ≡ giving.old.left }
    ensures pieces { giving.new.pieces ≡ giving.old.pieces }
{
    let mut parts = Vec::new(known.alloc);
    let before = pointer_blocks(looked);
    let total = pointer_blocks(wanted.needed);
    if before < total {
        let image = &known.image;
        let links = giving
            .links
            .chains_of(known.alloc, image, wanted.file, &mut giving.passed)?;
        number(wanted.file, &links, before, Some(total), &mut parts)?;
    }
    Ok(parts)
}

/// The number of pointer blocks for so many data blocks.
fn pointer_blocks(count: u32) -> u32 {
    count.div_ceil(TABLE_LONGS).max(1)
}

/// Adds the extension blocks of a file with their numbers among its pointer blocks, its header first. They come behind so many of
/// these, and a chain that does not fit into all of them is left out.
pub(crate) fn number(
    header: u32,
    links: &[Link],
    before: u32,
    total: Option<u32>,
    parts: &mut Vec<Part>,
) -> Result<(), AllocError> {
    let mut next = before;
    let mut start = None;
    for link in links {
        if link.nth == 0 {
            start = start_of(*link, next, total);
        }
        if let Some(start) = start {
            let number = start.saturating_add(link.nth);
            parts.push(Part {
                header,
                number,
                block: link.block,
            })?;
            next = number.saturating_add(1);
        }
    }
    Ok(())
}

/// The number of the first block of a chain behind so many pointer blocks of its file, if the chain fits into all of them. One is
/// missing before it: that is the least. But if all of them are known, a chain that is the end of the file ends with the last.
fn start_of(link: Link, before: u32, total: Option<u32>) -> Option<u32> {
    let next = before.saturating_add(1);
    let Some(total) = total else {
        return Some(next);
    };
    let latest = total.checked_sub(link.length)?;
    if link.ends {
        return if before <= latest { Some(latest) } else { None };
    }
    if next <= latest { Some(next) } else { None }
}

/// Gives a file the data blocks that an extension block of it names, as far as they were not given before. It has these from
/// earlier ones, and the result is what it has then.
pub(crate) fn give_pointers(
    known: &Known,
    wanted: Wanted,
    part: Part,
    earlier: Kept,
    giving: &mut Giving,
) -> Result<Kept, AllocError>
    requires loose { IsLooseExtension known.now.image wanted.file part.block }
    requires giving { IsGiving known.now.holes.items known.now.image giving.old }
    requires few { earlier.there ≤ earlier.next }
    ensures giving { OnOk result (IsGiving known.now.holes.items known.now.image giving.new) }
    ensures left { giving.new.left ≡ giving.old.left }
    ensures more { IfOk result (λ kept. TakesMore known.now.image wanted earlier kept giving.old.pieces.items giving.new.pieces.items) }
    ensures none { IfOk result (λ kept. kept.there ≡ 0 → (earlier.there ≡ 0) × (giving.new.pieces.items ≡ giving.old.pieces.items)) }
{
    let image = &known.image;
    let before = part.number.saturating_mul(TABLE_LONGS);
    let mut kept = earlier;
    for i in 0..image.long(part.block, POINTER_COUNT).min(TABLE_LONGS) {
        let block = image.long(part.block, FIRST_POINTER - i);
        let at = before.saturating_add(i);
        let fits = kept.next <= at && at < wanted.needed;
        if fits && block >= BOOT_BLOCKS && giving.is_open(block) {
            giving.note(Piece {
                place: wanted.place,
                at,
                block,
            })?;
            kept = kept.with(at);
        }
    }
    Ok(kept)
}
