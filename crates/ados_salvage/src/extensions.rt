//! Files of an FFS disk whose header is gone, from the extension blocks that name it.
ghost use Rattle.std.specs.Prelude.{◌≡◌, ◌<◌, ℕ, IfOk, IfSome, MatchOption, OnOk, ⊤};
ghost use Rattle.adf_block.specs.Image.{block_count};
ghost use Rattle.ados_salvage.specs.Known.{AreKnown};
ghost use Rattle.ados_salvage.specs.Loose.{IsLooseExtension};
ghost use Rattle.ados_salvage.specs.steps.Counting.{GivesMore};
ghost use Rattle.ados_salvage.specs.steps.Giving.{IsGiving};

use crate::giving::{Giving, Remains};
use crate::known::{Known, Part};
use crate::links::{Links, is_loose_extension};
use crate::numbered::Kept;
use crate::pointer_blocks::{Wanted, give_pointers, number};
use adf_block::Image;
use adf_block::layout::{FFS_ROOM, NEXT_EXTENSION, POINTER_COUNT, TABLE_LONGS};
use std::alloc::AllocError;

/// The extension blocks with right checksums whose headers are not told, by header and number.
///
/// One that another of its file names stands directly behind that. Before the first of each chain one pointer block is missing,
/// the header or another one: that is the least. A chain that is the end of the file comes last.
pub(crate) fn loose_extensions(known: &Known, links: &Links) -> Result<Vec<Part>, AllocError>
    requires { AreKnown known.now }
{
    let mut passed = vec![in known.alloc; false; known.image.blocks() as usize]?;
    let mut parts = Vec::new(known.alloc);
    let mut before = None;
    for naming in &links.blocks {
        let header = naming.header;
        if before != Some(header) && !known.is_header(header) {
            let chains = links.chains_of(known.alloc, &known.image, header, &mut passed)?;
            number(header, &chains, 0, None, &mut parts)?;
        }
        before = Some(header);
    }
    Ok(parts)
}

/// Gives a file without a header, whose entry has this position, the data blocks that these extension blocks name, as far as they
/// were not given before. The result is `None` if no block is left for it.
pub(crate) fn give_listed(
    known: &Known,
    header: u32,
    place: usize,
    parts: &[Part],
    giving: &mut Giving,
) -> Result<Option<Remains>, AllocError>
    requires giving { IsGiving known.now.holes.items known.now.image giving.old }
    ensures named { IfOk result (λ remains. IfSome remains (λ some. (block : ℕ) × IsLooseExtension known.now.image header block)) }
    ensures giving { OnOk result (IsGiving known.now.holes.items known.now.image giving.new) }
    ensures left { giving.new.left ≡ giving.old.left }
    ensures more { OnOk result (GivesMore known.now.image header place giving.old.pieces.items giving.new.pieces.items) }
    ensures none { IfOk result (λ remains. MatchOption remains (giving.new.pieces.items ≡ giving.old.pieces.items) (λ some. ⊤)) }
{
    let image = &known.image;
    let wanted = Wanted {
        file: header,
        place,
        needed: u32::MAX,
    };
    let mut kept = Kept {
        next: 0,
        there: 0,
        last: 0,
        from: 0,
    };
    let mut last: Option<Part> = None;
    for part in parts {
        if is_loose_extension(image, header, part.block) {
            kept = give_pointers(known, wanted, *part, kept, giving)?;
            last = Some(*part);
        }
    }
    if kept.there == 0 {
        return Ok(None);
    }
    match last {
        Some(last) => Ok(Some(remains_of(image, last, kept))),
        None => Ok(None),
    }
}

/// What is left of a file without a header, by its last extension block and what it has. If the last one names another,
/// one more data block is missing.
fn remains_of(image: &Image, last: Part, kept: Kept) -> Remains
    requires { last.block < block_count image.now }
{
    let room = FFS_ROOM as usize;
    let before = last.number.saturating_mul(TABLE_LONGS);
    let named = before.saturating_add(image.long(last.block, POINTER_COUNT).min(TABLE_LONGS));
    let more = u32::from(image.long(last.block, NEXT_EXTENSION) != 0);
    Remains {
        missing: named.saturating_sub(kept.there).saturating_add(more),
        end: kept.last.min(image.blocks()) as usize * room,
    }
}
