//! What may be lost with the old bitmap.
ghost use Rattle.std.specs.Prelude.{◌≡◌, ◌<◌, MatchOption};
ghost use Rattle.adf_block.specs.Image.{block_count};
ghost use Rattle.ados_map.specs.Pages.{LawfulPages, page_block, pages_of};
ghost use Rattle.ados_validate.specs.Cautions.{HasNoCaution, IsCaution, changed_bits};
ghost use Rattle.ados_validate.specs.Validated.{IsValidated};
ghost use Rattle.ados_validate.specs.steps.Cautious.{AreSafePages, HasNoLostHeader, IsSafePage};
ghost use Rattle.ados_validate.specs.steps.Settled.{HasSamePages};

use crate::caution::{Caution, MOST_CHANGED_BITS};
use crate::laws::{freed_headers_stay, lawful_pages};
use crate::looks::look_of;
use crate::old_bitmap::OldBitmap;
use adf_block::Image;
use adf_block::layout::{BOOT_BLOCKS, FIRST_MAP_LONG, FIRST_PAGE, MAP_LONGS, MOST_BLOCKS};
use ados_map::is_free;
use ados_salvage::is_sound_header;

/// The first thing that may be lost with the old bitmap: by the bitmap blocks, then by the lost blocks.
pub(crate) fn first_caution(old: &OldBitmap, new: &Image) -> Option<Caution>
    requires { IsValidated old.now new.now }
    ensures { MatchOption result (HasNoCaution old.now new.now) (IsCaution old.now new.now) }
{
    lawful_pages();
    match page_caution(old, new) {
        Some(caution) => Some(caution),
        None => lost_header(old, new),
    }
}

/// The first bitmap block with which something may be lost.
fn page_caution(old: &OldBitmap, new: &Image) -> Option<Caution>
    requires pages { LawfulPages new.now }
    requires size { block_count new.now ≡ block_count old.now }
    requires same { HasSamePages old.now new.now }
    ensures { MatchOption result (AreSafePages old.now new.now) (IsCaution old.now new.now) }
{
    prove!(new.blocks() <= MOST_BLOCKS);
    for p in 0..old.pages() {
        let page = new.long(new.root(), FIRST_PAGE + p);
        if let Some(caution) = caution_of(old, new, p, page) {
            return Some(caution);
        }
    }
    None
}

/// What may be lost with bitmap block `p`. Its block number is `page`.
fn caution_of(old: &OldBitmap, new: &Image, p: u32, page: u32) -> Option<Caution>
    requires within { p < pages_of old.now }
    requires page { page_block old.now p ≡ page }
    requires inside { page < block_count new.now }
    ensures { MatchOption result (IsSafePage old.now new.now page) (IsCaution old.now new.now) }
{
    if let Some(look) = look_of(old, p) {
        return Some(Caution::LooksLike(page, look));
    }
    if old.sum(p) == 0 {
        return None;
    }
    let bits = changed_bits(old, new, p, page);
    if bits > MOST_CHANGED_BITS {
        return Some(Caution::Differs(page, bits));
    }
    None
}

/// The number of bits of bitmap block `p`, without its checksum, that differ. Its block number is `page`.
fn changed_bits(old: &OldBitmap, new: &Image, p: u32, page: u32) -> u32
    requires within { p < pages_of old.now }
    requires page { page_block old.now p ≡ page }
    requires inside { page < block_count new.now }
    ensures { result ≡ changed_bits old.now new.now page }
{
    let mut bits = 0;
    for i in 0..MAP_LONGS {
        let long = i + FIRST_MAP_LONG;
        bits += (old.long(p, long) ^ new.long(page, long)).count_ones();
    }
    bits
}

/// The first lost block that is a sound header.
fn lost_header(old: &OldBitmap, new: &Image) -> Option<Caution>
    requires { IsValidated old.now new.now }
    ensures { MatchOption result (HasNoLostHeader old.now new.now) (IsCaution old.now new.now) }
{
    lawful_pages();
    freed_headers_stay();
    for block in BOOT_BLOCKS..new.blocks() {
        if is_free(new, block) && !old.is_free(block) && is_sound_header(new, block) {
            return Some(Caution::LostHeader(block));
        }
    }
    None
}
