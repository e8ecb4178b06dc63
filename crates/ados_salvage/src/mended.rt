//! Headers with one wrong field, of which the checksum tells the value.
ghost use Rattle.std.specs.Prelude.{◌≡◌, ◌<◌, ◌↔◌, ℕ, length, true, IfOk, IsTrue, MatchBool, MatchOption, ⊤};
ghost use Rattle.adf_block.specs.Image.{IsInside, block_count};
ghost use Rattle.adf_block.specs.declared.layout.TheConstants.{BLOCK_LONGS};
ghost use Rattle.ados_salvage.specs.Deleted.{AreDeleted};
ghost use Rattle.ados_salvage.specs.Known.{AreKnown};
ghost use Rattle.ados_salvage.specs.Lost.{IsNamed};
ghost use Rattle.ados_salvage.specs.Marks.{mark_at};
ghost use Rattle.ados_salvage.specs.PutRight.{ArePutRight, CanHave, IsOnlyWrong, IsPutRight, IsRight, MayBePutRight};
ghost use Rattle.ados_salvage.specs.steps.Accounting.{Adds};
ghost use Rattle.ados_salvage.specs.steps.Mending.{AreMarksFor, NamesAt, NamesSome};

use crate::account::{mark, no_marks};
use crate::known::{Claim, Known, dir_of_place, name_of};
use adf_block::Image;
use adf_block::beside::CHECKSUM;
use adf_block::layout::{
    BLOCK_LONGS, BOOT_BLOCKS, DIRECTORY_TYPE, FILE_TYPE, HEADER_TYPE, OWN_KEY, PRIMARY_TYPE,
    SECONDARY_TYPE,
};
use std::alloc::AllocError;

/// A wrong field of a header.
#[derive(Clone, Copy)]
struct WrongField {
    /// The index of its long.
    at: u32,
    /// The value that it should have.
    due: u32,
}

/// What is known of a damaged image where one field is put right in each lost entry that would be a header with a right checksum
/// then, and that no sound file has. The checksum is lowered by as much as the field is raised, so it is as wrong as before, and the
/// header is no sound one.
pub(crate) fn put_right(known: Known) -> Result<Known, AllocError>
    requires known { AreKnown known }
    requires deleted { AreDeleted known.image known.left_out }
    requires fillers { known.fillers ≡ true }
    requires none { known.before ≡ 0 }
    ensures known { IfOk result AreKnown }
    ensures deleted { IfOk result (λ new. AreDeleted new.image new.left_out) }
    ensures read { IfOk result (λ new. ArePutRight (MayBePutRight known.left_out known.image) known.image new.image) }
    ensures holes { IfOk result (λ new. new.holes ≡ known.holes) }
    ensures fillers { IfOk result (λ new. new.fillers ≡ true) }
    ensures none { IfOk result (λ new. new.before ≡ 0) }
{
    let lost = lost_marks(&known)?;
    if !has_wrong_field(&known.image, &lost) {
        return Ok(known);
    }
    let Known {
        alloc,
        image,
        holes,
        ..
    } = known;
    Known::without_deleted(alloc, with_right_fields(image, &lost), holes)
}

/// For each block, whether it is a lost entry that no sound file has.
fn lost_marks(known: &Known) -> Result<Vec<bool>, AllocError>
    requires { AreKnown known.now }
    ensures { IfOk result (λ lost. AreMarksFor (MayBePutRight known.now.left_out known.now.image) (block_count known.now.image) lost.items) }
{
    let named = named_marks(known)?;
    let mut lost = Vec::with_capacity(known.alloc, known.image.blocks() as usize)?;
    for block in 0..known.image.blocks() {
        lost.push(is_lost(known, &named, block))?;
    }
    Ok(lost)
}

/// Whether a block is a lost entry that no sound file has, by the marks of named blocks.
fn is_lost(known: &Known, named: &[bool], block: u32) -> bool
    requires known { AreKnown known.now }
    requires inside { block < block_count known.now.image }
    requires named { AreMarksFor (IsNamed known.now.left_out known.now.image) (block_count known.now.image) named.now }
    ensures { IsTrue result ↔ MayBePutRight known.now.left_out known.now.image block }
{
    block >= BOOT_BLOCKS
        && named[block as usize]
        && !known.is_header(block)
        && !known.left_out.has(block)
        && known.claims[block as usize] == Claim::Free
}

/// For each block, whether an accepted place names it as an entry.
fn named_marks(known: &Known) -> Result<Vec<bool>, AllocError>
    requires { AreKnown known.now }
    ensures { IfOk result (λ named. AreMarksFor (IsNamed known.now.left_out known.now.image) (block_count known.now.image) named.items) }
{
    let mut named = no_marks(known.alloc, &known.image)?;
    for block in 0..known.image.blocks() {
        mark_named(known, block, &mut named);
    }
    Ok(named)
}

/// Marks the blocks that a block names as entries, if it is the root or a header.
fn mark_named(known: &Known, block: u32, named: &mut Vec<bool>)
    requires known { AreKnown known.now }
    requires inside { block < block_count known.now.image }
    ensures { Adds (NamesSome known.now.left_out known.now.image block) named.old.items named.new.items }
{
    if !known.names_entries(block) {
        return;
    }
    for at in 0..BLOCK_LONGS {
        mark_place(&known.image, block, at, named);
    }
}

/// Marks the block that a long of a block names as an entry.
fn mark_place(image: &Image, block: u32, at: u32, named: &mut Vec<bool>)
    requires inside { (block < block_count image.now) × (at < BLOCK_LONGS) }
    ensures { Adds (NamesAt image.now block at) named.old.items named.new.items }
{
    let Some(_dir) = dir_of_place(image, block, at) else {
        return;
    };
    mark(named, image.long(block, at));
}

/// Whether a field of a marked block is to be put right.
fn has_wrong_field(image: &Image, marks: &[bool]) -> bool
    requires { length marks.now ≡ block_count image.now }
    ensures { MatchBool result ⊤ ((block at due : ℕ) → mark_at marks.now block ≡ true → ¬ IsPutRight image.now block at due) }
{
    for block in BOOT_BLOCKS..image.blocks() {
        if wrong_field_of(image, marks, block).is_some() {
            return true;
        }
    }
    false
}

/// The image with the field put right in each marked block that has one.
fn with_right_fields(image: Image, marks: &[bool]) -> Image
    requires { length marks.now ≡ block_count image }
    ensures { ArePutRight (λ block. mark_at marks.now block ≡ true) image result }
{
    let mut image = image;
    for block in BOOT_BLOCKS..image.blocks() {
        if let Some(field) = wrong_field_of(&image, marks, block) {
            image.set_summed(block, field.at, field.due, CHECKSUM);
        }
    }
    image
}

/// The field of a block that is to be put right, if the block is marked.
fn wrong_field_of(image: &Image, marks: &[bool], block: u32) -> Option<WrongField>
    requires inside { IsInside (block_count image.now) block }
    requires size { length marks.now ≡ block_count image.now }
    ensures { MatchOption result ((at due : ℕ) → mark_at marks.now block ≡ true → ¬ IsPutRight image.now block at due)
        (λ field. (mark_at marks.now block ≡ true) × IsPutRight image.now block field.at field.due) }
{
    if !marks[block as usize] {
        return None;
    }
    wrong_field(image, block)
}

/// The field of a block that is to be put right.
fn wrong_field(image: &Image, block: u32) -> Option<WrongField>
    requires { IsInside (block_count image.now) block }
    ensures { MatchOption result ((at due : ℕ) → ¬ IsPutRight image.now block at due) (λ field. IsPutRight image.now block field.at field.due) }
{
    let Some(at) = only_wrong(image, block) else {
        return None;
    };
    if name_of(image, block).is_none() {
        return None;
    }
    let due = image.long(block, at).wrapping_sub(image.sum(block));
    if can_have(block, at, due) {
        return Some(WrongField { at, due });
    }
    None
}

/// The long of the only wrong field among the fixed ones of a header.
fn only_wrong(image: &Image, block: u32) -> Option<u32>
    requires { block < block_count image.now }
    ensures { MatchOption result ((at : ℕ) → ¬ IsOnlyWrong image.now block at) (λ at. IsOnlyWrong image.now block at) }
{
    let primary = is_right(image, block, PRIMARY_TYPE);
    let own = is_right(image, block, OWN_KEY);
    let secondary = is_right(image, block, SECONDARY_TYPE);
    match (primary, own, secondary) {
        (false, true, true) => Some(PRIMARY_TYPE),
        (true, false, true) => Some(OWN_KEY),
        (true, true, false) => Some(SECONDARY_TYPE),
        _ => None,
    }
}

/// Whether a fixed field of a block has a value that a header there can have.
fn is_right(image: &Image, block: u32, at: u32) -> bool
    requires block { block < block_count image.now }
    requires place { at < BLOCK_LONGS }
    ensures { IsTrue result ↔ IsRight image.now block at }
{
    can_have(block, at, image.long(block, at))
}

/// Whether a header in a block can have a value in a fixed field.
fn can_have(block: u32, at: u32, value: u32) -> bool
    ensures { IsTrue result ↔ CanHave block at value }
{
    match at {
        PRIMARY_TYPE => value == HEADER_TYPE,
        OWN_KEY => value == block,
        SECONDARY_TYPE => value == FILE_TYPE || value == DIRECTORY_TYPE,
        _ => false,
    }
}
