//! The map of a refused image: what each block is by the places that name it, and where it shows a fault or two places name it.
ghost use Rattle.std.specs.Prelude.{◌≡◌, ◌≤◌, ◌<◌, ◌++◌, true, IfOk, MatchBool};
ghost use Rattle.std.specs.List.{AllZip, range_with_len};
ghost use Rattle.adf_block.specs.Image.{block_count};
ghost use Rattle.adf_block.specs.declared.layout.TheConstants.{BOOT_BLOCKS};
ghost use Rattle.ados_census.specs.Places.{AreAllPlaces};
ghost use Rattle.ados_model.specs.Faults.{InImage};
ghost use Rattle.adf_where.specs.BlockMap.{map_page};
ghost use Rattle.adf_where.specs.Faulty.{AreFound};
ghost use Rattle.adf_where.specs.FaultyMap.{HasLetter, HasMark, IsFaultyMap, IsPlain, IsSameLong, faulty_map_of};
ghost use Rattle.adf_where.specs.Refused.{refused_line};
ghost use Rattle.adf_where.specs.steps.Named.{AreOneLong, HasTwoLongs, IsMarkByBit, IsMarkOf};

use crate::block_mark::BlockMark;
use crate::faulty::shows_fault;
use crate::map_lines::map_page;
use crate::map_object::faulty_map_object;
use crate::refused::{FaultReason, refused_text};
use crate::unread::shown_letter;
use adf_block::Image;
use adf_block::layout::{BOOT_BLOCKS, FILE_TYPE, SECONDARY_TYPE};
use adf_cli::MapForm;
use ados_census::{Place, PlaceKind, places_of, reached_blocks, take_census};
use ados_check::{Source, is_free};
use ados_faults::faults_of_any_disk;
use ados_model::VolumeFault;
use std::alloc::{AllocError, Global};

/// The map of a refused image, after why it is refused: the letters of its blocks in lines, and what they mean; or a JSON object
/// on a line of its own.
///
/// A block that nothing names is free or lost as its bit says, whatever the root says of the bitmap; without a bitmap block
/// it is lost. `unread` says of each block whether it could not be read, or is empty; such a block has a letter of its own. Memory
/// grows linearly with the size of the image. Time is that of all faults (`faults_of_any_disk`).
pub fn faulty_map_text(
    alloc: Global,
    image: &Image,
    reason: FaultReason,
    form: MapForm,
    unread: &[bool],
) -> Result<Vec<u8>, AllocError>
    ensures { IfOk result (λ text. IsFaultyMap form unread.now image.now reason.kind.now reason.block text.items) }
{
    let found = faults_of_any_disk(alloc, image)?;
    let letters = letters_of(alloc, image, &found.faults, unread)?;
    faulty_text(alloc, reason, form, &letters, unread)
}

/// The letters of the blocks of an image with these faults, of which some could not be read.
fn letters_of(
    alloc: Global,
    image: &Image,
    faults: &[VolumeFault],
    unread: &[bool],
) -> Result<Vec<u8>, AllocError>
    requires { AreFound image.now faults.now }
    ensures { IfOk result (λ letters. AllZip (HasLetter image.now unread.now) (range_with_len 0 (block_count image.now)) letters.items) }
{
    let census = take_census(alloc, image)?;
    let reached = reached_blocks(alloc, image)?;
    let mut letters = Vec::new(alloc);
    for block in 0..image.blocks() {
        let places = places_of(alloc, &census, &reached, block)?;
        let mark = mark_of(image, faults, block, &places);
        letters.push(shown_letter(unread, block as usize, mark))?;
    }
    Ok(letters)
}

/// What a block is, by all places that name it and by the faults of the image.
fn mark_of(image: &Image, faults: &[VolumeFault], block: u32, places: &[Place]) -> BlockMark
    requires inside { block < block_count image.now }
    requires found { AreFound image.now faults.now }
    requires places { AreAllPlaces image.now block places.now }
    ensures { HasMark image.now block result }
{
    if block >= BOOT_BLOCKS && has_two_longs(places) {
        return BlockMark::Twice;
    }
    if shows_fault(faults, block) {
        return BlockMark::Faulty;
    }
    plain_mark(image, block, places)
}

/// Whether these places are in two longs.
fn has_two_longs(places: &[Place]) -> bool
    ensures { MatchBool result (HasTwoLongs places.now) (AreOneLong places.now) }
{
    for place in places {
        if !is_same_long(*place, places[0]) {
            return true;
        }
    }
    false
}

/// Whether two places are one long.
fn is_same_long(one: Place, other: Place) -> bool
    ensures { MatchBool result (IsSameLong one other) (¬ IsSameLong one other) }
{
    one.holder == other.holder && one.long == other.long
}

/// What a block without a fault is, by all places that name it.
fn plain_mark(image: &Image, block: u32, places: &[Place]) -> BlockMark
    requires inside { block < block_count image.now }
    requires places { AreAllPlaces image.now block places.now }
    requires once { BOOT_BLOCKS ≤ block → AreOneLong places.now }
    ensures { IsPlain image.now block result }
{
    if block < BOOT_BLOCKS {
        return BlockMark::Boot;
    }
    if block == image.root() {
        return BlockMark::Root;
    }
    match places.first() {
        Some(place) => named_mark(image, block, place.kind),
        None => unnamed_mark(image, block),
    }
}

/// What a place of this kind makes of a block.
fn named_mark(image: &Image, block: u32, kind: PlaceKind) -> BlockMark
    requires { block < block_count image.now }
    ensures { IsMarkOf image.now block kind result }
{
    match kind {
        PlaceKind::Page => BlockMark::Bitmap,
        PlaceKind::Extension => BlockMark::Extension,
        PlaceKind::Data => BlockMark::Data,
        PlaceKind::Entry | PlaceKind::NextEntry => {
            if image.long(block, SECONDARY_TYPE) == FILE_TYPE {
                BlockMark::File
            } else {
                BlockMark::Directory
            }
        }
    }
}

/// What a block is that nothing names.
fn unnamed_mark(image: &Image, block: u32) -> BlockMark
    requires { InImage image.now block }
    ensures { IsMarkByBit image.now block result }
{
    let source = Source::whole(image);
    if is_free(&source, block) {
        BlockMark::Free
    } else {
        BlockMark::Lost
    }
}

/// The map with these letters.
fn faulty_text(
    alloc: Global,
    reason: FaultReason,
    form: MapForm,
    letters: &[u8],
    unread: &[bool],
) -> Result<Vec<u8>, AllocError>
    ensures { IfOk result (λ text. text.items ≡ faulty_map_of form unread.now reason.kind.now reason.block letters.now) }
{
    match form {
        MapForm::Json => faulty_map_object(alloc, reason, letters),
        _ => faulty_page(alloc, reason, form, letters, unread),
    }
}

/// The lines of the map with these letters.
fn faulty_page(
    alloc: Global,
    reason: FaultReason,
    form: MapForm,
    letters: &[u8],
    unread: &[bool],
) -> Result<Vec<u8>, AllocError>
    ensures { IfOk result (λ text. text.items ≡ refused_line reason.kind.now reason.block ++ map_page form true unread.now letters.now) }
{
    let mut text = refused_text(alloc, reason, false)?;
    let page = map_page(alloc, letters, form, true, unread)?;
    text.extend_from_slice(&page)?;
    Ok(text)
}
