//! The pointer blocks of a file: its header and its extension blocks.
ghost use Rattle.std.specs.Prelude.{◌≡◌, ◌<◌, ◌+◌, ◌-◌, ◌*◌, ◌∷◌, ℕ, length, min, ◌↔◌, Contains, IfOk, IsTrue, MatchOption, OnOk};
ghost use Rattle.adf_block.specs.Image.{block_count};
ghost use Rattle.ados_model.specs.Faults.{HasFileType, InImage};
ghost use Rattle.ados_model.specs.Stands.{HasExtension};
ghost use Rattle.ados_model.specs.File.{extension_blocks};
ghost use Rattle.ados_salvage.specs.Doubtful.{LooksLikeExtension};
ghost use Rattle.ados_salvage.specs.Holders.{AreMarkedAfter, HasHolders, IsHolder, IsHolderOf, IsNewAfter};
ghost use Rattle.ados_salvage.specs.Sound.{data_needed};
ghost use Rattle.ados_salvage.specs.steps.Naming.{ArePassed};

use crate::known::header::is_file;
use adf_block::layout::{
    BOOT_BLOCKS, FFS_ROOM, FILE_SIZE, NEXT_EXTENSION, OFS_ROOM, PARENT, POINTER_COUNT, TABLE_LONGS,
};
use adf_block::{Format, Image};
use ados_census::{BlockKind, looks_like};
use std::alloc::{AllocError, Global};

/// The number of data blocks that the size of a file needs.
pub fn data_needed(image: &Image, file: u32) -> u32
    requires { file < block_count image.now }
    ensures { result ≡ data_needed image.now file }
{
    let room = match image.format() {
        Format::Ofs => OFS_ROOM,
        Format::Ffs => FFS_ROOM,
    };
    image.long(file, FILE_SIZE).div_ceil(room)
}

/// The header and the extension blocks of a file with this many data blocks, if each has the right fields for its
/// position. Those that come again and again are not followed to the end.
pub(crate) fn holders(
    alloc: Global,
    image: &Image,
    file: u32,
    needed: u32,
) -> Result<Option<Vec<u32>>, AllocError>
    requires inside { file < block_count image.now }
    requires needed { needed ≡ data_needed image.now file }
    ensures { IfOk result (λ found. MatchOption found (¬ HasHolders image.now file)
        (λ blocks. HasHolders image.now file × (blocks.items ≡ file ∷ extension_blocks image.now file))) }
{
    let mut blocks = Vec::new(alloc);
    let mut holder = file;
    for q in 0..needed.div_ceil(TABLE_LONGS).max(1) {
        if !is_holder(image, file, q, holder, needed) {
            return Ok(None);
        }
        if is_again(&blocks, holder) {
            return Ok(None);
        }
        blocks.push(holder)?;
        holder = image.long(holder, NEXT_EXTENSION);
    }
    if holder != 0 {
        return Ok(None);
    }
    Ok(Some(blocks))
}

/// Whether a block is the one halfway to it. If pointer blocks come again and again, one of the next is (Floyd's rule).
fn is_again(blocks: &[u32], block: u32) -> bool
    ensures { IsTrue result → Contains blocks.now block }
{
    match blocks.get(blocks.len() / 2) {
        Some(halfway) => *halfway == block,
        None => false,
    }
}

/// Whether a block can be pointer block `q` of a file with this many data blocks.
fn is_holder(image: &Image, file: u32, q: u32, block: u32, needed: u32) -> bool
    requires needed { needed ≡ data_needed image.now file }
    ensures { IsTrue result ↔ IsHolder image.now file q block }
{
    BOOT_BLOCKS <= block
        && block < image.blocks()
        && (q == 0 || is_extension(image, file, block))
        && u64::from(image.long(block, POINTER_COUNT)) == pointers_in(q, needed)
}

/// The number of pointers in pointer block `q` of a file with this many data blocks.
fn pointers_in(q: u32, needed: u32) -> u64
    ensures { result ≡ min TABLE_LONGS (needed - TABLE_LONGS * q) }
{
    u64::from(needed)
        .saturating_sub(u64::from(TABLE_LONGS) * u64::from(q))
        .min(u64::from(TABLE_LONGS))
}

/// Whether a block is an extension block of a file.
fn is_extension(image: &Image, file: u32, block: u32) -> bool
    requires { block < block_count image.now }
    ensures { IsTrue result ↔ HasExtension image.now file block }
{
    looks_like_extension(image, file, block) && image.sum(block) == 0
}

/// Whether a block says that it is an extension block of a file, whatever its checksum is.
pub fn looks_like_extension(image: &Image, file: u32, block: u32) -> bool
    requires { block < block_count image.now }
    ensures { IsTrue result ↔ LooksLikeExtension image.now file block }
{
    image.long(block, PARENT) == file && looks_like(image, block, BlockKind::Extension)
}

/// The pointer blocks of a file that can be reached, whatever their checksums are: its header, and the extension blocks that one
/// after the other is named. A directory has none. `passed` marks the extension blocks of files before this one.
pub(crate) fn holders_of(
    alloc: Global,
    image: &Image,
    file: u32,
    passed: &mut Vec<bool>,
) -> Result<Vec<u32>, AllocError>
    requires inside { InImage image.now file }
    requires passed { ArePassed image.now file passed.old.items }
    ensures passed { OnOk result (ArePassed image.now (file + 1) passed.new.items) }
    ensures holders { IfOk result (λ holders. (block : ℕ) → Contains holders.items block ↔ (HasFileType image.now file × IsHolderOf image.now file block)) }
{
    let mut holders = Vec::new(alloc);
    if !is_file(image, file) {
        return Ok(holders);
    }
    holders.push(file)?;
    let mut holder = file;
    while let Some(next) = next_extension(image, file, holder, passed) {
        passed[next as usize] = true;
        holders.push(next)?;
        holder = next;
    }
    Ok(holders)
}

/// The extension block of a file that its header or another one names, unless it is marked.
fn next_extension(image: &Image, file: u32, holder: u32, marks: &Vec<bool>) -> Option<u32>
    requires inside { holder < block_count image.now }
    requires size { length marks.now.items ≡ block_count image.now }
    ensures { MatchOption result (AreMarkedAfter image.now marks.now.items file holder) (IsNewAfter image.now marks.now.items file holder) }
{
    let next = image.long(holder, NEXT_EXTENSION);
    if next < BOOT_BLOCKS || next >= image.blocks() {
        return None;
    }
    if marks[next as usize] || !looks_like_extension(image, file, next) {
        return None;
    }
    Some(next)
}
