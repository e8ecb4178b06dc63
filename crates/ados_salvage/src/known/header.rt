//! Headers, by themselves.
ghost use Rattle.std.specs.Prelude.{◌≡◌, ◌<◌, ◌↔◌, ℕ, Some, IfOk, IsTrue, MatchOption};
ghost use Rattle.adf_block.specs.Image.{block_count};
ghost use Rattle.adf_block.specs.Whole.{text_at};
ghost use Rattle.ados_name.specs.Name.{IsName};
ghost use Rattle.ados_check.specs.Marks.{HasEntryType};
ghost use Rattle.ados_model.specs.Faults.{HasDirectoryType, HasFileType};
ghost use Rattle.ados_salvage.specs.Doubtful.{HasTable, IsPlaceIn, IsRoot, LooksLikeHeader};
ghost use Rattle.ados_salvage.specs.Sound.{IsSoundHeader};
ghost use Rattle.ados_salvage.specs.Marks.{mark_at};
ghost use Rattle.ados_salvage.specs.steps.Heading.{AreSound};

use adf_block::Image;
use adf_block::layout::{
    BOOT_BLOCKS, DIRECTORY_TYPE, FILE_TYPE, FIRST_SLOT, HEADER_TYPE, NAME_BYTE, NEXT_IN_CHAIN,
    PARENT, PRIMARY_TYPE, ROOT_TYPE, SECONDARY_TYPE, TABLE_LONGS,
};
use ados_census::{BlockKind, is_sound_as, looks_like};
use ados_name::Name;
use std::alloc::{AllocError, Global};

/// Whether a block is the header of a directory or file with the right fields.
pub fn is_sound_header(image: &Image, block: u32) -> bool
    requires { block < block_count image.now }
    ensures { IsTrue result ↔ IsSoundHeader image.now block }
{
    prove!(block < image.blocks());
    is_sound_as(image, block, BlockKind::FileHeader)
        || is_sound_as(image, block, BlockKind::DirectoryHeader)
}

/// For each block of an image, whether it is a sound header. An image may be much larger than the processor's cache, so each
/// block is looked at once, and further passes read these marks.
pub(crate) fn sound_headers(alloc: Global, image: &Image) -> Result<Vec<bool>, AllocError>
    ensures { IfOk result (λ sound. AreSound image.now sound.items) }
{
    let mut sound = Vec::with_capacity(alloc, image.blocks() as usize)?;
    for block in 0..image.blocks() {
        sound.push(is_sound_header(image, block))?;
    }
    Ok(sound)
}

/// Whether a block is a sound header, by the marks of all blocks.
pub(crate) fn is_sound(sound: &[bool], block: u32) -> bool
    ensures { result ≡ mark_at sound.now block }
{
    match sound.get(block as usize) {
        Some(mark) => *mark,
        None => false,
    }
}

/// Whether a block has the types, the own number and the name of a header, whatever else is in it.
pub(crate) fn looks_like_header(image: &Image, block: u32) -> bool
    ensures { IsTrue result ↔ LooksLikeHeader image.now block }
{
    let blocks = image.blocks();
    if block < BOOT_BLOCKS || block >= blocks {
        return false;
    }
    looks_like(image, block, BlockKind::FileHeader)
        || looks_like(image, block, BlockKind::DirectoryHeader)
}

/// Whether a block is in the place of the root, with the types of one.
pub(crate) fn is_root(image: &Image, block: u32) -> bool
    requires { block < block_count image.now }
    ensures { IsTrue result ↔ IsRoot image.now block }
{
    block == image.root()
        && image.long(block, PRIMARY_TYPE) == HEADER_TYPE
        && image.long(block, SECONDARY_TYPE) == ROOT_TYPE
}

/// The directory for whose entries a long of a block is a place: for a slot of a hash table the block itself, for the
/// next-entry long of an entry its parent. `None` for any other long.
pub fn dir_of_place(image: &Image, block: u32, at: u32) -> Option<u32>
    requires { block < block_count image.now }
    ensures { (dir : ℕ) → IsPlaceIn image.now dir block at ↔ (result ≡ Some dir) }
{
    if at == NEXT_IN_CHAIN {
        return is_entry(image, block).then_some(image.long(block, PARENT));
    }
    if at < FIRST_SLOT || at >= FIRST_SLOT + TABLE_LONGS {
        return None;
    }
    has_table(image, block).then_some(block)
}

/// Whether a block has the type of a root or of a directory, which have a hash table.
fn has_table(image: &Image, block: u32) -> bool
    requires { block < block_count image.now }
    ensures { IsTrue result ↔ HasTable image.now block }
{
    image.long(block, SECONDARY_TYPE) == ROOT_TYPE || is_directory(image, block)
}

/// Whether a header has the type of a directory.
fn is_directory(image: &Image, block: u32) -> bool
    requires { block < block_count image.now }
    ensures { IsTrue result ↔ HasDirectoryType image.now block }
{
    image.long(block, SECONDARY_TYPE) == DIRECTORY_TYPE
}

/// Whether a header has the type of a directory or of a file.
fn is_entry(image: &Image, block: u32) -> bool
    requires { block < block_count image.now }
    ensures { IsTrue result ↔ HasEntryType image.now block }
{
    is_directory(image, block) || is_file(image, block)
}

/// Whether a header has the type of a file.
pub fn is_file(image: &Image, block: u32) -> bool
    requires { block < block_count image.now }
    ensures { IsTrue result ↔ HasFileType image.now block }
{
    image.long(block, SECONDARY_TYPE) == FILE_TYPE
}

/// The name in a block, or `None` if it is not valid.
pub fn name_of(image: &Image, key: u32) -> Option<Name>
    requires { key < block_count image.now }
    ensures { MatchOption result (¬ IsName (text_at image.now key NAME_BYTE))
        (λ name. (name ≡ text_at image.now key NAME_BYTE) × IsName (text_at image.now key NAME_BYTE)) }
{
    let block = image.block(key);
    let at = NAME_BYTE as usize;
    let length = block[at] as usize;
    if length > Name::MAX_LEN {
        return None;
    }
    Name::new(&block[at + 1..at + 1 + length]).ok()
}
