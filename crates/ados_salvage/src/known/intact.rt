//! Sound files, and their blocks.
ghost use Rattle.std.specs.Prelude.{◌≡◌, ◌+◌, ◌<◌, ◌≤◌, length, IfOk, OnOk, MatchBool, MatchOption, All};
ghost use Rattle.adf_block.specs.Image.{block_count};
ghost use Rattle.ados_salvage.specs.Sound.{IsIntact, own_blocks};
ghost use Rattle.ados_salvage.specs.Holders.{HasKnownBlocks};
ghost use Rattle.ados_salvage.specs.steps.Parts.{AreOnce, AreUsersBelow};

use crate::known::data::has_data;
use crate::known::header::{is_file, is_sound_header};
use crate::known::holders::{data_needed, holders};
use adf_block::Image;
use adf_block::layout::{FIRST_POINTER, TABLE_LONGS};
use std::alloc::{AllocError, Global};

/// The blocks of a file, if it is sound: its header, its extension blocks and its data blocks. `users` has for each block the
/// last of the files before this one that used it.
#[tactic(auto, using(crate::proofs::FileBlocks::users_kept))]
pub(crate) fn own_blocks(
    alloc: Global,
    image: &Image,
    file: u32,
    users: &mut Vec<u32>,
) -> Result<Option<Vec<u32>>, AllocError>
    requires file { file < block_count image.now }
    requires users { AreUsersBelow image.now file users.old.items }
    ensures users { OnOk result (AreUsersBelow image.now (file + 1) users.new.items) }
    ensures own { IfOk result (λ found. MatchOption found (¬ IsIntact image.now file)
        (λ blocks. IsIntact image.now file × (blocks.items ≡ own_blocks image.now file))) }
{
    if !is_sound_header(image, file) || !is_file(image, file) {
        return Ok(None);
    }
    let Some(blocks) = named_blocks(alloc, image, file)? else {
        return Ok(None);
    };
    if !has_data(image, file, &blocks) {
        return Ok(None);
    }
    if !are_once(file, &blocks, users) {
        return Ok(None);
    }
    Ok(Some(blocks))
}

/// All blocks of a file, as its pointers name them: its header, its extension blocks and its data blocks, whatever is in these
/// now. `None` if these are not known: the size is too large, or an extension block is none of this file.
pub(crate) fn named_blocks(
    alloc: Global,
    image: &Image,
    file: u32,
) -> Result<Option<Vec<u32>>, AllocError>
    requires { file < block_count image.now }
    ensures { IfOk result (λ found. MatchOption found (¬ HasKnownBlocks image.now file) (λ blocks. HasKnownBlocks image.now file × (blocks.items ≡ own_blocks image.now file))) }
{
    let needed = data_needed(image, file);
    if needed > image.blocks() {
        return Ok(None);
    }
    let Some(mut blocks) = holders(alloc, image, file, needed)? else {
        return Ok(None);
    };
    blocks.reserve(needed as usize)?;
    for i in 0..needed {
        let holder = blocks[(i / TABLE_LONGS) as usize];
        let block = image.long(holder, FIRST_POINTER - i % TABLE_LONGS);
        blocks.push(block)?;
    }
    Ok(Some(blocks))
}

/// No block has a user yet: 0 is the header of no file.
pub(crate) fn no_users(alloc: Global, image: &Image) -> Result<Vec<u32>, AllocError>
    ensures { IfOk result (λ users. AreUsersBelow image.now 2 users.items) }
{
    let users = vec![in alloc; 0; image.blocks() as usize]?;
    Ok(users)
}

/// Whether these blocks of a file are distinct. The file becomes the last user of each block, up to the first that comes again.
fn are_once(file: u32, blocks: &[u32], users: &mut Vec<u32>) -> bool
    requires inside { All (λ block. block < length users.old.items) blocks.now }
    requires users { All (λ user. user < file) users.old.items }
    ensures count { length users.new.items ≡ length users.old.items }
    ensures users { All (λ user. user ≤ file) users.new.items }
    ensures once { MatchBool result (AreOnce blocks.now) (¬ AreOnce blocks.now) }
{
    for block in blocks {
        if users[*block as usize] == file {
            return false;
        }
        users[*block as usize] = file;
    }
    true
}
