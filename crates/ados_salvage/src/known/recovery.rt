//! How much of a deleted entry can be recovered.
ghost use Rattle.std.specs.Prelude.{[], ◌≡◌, ℕ, All, IfOk, IfSome, MatchOption, count_by};
ghost use Rattle.adf_block.specs.Image.{block_count};
ghost use Rattle.ados_model.specs.Faults.{HasFileType};
ghost use Rattle.ados_salvage.specs.Deleted.{HasRecovery, IsTrustedBitmap, IsUsed, IsUser, UsesOne, entry_in, is_used};
ghost use Rattle.ados_salvage.specs.Holders.{HasKnownBlocks, HeaderNames};
ghost use Rattle.ados_salvage.specs.Sound.{IsSoundHeader, own_blocks};
ghost use Rattle.ados_salvage.specs.Known.{AreAllClaims, HasClaim, claim_at};
ghost use Rattle.ados_salvage.specs.steps.Deleting.{AreOfReached, is_several};

use crate::known::claims::Claim;
use crate::known::deleted::Recovery;
use crate::known::header::is_file;
use crate::known::image_known::Known;
use crate::known::intact::named_blocks;
use crate::known::trust::is_used;
use adf_block::Image;
use adf_block::layout::BOOT_BLOCKS;
use ados_check::Mark;
use ados_model::Role;
use std::alloc::AllocError;

/// How much of the entry with a sound header can be recovered. `named` has the sound headers that name each block. A file of
/// which no other one names a block is intact if it claims its header.
pub(crate) fn recovery_of(
    known: &Known,
    named: &[Claim],
    header: u32,
    marks: &[Option<Mark>],
) -> Result<Recovery, AllocError>
    requires trusted { IsTrustedBitmap known.now.image }
    requires header { IsSoundHeader known.now.image header }
    requires claims { AreAllClaims (HasClaim [] known.now.image) (block_count known.now.image) known.now.claims.items }
    requires named { AreAllClaims (HeaderNames known.now.image) (block_count known.now.image) named.now }
    requires marks { AreOfReached known.now.image marks.now }
    ensures { IfOk result (HasRecovery known.now.image header) }
{
    let image = &known.image;
    if !is_file(image, header) {
        return Ok(Recovery::Directory);
    }
    let Some(blocks) = named_blocks(known.alloc, image, header)? else {
        return Ok(Recovery::NotIntact);
    };
    if let Some(recovery) = use_of(image, marks, &blocks) {
        return Ok(recovery);
    }
    let all = blocks.len();
    let shared = count_several(named, &blocks);
    if shared > 0 {
        return Ok(Recovery::Shared { shared, all });
    }
    if known.claims[header as usize] == Claim::One(header) {
        return Ok(Recovery::Free { all });
    }
    Ok(Recovery::NotIntact)
}

/// How many of these blocks of a file are used, and by which entry; `None` if none is.
fn use_of(image: &Image, marks: &[Option<Mark>], blocks: &[u32]) -> Option<Recovery>
    requires trusted { IsTrustedBitmap image.now }
    requires marks { AreOfReached image.now marks.now }
    ensures { MatchOption result (All (λ block. ¬ IsUsed image.now block) blocks.now)
        (λ recovery. (file : ℕ) → HasFileType image.now file → HasKnownBlocks image.now file → blocks.now ≡ own_blocks image.now file → HasRecovery image.now file recovery) }
{
    let used = count_used(image, blocks);
    if used == 0 {
        return None;
    }
    let by = first_user(image, marks, blocks);
    Some(Recovery::Used {
        used,
        all: blocks.len(),
        by,
    })
}

/// The number of these blocks that are blocks of the volume and marked used.
fn count_used(image: &Image, blocks: &[u32]) -> usize
    requires { IsTrustedBitmap image.now }
    ensures { result ≡ count_by (is_used image.now) blocks.now }
{
    blocks
        .iter()
        .filter(|block| is_used(image, **block))
        .count()
}

/// The number of these blocks that several sound headers name.
fn count_several(named: &[Claim], blocks: &[u32]) -> usize
    ensures { result ≡ count_by (λ block. is_several (claim_at named.now block)) blocks.now }
{
    blocks
        .iter()
        .filter(|block| is_several(named, **block))
        .count()
}

/// Whether several sound headers name a block. None names a block that is not in the image.
fn is_several(named: &[Claim], block: u32) -> bool
    ensures { result ≡ is_several (claim_at named.now block) }
{
    match named.get(block as usize) {
        Some(claim) => matches!(claim, Claim::Several),
        None => false,
    }
}

/// The entry that has the first of these blocks that belongs to a reached entry.
fn first_user(image: &Image, marks: &[Option<Mark>], blocks: &[u32]) -> Option<u32>
    requires { AreOfReached image.now marks.now }
    ensures { IfSome result (UsesOne image.now blocks.now) }
{
    blocks
        .iter()
        .find_map(|block| user_of(image, marks, *block))
}

/// The reached entry that a block belongs to.
fn user_of(image: &Image, marks: &[Option<Mark>], block: u32) -> Option<u32>
    requires { AreOfReached image.now marks.now }
    ensures { IfSome result (IsUser image.now block) }
{
    if block < BOOT_BLOCKS || block >= image.blocks() {
        return None;
    }
    let mark = (*marks.get(block as usize)?)?;
    entry_in(block, mark.role)
}

/// The entry that a block in this role belongs to.
fn entry_in(block: u32, role: Role) -> Option<u32>
    ensures { result ≡ entry_in block role }
{
    match role {
        Role::Entry(_, _) => Some(block),
        Role::Data(file) | Role::Extension(file) => Some(file),
        Role::Root | Role::Page => None,
    }
}
