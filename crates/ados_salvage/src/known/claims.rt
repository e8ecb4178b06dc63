//! The headers that claim a block.
ghost use Rattle.std.specs.Prelude.{◌≡◌, ◌+◌, ◌<◌, ℕ, length, All, IfOk, OnOk, MatchBool, MatchOption};
ghost use Rattle.adf_block.specs.Image.{block_count};
ghost use Rattle.ados_salvage.specs.Sound.{IsClaimant, own_blocks};
ghost use Rattle.ados_salvage.specs.Known.{AreAllClaims, HasClaim, claim_at};
ghost use Rattle.ados_salvage.specs.steps.Claims.{IsNoted, with_claim};
ghost use Rattle.ados_salvage.specs.steps.Heading.{AreSound};
ghost use Rattle.ados_salvage.specs.steps.Parts.{AreUsersBelow};
ghost use Rattle.ados_salvage.specs.declared.known.claims.Claim.TheVariants.{One as one};

use crate::known::header::is_sound;
use crate::known::intact::{no_users, own_blocks};
use crate::known::left_out::LeftOut;
use adf_block::Image;
use adf_block::layout::BOOT_BLOCKS;
use std::alloc::{AllocError, Global};

/// The headers that claim a block.
#[derive(Clone, Copy, PartialEq, Eq)]
pub(crate) enum Claim {
    /// None.
    Free,
    One(u32),
    Several,
}

impl Claim {
    /// The claim after one more header claims the block.
    fn with(self, file: u32) -> Claim
        ensures { result ≡ with_claim file self }
    {
        match self {
            Claim::Free => Claim::One(file),
            Claim::One(other) if other == file => self,
            _ => Claim::Several,
        }
    }
}

/// For each block of an image, the sound files that claim it. Those that are left out claim none. `sound` marks the sound
/// headers.
pub(crate) fn claims(
    alloc: Global,
    image: &Image,
    left_out: &LeftOut,
    sound: &[bool],
) -> Result<Vec<Claim>, AllocError>
    requires { AreSound image.now sound.now }
    ensures { IfOk result (λ claims. AreAllClaims (HasClaim left_out.now image.now) (block_count image.now) claims.items) }
{
    let mut claims = vec![in alloc; Claim::Free; image.blocks() as usize]?;
    let mut users = no_users(alloc, image)?;
    prove!(image.blocks() >= 16);
    for file in BOOT_BLOCKS..image.blocks() {
        if let Some(blocks) = claimed_blocks(alloc, image, left_out, sound, file, &mut users)? {
            note(&mut claims, file, &blocks);
        }
    }
    Ok(claims)
}

/// The blocks of a file, if it is sound and not left out.
#[tactic(auto, using(crate::proofs::FileBlocks::users_kept))]
pub(crate) fn claimed_blocks(
    alloc: Global,
    image: &Image,
    left_out: &LeftOut,
    sound: &[bool],
    file: u32,
    users: &mut Vec<u32>,
) -> Result<Option<Vec<u32>>, AllocError>
    requires file { file < block_count image.now }
    requires sound { AreSound image.now sound.now }
    requires users { AreUsersBelow image.now file users.old.items }
    ensures users { OnOk result (AreUsersBelow image.now (file + 1) users.new.items) }
    ensures own { IfOk result (λ found. MatchOption found (¬ IsClaimant left_out.now image.now file)
        (λ blocks. IsClaimant left_out.now image.now file × (blocks.items ≡ own_blocks image.now file))) }
{
    if !is_sound(sound, file) {
        return Ok(None);
    }
    if left_out.has(file) {
        return Ok(None);
    }
    own_blocks(alloc, image, file, users)
}

/// Notes that a header claims these blocks.
pub(crate) fn note(claims: &mut [Claim], file: u32, blocks: &[u32])
    requires { All (λ block. block < length claims.old) blocks.now }
    ensures count { length claims.new ≡ length claims.old }
    ensures noted { (block : ℕ) → block < length claims.old → IsNoted file blocks.now claims.old claims.new block }
{
    for block in blocks {
        claims[*block as usize] = claims[*block as usize].with(file);
    }
}

/// Whether only this file claims each of these blocks.
pub(crate) fn are_alone(claims: &[Claim], file: u32, blocks: &[u32]) -> bool
    requires { All (λ block. block < length claims.now) blocks.now }
    ensures { MatchBool result (All (λ block. claim_at claims.now block ≡ one file) blocks.now) (¬ All (λ block. claim_at claims.now block ≡ one file) blocks.now) }
{
    blocks
        .iter()
        .all(|block| claims[*block as usize] == Claim::One(file))
}
