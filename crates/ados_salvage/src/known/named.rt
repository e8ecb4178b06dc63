//! The blocks that sound headers name, whether their files are sound or not.
ghost use Rattle.std.specs.Prelude.{◌≡◌, ◌+◌, ◌<◌, ◌↔◌, ℕ, Contains, IfOk, OnOk};
ghost use Rattle.adf_block.specs.Image.{block_count};
ghost use Rattle.ados_salvage.specs.Holders.{HeaderNames, PointsTo};
ghost use Rattle.ados_salvage.specs.Known.{AreAllClaims};
ghost use Rattle.ados_salvage.specs.Sound.{IsSoundHeader};
ghost use Rattle.ados_salvage.specs.steps.Heading.{AreSound};
ghost use Rattle.ados_salvage.specs.steps.Naming.{ArePassed, GrowsBy};

use crate::known::claims::{Claim, note};
use crate::known::header::is_sound;
use crate::known::holders::holders_of;
use adf_block::Image;
use adf_block::layout::{BOOT_BLOCKS, FIRST_POINTER, NEXT_EXTENSION, POINTER_COUNT, TABLE_LONGS};
use std::alloc::{AllocError, Global};

/// For each block of an image, the sound headers that name it. `sound` marks the sound headers.
pub(crate) fn named_claims(
    alloc: Global,
    image: &Image,
    sound: &[bool],
) -> Result<Vec<Claim>, AllocError>
    requires { AreSound image.now sound.now }
    ensures { IfOk result (λ claims. AreAllClaims (HeaderNames image.now) (block_count image.now) claims.items) }
{
    let mut claims = vec![in alloc; Claim::Free; image.blocks() as usize]?;
    let mut passed = vec![in alloc; false; image.blocks() as usize]?;
    prove!(image.blocks() >= 16);
    for header in BOOT_BLOCKS..image.blocks() {
        if is_sound(sound, header) {
            let blocks = named_by(alloc, image, header, &mut passed)?;
            note(&mut claims, header, &blocks);
        }
    }
    Ok(claims)
}

/// The blocks of the volume that a sound header names: its own, and for a file those that its pointer blocks point to. Some may
/// come twice. `passed` marks the extension blocks of files before this one.
fn named_by(
    alloc: Global,
    image: &Image,
    header: u32,
    passed: &mut Vec<bool>,
) -> Result<Vec<u32>, AllocError>
    requires header { IsSoundHeader image.now header }
    requires passed { ArePassed image.now header passed.old.items }
    ensures passed { OnOk result (ArePassed image.now (header + 1) passed.new.items) }
    ensures named { IfOk result (λ blocks. (block : ℕ) → Contains blocks.items block ↔ HeaderNames image.now header block) }
{
    let holders = holders_of(alloc, image, header, passed)?;
    let mut blocks = Vec::new(alloc);
    blocks.push(header)?;
    for holder in &holders {
        push_pointers(image, *holder, &mut blocks)?;
    }
    Ok(blocks)
}

/// Appends the blocks of the volume that a pointer block points to.
fn push_pointers(image: &Image, holder: u32, blocks: &mut Vec<u32>) -> Result<(), AllocError>
    requires { holder < block_count image.now }
    ensures { OnOk result (GrowsBy image.now (PointsTo image.now holder) blocks.old.items blocks.new.items) }
{
    for i in 0..image.long(holder, POINTER_COUNT).min(TABLE_LONGS) {
        let block = image.long(holder, FIRST_POINTER - i);
        push_inside(image, block, blocks)?;
    }
    let next = image.long(holder, NEXT_EXTENSION);
    push_inside(image, next, blocks)
}

/// Appends a block, if it is one of the volume.
fn push_inside(image: &Image, block: u32, blocks: &mut Vec<u32>) -> Result<(), AllocError>
    ensures { OnOk result (GrowsBy image.now (λ b. b ≡ block) blocks.old.items blocks.new.items) }
{
    if block < BOOT_BLOCKS || block >= image.blocks() {
        return Ok(());
    }
    blocks.push(block)?;
    Ok(())
}
