//! The places of blocks on a disk, and the blocks that arguments name.
ghost use Rattle.std.specs.Prelude.{◌≡◌, ◌<◌, All, IfErr, IfOk};
ghost use Rattle.adf_where.specs.Where.{AreNamed, IsWhereFault, cylinder_of, head_of, sector_of};

use crate::where_fault::WhereFault;
use adf_cli::{BlockWord, HEADS, track, volume_block};
use std::alloc::Global;

/// The blocks that these arguments name in a volume with so many blocks.
pub(crate) fn named_blocks(
    alloc: Global,
    blocks: u32,
    words: &[BlockWord],
) -> Result<Vec<u32>, WhereFault>
    ensures named { IfOk result (λ found. AreNamed blocks words.now found.items) }
    ensures inside { IfOk result (λ found. All (λ block. block < blocks) found.items) }
    ensures fault { IfErr result (IsWhereFault blocks words.now) }
{
    let mut found = Vec::new(alloc);
    for word in words {
        let Some(block) = volume_block(blocks, *word) else {
            return Err(WhereFault::NoBlock(*word));
        };
        let Ok(()) = found.push(block) else {
            return Err(WhereFault::Memory);
        };
    }
    Ok(found)
}

/// The cylinder of a block, from 0.
pub(crate) fn cylinder_of(blocks: u32, block: u32) -> u32
    ensures { result ≡ cylinder_of blocks block }
{
    block / (HEADS * track(blocks))
}

/// The head of a block, from 0.
pub(crate) fn head_of(blocks: u32, block: u32) -> u32
    ensures { result ≡ head_of blocks block }
{
    block / track(blocks) % HEADS
}

/// The sector of a block in its track, from 0.
pub(crate) fn sector_of(blocks: u32, block: u32) -> u32
    ensures { result ≡ sector_of blocks block }
{
    block % track(blocks)
}
