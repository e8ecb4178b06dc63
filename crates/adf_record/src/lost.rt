//! The lost blocks of a volume: how many there are, and how many headers are among them.
ghost use Rattle.std.specs.Prelude.{◌≡◌, ◌<◌, ◌↔◌, IfOk, IsTrue, MatchBool, Some, slice_get};
ghost use Rattle.adf_block.specs.Image.{block_count};
ghost use Rattle.ados_model.specs.Stands.{Stands};
ghost use Rattle.ados_model.specs.Tree.{Tree};
ghost use Rattle.ados_volume.specs.declared.owner.Owner.TheVariants.{Lost};
ghost use Rattle.adf_record.specs.Lost.{AreLost, IsNumberOf};
ghost use Rattle.adf_record.specs.steps.Losing.{IsCounted};

use adf_block::Image;
use ados_census::{BlockKind, is_sound_as};
use ados_volume::{Owner, Volume, owners};
use std::alloc::{AllocError, Global};

/// How many blocks of a volume are lost, and how many headers are among them.
#[derive(Clone, Copy)]
pub struct LostBlocks {
    pub blocks: usize,
    /// The sound headers of files.
    pub files: usize,
    /// The sound headers of directories.
    pub directories: usize,
}

/// Counts the lost blocks of a volume, and the headers among them. Time and memory are linear in the size of the image.
pub fn lost_blocks(alloc: Global, volume: &Volume) -> Result<LostBlocks, AllocError>
    ensures { IfOk result (λ lost. (t : Tree) → Stands volume.now.image t → AreLost volume.now.image t lost) }
{
    let owners = owners(alloc, volume)?;
    let image = volume.image();
    Ok(LostBlocks {
        blocks: count_lost(image, &owners, None),
        files: count_lost(image, &owners, Some(BlockKind::FileHeader)),
        directories: count_lost(image, &owners, Some(BlockKind::DirectoryHeader)),
    })
}

/// The number of lost blocks by the owners of all blocks; with a kind, of those that are sound as this kind.
fn count_lost(image: &Image, owners: &[Owner], kind: Option<BlockKind>) -> usize
    ensures { IsNumberOf (IsCounted image.now owners.now kind) result }
{
    let mut count = 0;
    for block in 0..image.blocks() {
        if is_counted(image, owners, block, kind) {
            count += 1;
        }
    }
    count
}

/// Whether a block is lost by the owners of all blocks; with a kind, whether it is sound as this kind too.
fn is_counted(image: &Image, owners: &[Owner], block: u32, kind: Option<BlockKind>) -> bool
    requires { block < block_count image.now }
    ensures { MatchBool result (IsCounted image.now owners.now kind block) (¬ IsCounted image.now owners.now kind block) }
{
    if !is_lost(owners, block) {
        return false;
    }
    match kind {
        Some(kind) => is_sound_as(image, block, kind),
        None => true,
    }
}

/// Whether a block is lost by the owners of all blocks.
fn is_lost(owners: &[Owner], block: u32) -> bool
    ensures { IsTrue result ↔ (slice_get owners.now block ≡ Some Lost) }
{
    match owners.get(block as usize) {
        Some(Owner::Lost) => true,
        _ => false,
    }
}
