//! What a person wants to know of a volume.
ghost use Rattle.std.specs.Prelude.{IfOk};
ghost use Rattle.ados_model.specs.Tree.{Tree};
ghost use Rattle.ados_model.specs.Stands.{Stands};
ghost use Rattle.adf_record.specs.Facts.{AreFacts};

use crate::bundling::root_date;
use crate::counts::{Counts, counts_of};
use crate::lost::{LostBlocks, lost_blocks};
use adf_block::layout::{CREATION_DATE, DISK_DATE};
use adf_block::{BootCode, Format, boot_code};
use ados_name::{Date3, Name};
use ados_volume::{Volume, free_blocks};
use std::alloc::{AllocError, Global};

/// What a person wants to know of a volume.
#[derive(Clone, Copy)]
pub struct Facts {
    pub label: Name,
    pub format: Format,
    pub blocks: u32,
    /// Whether its bitmap was not valid and was rebuilt in memory.
    pub rebuilt: bool,
    pub counts: Counts,
    /// The blocks in use, without the boot blocks.
    pub used: u32,
    /// The free blocks.
    pub free: u32,
    pub created: Date3,
    /// When the volume was last changed.
    pub changed: Date3,
    pub boot: BootCode,
    /// The blocks in use that belong to nothing.
    pub lost: LostBlocks,
}

/// The facts of a volume.
pub fn facts_of(alloc: Global, volume: &Volume) -> Result<Facts, AllocError>
    ensures { IfOk result (λ facts. (t : Tree) → Stands volume.now.image t → AreFacts volume.now.image volume.now.was_validated t facts) }
{
    let counts = counts_of(alloc, volume)?;
    let lost = lost_blocks(alloc, volume)?;
    let image = volume.image();
    Ok(Facts {
        label: volume.examine(volume.root()).name,
        format: image.format(),
        blocks: image.blocks(),
        rebuilt: volume.was_validated(),
        counts,
        used: volume.info().used,
        free: free_blocks(volume),
        created: root_date(volume, CREATION_DATE),
        changed: root_date(volume, DISK_DATE),
        boot: boot_code(image),
        lost,
    })
}
