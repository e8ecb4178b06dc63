//! The description of a volume.

ghost use Rattle.std.specs.Prelude.{◌≡◌};
ghost use Rattle.ados_model.specs.Tree.{Tree, free};
ghost use Rattle.ados_model.specs.Stands.{Stands};
ghost use Rattle.ados_model.specs.Keys.{HasTree};
ghost use Rattle.ados_model.specs.Objects.{disk_info};

use crate::volume::Volume;
use adf_block::layout::{BOOT_BLOCKS, FFS_ROOM, OFS_ROOM};
use adf_block::{Format, Image};
use ados_map::count_free;
use ados_model::DiskInfo;

/// The state of a valid volume that can be written (AmigaDOS Technical Reference, InfoData).
const VALID: u32 = 82;

/// `DOS` and a zero byte, as a long.
const DOS: u32 = 0x444F_5300;

impl Volume {
    /// Describes the volume, as DISK_INFO returns it. A block that is marked used counts as used, even if no file or
    /// directory has it.
    pub fn info(&self) -> DiskInfo
        ensures { (t : Tree) → Stands self.now.image t → result ≡ disk_info t }
    {
        info_of(self.image())
    }
}

/// Describes the tree of an image.
fn info_of(image: &Image) -> DiskInfo
    requires { HasTree image.now }
    ensures { (t : Tree) → Stands image.now t → result ≡ disk_info t }
{
    let blocks = image.blocks() - BOOT_BLOCKS;
    let used = blocks - count_free(image);
    match image.format() {
        Format::Ofs => DiskInfo {
            state: VALID,
            blocks,
            used,
            bytes_per_block: OFS_ROOM,
            disk_type: DOS,
        },
        Format::Ffs => DiskInfo {
            state: VALID,
            blocks,
            used,
            bytes_per_block: FFS_ROOM,
            disk_type: DOS + 1,
        },
    }
}

/// The number of free blocks.
pub fn free_blocks(volume: &Volume) -> u32
    ensures { (t : Tree) → Stands volume.now.image t → result ≡ free t }
{
    prove!(volume.image().blocks() >= 16);
    let info = volume.info();
    info.blocks - info.used
}
