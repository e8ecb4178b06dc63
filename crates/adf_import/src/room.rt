//! The blocks that a file needs.

ghost use Rattle.std.specs.Prelude.{◌≡◌, ◌+◌};
ghost use Rattle.ados_model.specs.Tree.{block_cost, Tree};
ghost use Rattle.ados_model.specs.Stands.{Stands};
ghost use Rattle.ados_model.specs.Keys.{HasKey};
ghost use Rattle.adf_import.specs.Refusals.{more_blocks};

use ados_data::blocks_of;
use ados_volume::Volume;

/// The number of blocks of a new file with `size` bytes, its header included.
pub(crate) fn new_file_blocks(volume: &Volume, size: usize) -> u64
    ensures { (t : Tree) → Stands volume.now.image t → result ≡ 1 + block_cost t.format size }
{
    1 + blocks_of(volume.image().format(), size as u64)
}

/// The number of additional blocks that a file needs for `size` bytes.
pub(crate) fn more_blocks(volume: &Volume, key: u32, size: usize) -> u64
    requires { HasKey volume.now.image key }
    ensures { (t : Tree) → Stands volume.now.image t → result ≡ more_blocks t key size }
{
    let format = volume.image().format();
    let has = blocks_of(format, volume.examine(key).size as u64);
    blocks_of(format, size as u64).saturating_sub(has)
}
