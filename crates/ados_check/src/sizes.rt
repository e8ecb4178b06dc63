//! The rules of a file's size: it needs a number of data blocks, and in OFS these hold as many bytes.
ghost use Rattle.std.specs.Prelude.{◌≢◌, ◌<◌, ◌↔◌, IsTrue};
ghost use Rattle.adf_block.specs.Image.{block_count};
ghost use Rattle.adf_block.specs.Fields.{file_size};
ghost use Rattle.ados_model.specs.Faults.{count_of_size};
ghost use Rattle.ados_check.specs.Source.{Tells};

use crate::source::Source;
use adf_block::layout::{FFS_ROOM, FILE_SIZE, OFS_ROOM};

/// Whether the size of a file with so many data blocks needs another number of them.
pub fn needs_other_count(source: &Source<'_>, file: u32, count: u64) -> bool
    requires inside { file < block_count source.now.bytes }
    requires told { Tells source.now file FILE_SIZE }
    ensures { IsTrue result ↔ (count ≢ count_of_size source.now.bytes file) }
{
    let room = if source.kind_byte() == 0 {
        OFS_ROOM
    } else {
        FFS_ROOM
    };
    count != u64::from(source.long(file, FILE_SIZE).div_ceil(room))
}

/// Whether a file whose data blocks hold so many bytes has another size.
pub fn has_other_size(source: &Source<'_>, file: u32, held: u64) -> bool
    requires inside { file < block_count source.now.bytes }
    requires told { Tells source.now file FILE_SIZE }
    ensures { IsTrue result ↔ (held ≢ file_size source.now.bytes file) }
{
    held != u64::from(source.long(file, FILE_SIZE))
}
