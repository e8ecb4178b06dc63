//! The number of blocks of a file.

ghost use Rattle.std.specs.Prelude.{◌≡◌};
ghost use Rattle.ados_model.specs.Tree.{data_size, data_start, block_cost, data_count, extension_count};

use adf_block::Format;
use adf_block::layout::{FFS_ROOM, OFS_DATA_BYTE, OFS_ROOM, TABLE_LONGS};

/// Bytes of a file in one data block: 488 in OFS, 512 in FFS.
pub fn data_size(format: Format) -> usize
    ensures { result ≡ data_size format }
{
    match format {
        Format::Ofs => OFS_ROOM as usize,
        Format::Ffs => FFS_ROOM as usize,
    }
}

/// Bytes of a data block before its data: 24 in OFS, 0 in FFS.
pub fn data_start(format: Format) -> usize
    ensures { result ≡ data_start format }
{
    match format {
        Format::Ofs => OFS_DATA_BYTE as usize,
        Format::Ffs => 0,
    }
}

/// The number of data blocks of a file with `size` bytes.
pub fn data_count(format: Format, size: u64) -> u64
    ensures { result ≡ data_count format size }
{
    size.div_ceil(data_size(format) as u64)
}

/// The number of extension blocks of a file with `count` data blocks. The header and each extension block hold 72
/// pointers.
pub fn extension_count(count: u64) -> u64
    ensures { result ≡ extension_count count }
{
    count.div_ceil(TABLE_LONGS as u64).saturating_sub(1)
}

/// The number of data and extension blocks of a file with `size` bytes. The header is not counted.
pub fn blocks_of(format: Format, size: u64) -> u64
    ensures { result ≡ block_cost format size }
{
    let count = data_count(format, size);
    count + extension_count(count)
}
