//! The bytes of runs of data blocks.
ghost use Rattle.std.specs.Prelude.{◌≡◌, ◌*◌, ◌+◌, ◌≤◌, if◌then◌else◌};
ghost use Rattle.adf_block.specs.Fields.{file_size, format_of};
ghost use Rattle.adf_rescue.specs.Missing.{end_of_block, first_byte, is_header_of_file, last_byte, room_of};

use crate::missing::Run;
use adf_block::layout::{
    FFS_ROOM, FILE_SIZE, FILE_TYPE, HEADER_TYPE, OFS_ROOM, OWN_KEY, PRIMARY_TYPE, SECONDARY_TYPE,
};
use adf_block::{Format, Image};

/// The first byte of a file in a run of its data blocks.
pub(crate) fn first_byte(image: &Image, run: Run) -> u64
    ensures { result ≡ first_byte image.now run }
{
    bytes_in(image, u64::from(run.first))
}

/// The last byte of a file with this header in a run of its data blocks. By the size in the header it ends there; without one,
/// each block counts as full.
pub(crate) fn last_byte(image: &Image, header: u32, run: Run) -> u64
    ensures { result ≡ last_byte image.now header run }
{
    end_of_block(image, header, run.last) - 1
}

/// The number of bytes up to the end of a data block.
fn end_of_block(image: &Image, header: u32, number: u32) -> u64
    ensures end { result ≡ end_of_block image.now header number }
    ensures some { 1 ≤ result }
{
    let before = bytes_in(image, u64::from(number));
    let end = bytes_in(image, u64::from(number) + 1);
    let size = size_of(image, header);
    if before < size && size < end {
        size
    } else {
        end
    }
}

/// The number of bytes in so many data blocks.
fn bytes_in(image: &Image, count: u64) -> u64
    requires { count ≤ 4294967296 }
    ensures { result ≡ room_of (format_of image.now) * count }
{
    match image.format() {
        Format::Ofs => u64::from(OFS_ROOM) * count,
        Format::Ffs => u64::from(FFS_ROOM) * count,
    }
}

/// The size in the header of a file; 0 if the block is none.
fn size_of(image: &Image, header: u32) -> u64
    ensures { result ≡ (if is_header_of_file image.now header then file_size image.now header else 0) }
{
    if is_header_of_file(image, header) {
        return u64::from(image.long(header, FILE_SIZE));
    }
    0
}

/// Whether a block is the header of a file by its types and its own number.
fn is_header_of_file(image: &Image, header: u32) -> bool
    ensures { result ≡ is_header_of_file image.now header }
{
    header < image.blocks()
        && image.long(header, PRIMARY_TYPE) == HEADER_TYPE
        && image.long(header, SECONDARY_TYPE) == FILE_TYPE
        && image.long(header, OWN_KEY) == header
}
