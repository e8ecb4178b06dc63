//! What shows that a block is one of an entry.
ghost use Rattle.std.specs.Prelude.{◌≡◌, ◌<◌};
ghost use Rattle.adf_block.specs.Image.{block_count};
ghost use Rattle.adf_block.specs.Fields.{format_of};
ghost use Rattle.adf_rescue.specs.Reasons.{is_data_of, is_extension, is_holder, is_part, names};

use crate::doubt::Doubt;
use adf_block::layout::{
    DATA_TYPE, FILE_TYPE, FIRST_POINTER, LIST_TYPE, NEXT_EXTENSION, OWN_KEY, PARENT, POINTER_COUNT,
    PRIMARY_TYPE, SECONDARY_TYPE, TABLE_LONGS,
};
use adf_block::{Format, Image};

/// Where a pointer block of a file names a block: pointer `i` of it, or its link to the next extension block.
#[derive(Clone, Copy)]
pub(crate) struct Link {
    pub(crate) holder: u32,
    pub(crate) i: u32,
}

/// Why a file with a sound header may be doubtful, and what shows it.
#[derive(Clone, Copy)]
pub(crate) struct Hint {
    pub(crate) doubt: Doubt,
    /// Where the file names the block of the doubt.
    pub(crate) own: Link,
    /// Where another file names it, if that is why.
    pub(crate) other: Link,
}

/// Whether a block is one of the entry with this header: the header, one that the link names, or in OFS one that names the header.
pub(crate) fn is_part(image: &Image, header: u32, link: Link, block: u32) -> bool
    ensures { result ≡ is_part image.now header link block }
{
    block < image.blocks()
        && (block == header
            || is_holder(image, header, link.holder) && names(image, link, block)
            || is_data_of(image, header, block))
}

/// Whether a block is a pointer block of a file: its header or an extension block of it.
fn is_holder(image: &Image, header: u32, block: u32) -> bool
    ensures { result ≡ is_holder image.now header block }
{
    block < image.blocks() && (block == header || is_extension(image, header, block))
}

/// Whether a block is an extension block of a file, whatever its checksum is.
pub(crate) fn is_extension(image: &Image, header: u32, block: u32) -> bool
    requires { block < block_count image.now }
    ensures { result ≡ is_extension image.now header block }
{
    image.long(block, PRIMARY_TYPE) == LIST_TYPE
        && image.long(block, SECONDARY_TYPE) == FILE_TYPE
        && image.long(block, PARENT) == header
        && image.long(block, OWN_KEY) == block
}

/// Whether a pointer block names a block at a place, or as the next extension block.
fn names(image: &Image, link: Link, block: u32) -> bool
    requires { link.holder < block_count image.now }
    ensures { result ≡ names image.now link block }
{
    let holder = link.holder;
    link.i < image.long(holder, POINTER_COUNT).min(TABLE_LONGS)
        && image.long(holder, FIRST_POINTER - link.i) == block
        || image.long(holder, NEXT_EXTENSION) == block
}

/// Whether a block says that it is an OFS data block of a file.
fn is_data_of(image: &Image, header: u32, block: u32) -> bool
    requires { block < block_count image.now }
    ensures { result ≡ is_data_of (format_of image.now) image.now header block }
{
    match image.format() {
        Format::Ofs => {
            image.long(block, PRIMARY_TYPE) == DATA_TYPE && image.long(block, OWN_KEY) == header
        }
        Format::Ffs => false,
    }
}
