//! The OFS data blocks of an image, by the headers and the numbers in them.
ghost use Rattle.std.specs.Prelude.{◌<◌, IsTrue};
ghost use Rattle.ados_salvage.specs.Loose.{IsLooseData};

use adf_block::layout::{BOOT_BLOCKS, DATA_TYPE, OWN_KEY, PRIMARY_TYPE, SEQUENCE};
use adf_block::{Format, Image};
use std::alloc::{AllocError, Global};

/// A block of a file by what it says: in OFS a data block, in FFS an extension block.
#[derive(Clone, Copy, PartialEq, Eq, PartialOrd, Ord)]
pub(crate) struct Part {
    /// The block number of the header.
    pub(crate) header: u32,
    /// Which of the file's data blocks or extension blocks it is, from 1.
    pub(crate) number: u32,
    pub(crate) block: u32,
}

/// The OFS data blocks with right checksums, by header, number and block.
pub(crate) fn numbered_blocks(alloc: Global, image: &Image) -> Result<Vec<Part>, AllocError> {
    let mut parts = Vec::new(alloc);
    for block in BOOT_BLOCKS..image.blocks() {
        let (header, number) = (image.long(block, OWN_KEY), image.long(block, SEQUENCE));
        if number > 0 && is_loose_data(image, header, block) {
            parts.push(Part {
                header,
                number,
                block,
            })?;
        }
    }
    parts.sort_unstable();
    Ok(parts)
}

/// Whether a block is an OFS data block with a right checksum that names this header.
pub(crate) fn is_loose_data(image: &Image, header: u32, block: u32) -> bool
    ensures { IsTrue result → IsLooseData image.now header block }
{
    image.format() == Format::Ofs
        && block >= BOOT_BLOCKS
        && block < image.blocks()
        && image.long(block, PRIMARY_TYPE) == DATA_TYPE
        && image.long(block, OWN_KEY) == header
        && image.sum(block) == 0
}
