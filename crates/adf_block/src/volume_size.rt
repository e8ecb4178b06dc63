//! The sizes of a volume.

ghost use Rattle.std.specs.Prelude.{◌≡◌, ◌↔◌, IsTrue};
ghost use Rattle.adf_block.specs.Image.{page_count};
ghost use Rattle.adf_block.specs.Whole.{IsSize};

use crate::layout::{BLOCK_BYTES, BOOT_BLOCKS, FEWEST_BLOCKS, MOST_BLOCKS, PAGE_BITS};

/// The most bytes of an image.
pub const MOST_BYTES: usize = MOST_BLOCKS as usize * BLOCK_BYTES as usize;

/// Whether a volume may have this many blocks: 16 to 101,602. Both limits are this project's own. A root has to fit,
/// and the 25 bitmap pointers of a root have to cover all blocks.
pub fn size_ok(blocks: u32) -> bool
    ensures { IsTrue result ↔ IsSize blocks }
{
    FEWEST_BLOCKS <= blocks && blocks <= MOST_BLOCKS
}

/// The number of bitmap blocks in a volume of this many blocks. One bitmap block covers 4,064 blocks. The boot blocks
/// have no bit.
pub fn page_count(blocks: u32) -> u32
    requires { IsSize blocks }
    ensures { result ≡ page_count blocks }
{
    (blocks - BOOT_BLOCKS).div_ceil(PAGE_BITS)
}

/// Why bytes are no image. The faults are tested in this order.
#[derive(Clone, Copy, PartialEq, Eq)]
pub enum SizeFault {
    /// The length is no multiple of 512 bytes.
    NotWholeBlocks,
    /// There are fewer than 16 blocks.
    TooFewBlocks,
    /// There are more than 101,602 blocks.
    TooManyBlocks,
}

/// The first fault of a size, with the unchanged bytes.
#[derive(Drop)]
pub struct SizeRefused {
    pub fault: SizeFault,
    pub bytes: Vec<u8>,
}
