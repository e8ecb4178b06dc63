//! Blocks inside the image, and those that its bitmap marks free.
ghost use Rattle.std.specs.Prelude.{◌↔◌, IsTrue};
ghost use Rattle.ados_model.specs.Faults.{InImage};
ghost use Rattle.ados_faults.specs.steps.Walked.{IsMarkedFree};

use adf_block::Image;
use adf_block::layout::BOOT_BLOCKS;
use ados_check::{Source, has_valid_bitmap, is_free};

/// Whether the bitmap is valid, the bitmap block with the block's bit is inside the image, and the bit says that the
/// block is free.
pub(crate) fn is_marked_free(image: &Image, block: u32) -> bool
    requires { InImage image.now block }
    ensures { IsTrue result ↔ IsMarkedFree image.now block }
{
    let source = Source::whole(image);
    has_valid_bitmap(&source) && is_free(&source, block)
}

/// Whether the block is inside the image, after the boot blocks.
pub(crate) fn is_inside(image: &Image, block: u32) -> bool
    ensures { IsTrue result ↔ InImage image.now block }
{
    BOOT_BLOCKS <= block && block < image.blocks()
}
