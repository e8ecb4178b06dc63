//! One long of each block, in a list. Links that are followed many times are read from it, and not from the image.
ghost use Rattle.std.specs.Prelude.{◌<◌, IfOk};
ghost use Rattle.adf_block.specs.declared.layout.TheConstants.{BLOCK_LONGS};
ghost use Rattle.ados_faults.specs.steps.Longs.{AreLongs};

use adf_block::Image;
use std::alloc::{AllocError, Global};

/// Lists long `i` of each block of an image.
pub(crate) fn long_of_each(alloc: Global, image: &Image, i: u32) -> Result<Vec<u32>, AllocError>
    requires { i < BLOCK_LONGS }
    ensures { IfOk result (λ longs. AreLongs image.now i longs.items) }
{
    let mut longs = Vec::new(alloc);
    for block in 0..image.blocks() {
        longs.push(image.long(block, i))?;
    }
    Ok(longs)
}
