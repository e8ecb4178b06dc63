//! The entries to which the root leads.
ghost use Rattle.std.specs.Prelude.{IfOk};
ghost use Rattle.ados_salvage.specs.Found.{AreEntries};

use adf_block::Image;
use ados_census::reached_blocks;
use std::alloc::{AllocError, Global};

/// The entries to which the root leads, in order, whatever faults the image shows.
pub fn reached_entries(alloc: Global, image: &Image) -> Result<Vec<u32>, AllocError>
    ensures { IfOk result (λ entries. AreEntries image.now entries.items) }
{
    prove!(image.blocks() >= 16);
    let reached = reached_blocks(alloc, image)?;
    let mut entries = Vec::new(alloc);
    for block in 0..image.blocks() {
        if reached.has_entry(block) {
            entries.push(block)?;
        }
    }
    Ok(entries)
}
