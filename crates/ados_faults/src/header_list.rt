//! The header and extension blocks of a file, up to a chain that is known from other files.
ghost use Rattle.std.specs.Prelude.{◌≡◌, Bool, IfOk, List, length};
ghost use Rattle.adf_block.specs.Image.{block_count};
ghost use Rattle.ados_model.specs.Faults.{InImage};
ghost use Rattle.ados_faults.specs.steps.Blocks.{AreMet};
ghost use Rattle.ados_faults.specs.steps.Longs.{AreTabled};
ghost use Rattle.ados_faults.specs.steps.Tails.{AreTails, IsHeaderList};

use crate::bits::is_inside;
use crate::blocks::Blocks;
use crate::data_summary::{DataSummary, NO_DATA_BLOCKS};
use crate::header_table::HeaderTable;
use crate::tail::{Tail, known_tail};
use adf_block::Image;
use adf_block::layout::FEWEST_BLOCKS;
use std::alloc::{AllocError, Global};

/// The first header and extension blocks of a file, and what is known of the rest.
#[derive(Drop)]
pub(crate) struct HeaderList {
    /// All of them, or those before a chain that is known from other files.
    pub(crate) listed: Blocks,
    /// The number of data blocks in their pointers.
    pub(crate) count: u64,
    /// The data blocks in the pointers of the rest.
    pub(crate) rest: DataSummary,
    /// Whether the links end outside the image, and do not lead back.
    pub(crate) is_open: bool,
}

impl HeaderList {
    /// No header.
    pub(crate) fn none(alloc: Global, image: &Image) -> Result<HeaderList, AllocError>
        ensures { IfOk result (λ headers. AreMet image.now headers.listed.has.items headers.listed.list.items) }
    {
        let listed = Blocks::none(alloc, image)?;
        Ok(HeaderList {
            listed,
            count: 0,
            rest: NO_DATA_BLOCKS,
            is_open: false,
        })
    }

    /// Lists the header of a file and the blocks along its links, each once, up to a chain of which all is known.
    pub(crate) fn list(
        &mut self,
        image: &Image,
        file: u32,
        table: &HeaderTable,
        tails: &[Option<Tail>],
    ) -> Result<(), AllocError>
        requires inside { InImage image.now file }
        requires met { AreMet image.now self.old.listed.has.items self.old.listed.list.items }
        requires table { AreTabled image.now table.now.nexts.items table.now.counts.items table.now.firsts.items }
        requires size { length tails.now ≡ block_count image.now }
        ensures met { IfOk result (λ _. AreMet image.now self.new.listed.has.items self.new.listed.list.items) }
        ensures list { IfOk result (λ _. (cells : List Bool) → AreTails image.now cells tails.now → IsHeaderList image.now cells file self.new.listed.list.items self.new) }
    {
        prove!(image.blocks() >= FEWEST_BLOCKS);
        self.listed.clear(image);
        self.listed.add(image, file)?;
        self.count = u64::from(table.counts[file as usize]);
        self.rest = NO_DATA_BLOCKS;
        self.is_open = false;
        for passed in 0..image.blocks() {
            let last = self.listed.list[self.listed.list.len() - 1];
            let next = table.nexts[last as usize];
            if !is_inside(image, next) {
                self.is_open = true;
                return Ok(());
            }
            if let Some(tail) = known_tail(tails, next, self.count) {
                self.rest = tail.summary;
                self.is_open = true;
                return Ok(());
            }
            let is_new = self.listed.add(image, next)?;
            if !is_new {
                return Ok(());
            }
            self.count += u64::from(table.counts[next as usize]);
        }
        Ok(())
    }
}
