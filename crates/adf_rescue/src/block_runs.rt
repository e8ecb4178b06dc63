//! Runs of consecutive blocks.
ghost use Rattle.std.specs.Prelude.{◌≡◌, ◌<◌, ◌+◌, ◌==◌, ◌++◌, AllPairs, IfOk, OnOk};
ghost use Rattle.adf_block.specs.Image.{block_count};
ghost use Rattle.adf_rescue.specs.BlockRuns.{AreBlockRuns, run_bytes};
ghost use Rattle.adf_rescue.specs.steps.Running.{runs, runs_from};

use adf_block::Image;
use adf_block::layout::MOST_BLOCKS;
use std::alloc::{AllocError, Global};

/// A run of consecutive blocks.
#[derive(Clone, Copy)]
pub struct BlockRun {
    pub first: u32,
    pub last: u32,
}

/// The runs of blocks, each as long as it can be.
pub(crate) fn runs_of(alloc: Global, blocks: &[u32]) -> Result<Vec<BlockRun>, AllocError>
    requires { AllPairs (λ a b. a < b) blocks.now }
    ensures { IfOk result (λ runs. AreBlockRuns blocks.now runs.items) }
{
    all_runs(alloc, blocks)
}

/// The runs of blocks, one after the other.
fn all_runs(alloc: Global, blocks: &[u32]) -> Result<Vec<BlockRun>, AllocError>
    ensures { IfOk result (λ found. found.items ≡ runs blocks.now) }
{
    let mut runs = Vec::new(alloc);
    let Some((first, rest)) = blocks.split_first() else {
        return Ok(runs);
    };
    push_runs(&mut runs, *first, rest)?;
    Ok(runs)
}

/// Appends the runs of blocks: this one and those behind it.
fn push_runs(runs: &mut Vec<BlockRun>, block: u32, rest: &[u32]) -> Result<(), AllocError>
    ensures { OnOk result (runs.new.items ≡ runs.old.items ++ runs_from block block rest.now) }
{
    let (mut first, mut last) = (block, block);
    for next in rest {
        if !follows(*next, last) {
            let run = BlockRun { first, last };
            runs.push(run)?;
            first = *next;
        }
        last = *next;
    }
    runs.push(BlockRun { first, last })?;
    Ok(())
}

/// Whether a block is the next one.
fn follows(next: u32, last: u32) -> bool
    ensures { result ≡ next == last + 1 }
{
    next > last && next - last == 1
}

/// The bytes of the blocks of a run; none if it does not end inside the image.
pub(crate) fn run_bytes(alloc: Global, image: &Image, run: BlockRun) -> Result<Vec<u8>, AllocError>
    ensures { IfOk result (λ bytes. run.last < block_count image.now → bytes.items ≡ run_bytes image.now run) }
{
    let mut bytes = Vec::new(alloc);
    if run.last >= image.blocks() {
        return Ok(bytes);
    }
    prove!(image.blocks() <= MOST_BLOCKS);
    for block in run.first..run.last + 1 {
        bytes.extend_from_slice(image.block(block))?;
    }
    Ok(bytes)
}
