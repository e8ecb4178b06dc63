//! The blocks of a handle's image that C has to write: those that differ from its own copy.

ghost use Rattle.std.specs.Prelude.{◌≡◌, ◌<◌, length, IfOk};
ghost use Rattle.adf_block.specs.Image.{block_count};
ghost use Rattle.adf_c.specs.Changed.{ChangedComes, ChangedEnds, TakingComes, changed_blocks as changed_of, differs as differs_in};

use crate::handle::{Holder, JipHandle};
use crate::values::Refusal;
use adf_block::Image;
use adf_block::layout::BLOCK_BYTES;
use std::alloc::{AllocError, Global};

/// Bytes in a block.
const BLOCK: usize = BLOCK_BYTES as usize;

/// Lists the blocks of the image that differ from C's copy, lowest first, and updates the copy. The status is 0.
///
/// Status 3: the copy has another length than the image, there is no room for all numbers, or the handle is closed.
/// Status 2: out of memory. In these cases the copy, the numbers and their count are unchanged.
#[unsafe(no_mangle)]
pub extern "C" fn jip_lib_copy_changed(
    alloc: Global,
    handle: &mut JipHandle,
    copy: &mut [u8],
    numbers: &mut [u32],
    count: &mut usize,
) -> i32
    ensures copies { ChangedEnds handle.old.held copy.old copy.new numbers.old numbers.new count.old count.new result }
    ensures same { handle.new.held ≡ handle.old.held }
{
    match copy_changed(alloc, handle, copy, numbers) {
        Ok(told) => {
            *count = told;
            0
        }
        Err(refusal) => refusal.number(),
    }
}

fn copy_changed(
    alloc: Global,
    handle: &mut JipHandle,
    copy: &mut [u8],
    numbers: &mut [u32],
) -> Result<usize, Refusal>
    ensures copies { ChangedComes handle.old.held copy.old copy.new numbers.old numbers.new result }
    ensures same { handle.new.held ≡ handle.old.held }
{
    let Some(desk) = handle.take(alloc) else {
        return Err(Refusal::WrongArgument);
    };
    let outcome = take_over(alloc, desk.handler.volume().image(), copy, numbers);
    handle.put(desk);
    outcome
}

/// Updates the copy, and lists the blocks that differed.
fn take_over(
    alloc: Global,
    image: &Image,
    copy: &mut [u8],
    numbers: &mut [u32],
) -> Result<usize, Refusal>
    ensures { TakingComes image.now copy.old copy.new numbers.old numbers.new result }
{
    if copy.len() != image.as_bytes().len() {
        return Err(Refusal::WrongArgument);
    }
    let Ok(changed) = changed_blocks(alloc, copy, image) else {
        return Err(Refusal::NoMemory);
    };
    if numbers.len() < changed.len() {
        return Err(Refusal::WrongArgument);
    }
    numbers[..changed.len()].copy_from_slice(&changed);
    copy.copy_from_slice(image.as_bytes());
    Ok(changed.len())
}

/// The numbers of the blocks that differ from a copy of the same length.
fn changed_blocks(alloc: Global, copy: &[u8], image: &Image) -> Result<Vec<u32>, AllocError>
    requires { length copy.now ≡ length image.now }
    ensures { IfOk result (λ numbers. numbers.items ≡ changed_of copy.now image.now) }
{
    let mut numbers = Vec::new(alloc);
    for block in 0..image.blocks() {
        if differs(copy, image, block) {
            numbers.push(block)?;
        }
    }
    Ok(numbers)
}

#[tactic(auto, unfolding(adf_block::specs::Image::bytes_at))]
fn differs(copy: &[u8], image: &Image, block: u32) -> bool
    requires block { block < block_count image.now }
    requires length { length copy.now ≡ length image.now }
    ensures { result ≡ differs_in copy.now image.now block }
{
    let at = block as usize * BLOCK;
    &copy[at..at + BLOCK] != image.block(block)
}
