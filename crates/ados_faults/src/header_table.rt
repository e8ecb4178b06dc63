//! What each block says as a header or extension block.
ghost use Rattle.std.specs.Prelude.{◌≡◌, ◌<◌, ◌≤◌, length, IfOk};
ghost use Rattle.adf_block.specs.Image.{block_count};
ghost use Rattle.adf_block.specs.declared.layout.TheConstants.{NEXT_EXTENSION};
ghost use Rattle.ados_model.specs.Faults.{IsOfs, pointers_of};
ghost use Rattle.ados_faults.specs.steps.FileNotes.{AreHeld, IsHeld};
ghost use Rattle.ados_faults.specs.steps.Longs.{AreOfEach, AreTabled};

use crate::bits::is_inside;
use crate::longs::long_of_each;
use adf_block::Image;
use adf_block::beside::KIND_BYTE;
use adf_block::layout::{
    FEWEST_BLOCKS, FIRST_POINTER, HELD, NEXT_EXTENSION, POINTER_COUNT, TABLE_LONGS,
};
use std::alloc::{AllocError, Global};

/// For each block what it says if it is a header or extension block. Files of a damaged image may share long chains, and
/// their blocks are read from these tables.
#[derive(Drop)]
pub(crate) struct HeaderTable {
    /// The next extension block.
    pub(crate) nexts: Vec<u32>,
    /// The number of data blocks in its pointers.
    pub(crate) counts: Vec<u32>,
    /// Its first pointer.
    pub(crate) firsts: Vec<u32>,
    /// In OFS the number of bytes that the data blocks in its pointers hold, if all are inside the image.
    pub(crate) held: Vec<Option<u64>>,
}

impl HeaderTable {
    /// Reads each block of an image.
    pub(crate) fn of(alloc: Global, image: &Image) -> Result<HeaderTable, AllocError>
        ensures table { IfOk result (λ table. AreTabled image.now table.nexts.items table.counts.items table.firsts.items) }
        ensures held { IfOk result (λ table. IsOfs image.now → AreHeld image.now table.held.items) }
    {
        let nexts = long_of_each(alloc, image, NEXT_EXTENSION)?;
        let counts = pointer_counts(alloc, image)?;
        let firsts = long_of_each(alloc, image, FIRST_POINTER)?;
        let held = held_in_ofs(alloc, image)?;
        Ok(HeaderTable {
            nexts,
            counts,
            firsts,
            held,
        })
    }
}

/// For each block the number of data blocks in its pointers.
fn pointer_counts(alloc: Global, image: &Image) -> Result<Vec<u32>, AllocError>
    ensures { IfOk result (λ counts. AreOfEach image.now (λ block. length (pointers_of image.now block)) counts.items) }
{
    let mut counts = Vec::new(alloc);
    for header in 0..image.blocks() {
        counts.push(pointers_in(image, header))?;
    }
    Ok(counts)
}

/// The number of data blocks in the pointers of a block; none if its count is more than 72.
fn pointers_in(image: &Image, header: u32) -> u32
    requires { header < block_count image.now }
    ensures count { result ≡ length (pointers_of image.now header) }
    ensures few { result ≤ TABLE_LONGS }
{
    let count = image.long(header, POINTER_COUNT);
    if count > TABLE_LONGS {
        return 0;
    }
    count
}

/// In OFS for each block the number of bytes that the data blocks in its pointers hold together, unless one of them is
/// outside the image. In FFS the list is empty.
fn held_in_ofs(alloc: Global, image: &Image) -> Result<Vec<Option<u64>>, AllocError>
    ensures { IfOk result (λ held. IsOfs image.now → AreHeld image.now held.items) }
{
    prove!(image.blocks() >= FEWEST_BLOCKS);
    let mut held = Vec::new(alloc);
    if image.byte(0, KIND_BYTE) != 0 {
        return Ok(held);
    }
    for header in 0..image.blocks() {
        held.push(held_by(image, header))?;
    }
    Ok(held)
}

/// The number of bytes that the data blocks in the pointers of a block hold together, unless one is outside the image.
fn held_by(image: &Image, header: u32) -> Option<u64>
    requires { header < block_count image.now }
    ensures { IsHeld image.now (pointers_of image.now header) result }
{
    let mut sum = 0_u64;
    for i in 0..pointers_in(image, header) {
        let block = image.long(header, FIRST_POINTER - i);
        if !is_inside(image, block) {
            return None;
        }
        sum = sum.saturating_add(u64::from(image.long(block, HELD)));
    }
    Some(sum)
}
