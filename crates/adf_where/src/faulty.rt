//! Blocks of an image that may be refused, with the places that name them and with their faults.
ghost use Rattle.std.specs.Prelude.{◌≡◌, ◌<◌, ◌==◌, ℕ, List, All, AllPairs, Contains, IfOk, MatchBool, filter};
ghost use Rattle.std.specs.List.{AllZip};
ghost use Rattle.std.specs.List.Sorted.{IsStrictlyIncreasing};
ghost use Rattle.adf_block.specs.Image.{block_count};
ghost use Rattle.ados_faults.specs.Listed.{StandsBefore};
ghost use Rattle.ados_census.specs.Places.{AreAllPlaces};
ghost use Rattle.adf_where.specs.Faulty.{AreFound, IsFaultyBlock};
ghost use Rattle.adf_where.specs.FaultyMap.{ShowsAt};
ghost use Rattle.adf_where.specs.steps.Asked.{AreAllPlacesOfEach, AreAsked};

use crate::unread::unread_of;
use adf_block::Image;
use ados_census::{Place, places_of, reached_blocks, take_census};
use ados_model::VolumeFault;
use std::alloc::{AllocError, Global};

/// A block with the places that name it and with its faults.
#[derive(Clone, Copy)]
pub(crate) struct FaultyBlock<'a> {
    pub(crate) block: u32,
    pub(crate) is_root: bool,
    pub(crate) places: &'a [Place],
    pub(crate) faults: &'a [VolumeFault],
    /// Whether it could not be read, if that is asked.
    pub(crate) unread: Option<bool>,
}

/// The blocks that are asked for, in order, each once, and for each of them the places that name it.
#[derive(Drop)]
pub(crate) struct AskedBlocks {
    asked: Vec<u32>,
    lists: Vec<Vec<Place>>,
}

impl AskedBlocks {
    /// All places that name these blocks.
    pub(crate) fn of(
        alloc: Global,
        image: &Image,
        blocks: &[u32],
    ) -> Result<AskedBlocks, AllocError>
        requires { All (λ block. block < block_count image.now) blocks.now }
        ensures { IfOk result (λ asked. AreAsked image.now blocks.now asked) }
    {
        let asked = in_order(alloc, blocks)?;
        let lists = lists_of_places(alloc, image, &asked)?;
        Ok(AskedBlocks { asked, lists })
    }

    /// The places that name a block that is asked for.
    fn places(&self, block: u32) -> &[Place]
        ensures { (image blocks : List ℕ) → AreAsked image blocks self.now → Contains blocks block → AreAllPlaces image block result.now }
    {
        match self.asked.binary_search(&block) {
            Ok(at) => match self.lists.get(at) {
                Some(places) => places.as_slice(),
                None => &[],
            },
            Err(_) => &[],
        }
    }
}

/// These blocks in order, each once.
fn in_order(alloc: Global, blocks: &[u32]) -> Result<Vec<u32>, AllocError>
    ensures increasing { IfOk result (λ asked. IsStrictlyIncreasing asked.items) }
    ensures all { IfOk result (λ asked. All (Contains asked.items) blocks.now) }
    ensures inside { IfOk result (λ asked. (n : ℕ) → All (λ block. block < n) blocks.now → All (λ block. block < n) asked.items) }
{
    let mut asked = Vec::from_slice(alloc, blocks)?;
    asked.sort_unstable();
    asked.dedup();
    Ok(asked)
}

/// For each of these blocks, all places that name it.
fn lists_of_places(
    alloc: Global,
    image: &Image,
    blocks: &[u32],
) -> Result<Vec<Vec<Place>>, AllocError>
    requires { All (λ block. block < block_count image.now) blocks.now }
    ensures { IfOk result (AreAllPlacesOfEach image.now blocks.now) }
{
    let census = take_census(alloc, image)?;
    let reached = reached_blocks(alloc, image)?;
    let mut lists = Vec::new(alloc);
    for block in blocks {
        lists.push(places_of(alloc, &census, &reached, *block)?)?;
    }
    Ok(lists)
}

/// These blocks with the places that name them and with their faults.
pub(crate) fn faulty_blocks<'a>(
    alloc: Global,
    image: &Image,
    asked: &'a AskedBlocks,
    faults: &'a [VolumeFault],
    unread: &[bool],
    blocks: &[u32],
) -> Result<Vec<FaultyBlock<'a>>, AllocError>
    requires asked { AreAsked image.now blocks.now asked.now }
    requires found { AreFound image.now faults.now }
    ensures { IfOk result (λ told. AllZip (IsFaultyBlock image.now unread.now) blocks.now told.items) }
{
    let mut told = Vec::new(alloc);
    for block in blocks {
        told.push(faulty_block(image, asked, faults, unread, *block))?;
    }
    Ok(told)
}

/// A block that is asked for, with the places that name it and with its faults.
fn faulty_block<'a>(
    image: &Image,
    asked: &'a AskedBlocks,
    faults: &'a [VolumeFault],
    unread: &[bool],
    block: u32,
) -> FaultyBlock<'a>
    requires { AreFound image.now faults.now }
    ensures { (blocks : List ℕ) → AreAsked image.now blocks asked.now → Contains blocks block → IsFaultyBlock image.now unread.now block result }
{
    FaultyBlock {
        block,
        is_root: block == image.root(),
        places: asked.places(block),
        faults: faults_at(faults, block),
        unread: unread_of(unread, block as usize),
    }
}

/// Whether a block shows one of these faults.
pub(crate) fn shows_fault(faults: &[VolumeFault], block: u32) -> bool
    requires { AllPairs StandsBefore faults.now }
    ensures { (image : List ℕ) → AreFound image faults.now → MatchBool result (ShowsAt image block) (¬ ShowsAt image block) }
{
    !faults_at(faults, block).is_empty()
}

/// The faults of a block, among faults in order.
fn faults_at(faults: &[VolumeFault], block: u32) -> &[VolumeFault]
    requires { AllPairs StandsBefore faults.now }
    ensures { result.now ≡ filter (λ fault. fault.block == block) faults.now }
{
    let first = faults.partition_point(|fault| fault.block < block);
    let end = faults.partition_point(|fault| fault.block <= block);
    prove!(first <= end);
    &faults[first..end]
}
