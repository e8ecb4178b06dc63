//! The bitmap blocks of an image, kept while a new bitmap is written.
ghost use Rattle.std.specs.Prelude.{◌≡◌, ◌<◌, IfOk};
ghost use Rattle.adf_block.specs.declared.layout.TheConstants.{BLOCK_LONGS};
ghost use Rattle.adf_block.specs.Image.{IsInside, block_count, block_sum, has_free_bit, long};
ghost use Rattle.adf_block.specs.Whole.{IsImage};
ghost use Rattle.ados_map.specs.Pages.{LawfulPages, page_block, pages_of};

use adf_block::layout::{
    BLOCK_LONGS, BOOT_BLOCKS, FIRST_MAP_LONG, FIRST_PAGE, LONG_BITS, MOST_BLOCKS, PAGE_BITS,
};
use adf_block::{Image, page_count};
use std::alloc::{AllocError, Global};
use std::marker::Model;
use std::snapshot::Snapshot;

/// The bitmap blocks of an image, as they were. They take some kilobytes, where a copy of the image takes up to 50 megabytes.
///
/// Contracts see the image that they are of.
#[derive(Drop)]
pub(crate) struct OldBitmap {
    /// The longs of all bitmap blocks, one block after the other.
    longs: Vec<u32>,
    image: Snapshot<Image>,
}

impl Model for OldBitmap {
    ghost use Rattle.std.specs.Prelude.{List, ℕ};
    ghost use Rattle.ados_validate.specs.steps.Kept.{AreKeptLongs};

    ghost Value = { List ℕ };

    ghost view = { λ old. old.image.value };

    ghost invariant = { λ old. AreKeptLongs old.image.value old.longs.items };
}

impl OldBitmap {
    /// Those of an image.
    pub(crate) fn of(alloc: Global, image: &Image) -> Result<OldBitmap, AllocError>
        requires { LawfulPages image.now }
        ensures { IfOk result (λ old. old ≡ image.now) }
    {
        prove!(image.blocks() <= MOST_BLOCKS);
        let mut longs = Vec::new(alloc);
        for k in 0..BLOCK_LONGS * page_count(image.blocks()) {
            let page = image.long(image.root(), FIRST_PAGE + k / BLOCK_LONGS);
            longs.push(image.long(page, k % BLOCK_LONGS))?;
        }
        Ok(OldBitmap {
            longs,
            image: Snapshot::of(image),
        })
    }

    /// The number of bitmap blocks.
    pub(crate) fn pages(&self) -> u32
        ensures pages { result ≡ pages_of self.now }
        ensures image { IsImage self.now }
    {
        self.longs.len() as u32 / BLOCK_LONGS
    }

    /// Long `i` of bitmap block `p`, from 0.
    pub(crate) fn long(&self, p: u32, i: u32) -> u32
        requires page { p < pages_of self.now }
        requires place { i < BLOCK_LONGS }
        ensures { result ≡ long self.now (page_block self.now p) i }
    {
        self.longs[(BLOCK_LONGS * p + i) as usize]
    }

    /// The sum of the longs of bitmap block `p`, modulo 2^32.
    pub(crate) fn sum(&self, p: u32) -> u32
        requires { p < pages_of self.now }
        ensures { result ≡ block_sum self.now (page_block self.now p) }
    {
        let mut sum = 0_u32;
        for i in 0..BLOCK_LONGS {
            sum = sum.wrapping_add(self.long(p, i));
        }
        sum
    }

    /// Whether a block was marked free.
    pub(crate) fn is_free(&self, block: u32) -> bool
        requires { IsInside (block_count self.now) block }
        ensures { result ≡ has_free_bit self.now block }
    {
        let bit = block - BOOT_BLOCKS;
        let bits = self.long(
            bit / PAGE_BITS,
            FIRST_MAP_LONG + bit % PAGE_BITS / LONG_BITS,
        );
        bits & (1 << (bit % LONG_BITS)) != 0
    }
}
