//! The blocks that a check reads: those of an image, or of a sketch.

ghost use Rattle.std.specs.Prelude.{◌≡◌, ◌≢◌, ◌<◌, ◌*◌, ◌/◌, ◌≤◌, ◌↔◌, IsTrue, length, MatchBool, true, false};
ghost use Rattle.adf_block.specs.declared.layout.TheConstants.{BLOCK_BYTES, BLOCK_LONGS};
ghost use Rattle.adf_block.specs.Whole.{IsImage, IsSize, text_at};
ghost use Rattle.adf_block.specs.Image.{block_count, block_sum, byte_at, long, root_key};
ghost use Rattle.ados_name.specs.declared.name.TheConstants.Name as names;
ghost use Rattle.ados_model.specs.Faults.{HasShortName, InImage};
ghost use Rattle.ados_check.specs.PlacesTold.{TellsAll};
ghost use Rattle.ados_check.specs.Source.{Tells};

use crate::sketch::Sketch;
use adf_block::Image;
use adf_block::beside::KIND_BYTE;
use adf_block::layout::{BOOT_BLOCKS, FEWEST_BLOCKS, NAME_BYTE};
use std::marker::Model;

/// What the blocks are read from.
#[derive(Drop)]
pub(crate) enum Kept<'a> {
    Whole(&'a Image),
    Sketch(&'a Sketch),
}

/// An image, or a sketch of it. Contracts see the image's bytes, and whether all of them are available.
#[derive(Drop)]
pub struct Source<'a> {
    kept: Kept<'a>,
}

impl<'a> Model for Source<'a> {
    ghost use Rattle.ados_check.specs.Source.{SourceView};
    ghost use Rattle.ados_check.specs.Kept.{seen};
    ghost use Rattle.adf_block.specs.Whole.{IsImage};

    ghost Value = { SourceView };

    ghost view = { λ s. seen s.kept };

    ghost invariant = { λ s. IsImage (seen s.kept).bytes };
}

impl<'a> Source<'a> {
    /// A whole image.
    pub fn whole(image: &'a Image) -> Source<'a>
        ensures { result ≡ record { bytes = image.now; whole = true } }
    {
        prove!(image.blocks() >= FEWEST_BLOCKS);
        Source {
            kept: Kept::Whole(image),
        }
    }

    /// A sketch of a whole image.
    pub fn sketch(sketch: &'a Sketch) -> Source<'a>
        requires { IsSize (block_count sketch.now) }
        ensures { result ≡ record { bytes = sketch.now; whole = false } }
    {
        prove!(sketch.blocks() >= FEWEST_BLOCKS);
        Source {
            kept: Kept::Sketch(sketch),
        }
    }

    /// The number of blocks.
    pub fn blocks(&self) -> u32
        ensures count { result ≡ block_count self.now.bytes }
        ensures size { IsSize result }
        ensures whole { length self.now.bytes ≡ BLOCK_BYTES * result }
        ensures image { IsImage self.now.bytes }
    {
        match &self.kept {
            Kept::Whole(image) => image.blocks(),
            Kept::Sketch(sketch) => sketch.blocks(),
        }
    }

    /// The block number of the root, in the middle of the volume.
    pub fn root(&self) -> u32
        ensures { result ≡ root_key (block_count self.now.bytes) }
    {
        (self.blocks() + 1) / 2
    }

    /// Whether the block is inside the image, after the boot blocks.
    pub fn contains(&self, b: u32) -> bool
        ensures { IsTrue result ↔ InImage self.now.bytes b }
    {
        BOOT_BLOCKS <= b && b < self.blocks()
    }

    /// The byte after `DOS`: 0 is the old file system, 1 the fast one.
    pub fn kind_byte(&self) -> u8
        ensures { result ≡ byte_at self.now.bytes 0 KIND_BYTE }
    {
        prove!(self.blocks() >= FEWEST_BLOCKS);
        match &self.kept {
            Kept::Whole(image) => image.byte(0, KIND_BYTE),
            Kept::Sketch(sketch) => sketch.boot()[3],
        }
    }

    /// Whether the longs of block `b` add up to 0 modulo 2^32: then its checksum is right.
    pub fn has_sum(&self, b: u32) -> bool
        requires { b < block_count self.now.bytes }
        ensures { MatchBool result (block_sum self.now.bytes b ≡ 0) (block_sum self.now.bytes b ≢ 0) }
    {
        match &self.kept {
            Kept::Whole(image) => image.sum(b) == 0,
            Kept::Sketch(sketch) => sketch.has_sum(b),
        }
    }

    /// Long `i` of block `b`, big-endian. `i` is 0 to 127.
    pub fn long(&self, b: u32, i: u32) -> u32
        requires block { b < block_count self.now.bytes }
        requires place { i < BLOCK_LONGS }
        requires told { Tells self.now b i }
        ensures { result ≡ long self.now.bytes b i }
    {
        match &self.kept {
            Kept::Whole(image) => image.long(b, i),
            Kept::Sketch(sketch) => sketch.long(b, i),
        }
    }

    /// Byte `i` of block `b`. `i` is 0 to 511.
    pub fn byte(&self, b: u32, i: u32) -> u8
        requires block { b < block_count self.now.bytes }
        requires place { i < BLOCK_BYTES }
        requires told { Tells self.now b (i / 4) }
        ensures { result ≡ byte_at self.now.bytes b i }
    {
        match &self.kept {
            Kept::Whole(image) => image.byte(b, i),
            Kept::Sketch(sketch) => sketch.byte(b, i),
        }
    }

    /// The bytes of the name in block `b`, which has at most 30.
    pub(crate) fn short_text(&self, b: u32) -> &[u8]
        requires inside { b < block_count self.now.bytes }
        requires told { TellsAll self.now b }
        requires short { HasShortName self.now.bytes b }
        ensures text { result.now ≡ text_at self.now.bytes b NAME_BYTE }
        ensures short { HasShortName self.now.bytes b }
        ensures few { length result.now ≤ names.MAX_LEN }
    {
        let length = usize::from(self.byte(b, NAME_BYTE));
        let start = NAME_BYTE as usize + 1;
        match &self.kept {
            Kept::Whole(image) => &image.block(b)[start..start + length],
            Kept::Sketch(sketch) => &sketch.block(b)[start..start + length],
        }
    }
}
