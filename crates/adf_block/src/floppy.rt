//! The image: its bytes, blocks and longs.

ghost use Rattle.std.specs.Prelude.{◌≡◌, ◌<◌, ◌≤◌, ◌*◌, ◌+◌, ◌-◌, ◌/◌, ◌++◌, ◌⊎◌, ◌≢◌, ℕ, length, take, drop};
ghost use Rattle.std.specs.Prelude.{slice_index, IfOk, IfErr};
ghost use Rattle.std.specs.Borrow.{sem};
ghost use Rattle.byteorder.specs.Endian.{big_bytes};
ghost use Rattle.adf_block.specs.declared.layout.TheConstants.{BLOCK_LONGS};
ghost use Rattle.adf_block.specs.Whole.{IsImage, IsSize};
ghost use Rattle.adf_block.specs.Image.{block_count, bytes_at, byte_at, long, root_key};
ghost use Rattle.adf_block.specs.Frame.{OnlyLong};
ghost use Rattle.adf_block.specs.Size.{IsSizeFault};
ghost use Rattle.adf_block.specs.Lending.{LendsBlock};

use crate::layout::{BLOCK_BYTES, FEWEST_BLOCKS, MOST_BLOCKS};
use crate::volume_size::{SizeFault, SizeRefused};
use byteorder::{BigEndian, ByteOrder};
use std::marker::Model;

/// Bytes in a block.
const BLOCK: usize = BLOCK_BYTES as usize;

/// A whole image of 16 to 101,602 blocks. Its model is the list of its bytes.
#[derive(Drop)]
pub struct Image {
    bytes: Vec<u8>,
}

impl Model for Image {
    ghost use Rattle.std.specs.Prelude.{List, ℕ};
    ghost use Rattle.adf_block.specs.Whole.{IsWhole};

    ghost Value = { List ℕ };

    ghost view = { λ image. image.bytes.items };

    ghost invariant = { λ image. IsWhole image.bytes.items };
}

impl Image {
    /// Makes an image of these bytes. The length must be a multiple of 512 bytes, and 16 to 101,602 blocks. An error
    /// returns the bytes.
    pub fn from_bytes(bytes: Vec<u8>) -> Result<Image, SizeRefused>
        ensures ok { IfOk result (λ image. (image ≡ bytes.items) × IsImage image) }
        ensures err { IfErr result
            (λ refused. (refused.bytes ≡ bytes) × IsSizeFault (length bytes.items) refused.fault) }
    {
        if bytes.len() % BLOCK != 0 {
            return Err(SizeRefused {
                fault: SizeFault::NotWholeBlocks,
                bytes,
            });
        }
        let blocks = whole_blocks(&bytes);
        if blocks < FEWEST_BLOCKS as usize {
            return Err(SizeRefused {
                fault: SizeFault::TooFewBlocks,
                bytes,
            });
        }
        if blocks > MOST_BLOCKS as usize {
            return Err(SizeRefused {
                fault: SizeFault::TooManyBlocks,
                bytes,
            });
        }
        Ok(Image { bytes })
    }

    /// The number of blocks.
    pub fn blocks(&self) -> u32
        ensures count { result ≡ block_count self.now }
        ensures size { IsSize result }
        ensures whole { length self.now ≡ BLOCK_BYTES * result }
        ensures image { IsImage self.now }
    {
        whole_blocks(&self.bytes) as u32
    }

    /// The block number of the root, in the middle of the volume: 880 on a floppy of 1,760 blocks (AmigaDOS Technical
    /// Reference).
    pub fn root(&self) -> u32
        ensures { result ≡ root_key (block_count self.now) }
    {
        (self.blocks() + 1) / 2
    }

    /// Long `i` of block `b`, big-endian. `i` is 0 to 127.
    #[tactic(auto, unfolding(crate::specs::Image::long))]
    pub fn long(&self, b: u32, i: u32) -> u32
        requires block { b < block_count self.now }
        requires place { i < BLOCK_LONGS }
        ensures { result ≡ long self.now b i }
    {
        let at = b as usize * BLOCK + i as usize * 4;
        BigEndian::read_u32(&self.bytes[at..])
    }

    /// Writes `v` into long `i` of block `b`, big-endian.
    pub fn set_long(&mut self, b: u32, i: u32, v: u32)
        requires block { b < block_count self.old }
        requires place { i < BLOCK_LONGS }
        ensures long { long self.new b i ≡ v }
        ensures others { (c j : ℕ) → j < BLOCK_LONGS → (c ≢ b) ⊎ (j ≢ i) → long self.new c j ≡ long self.old c j }
        ensures rest { OnlyLong b i self.old self.new }
        ensures image { IsImage self.new }
    {
        let at = b as usize * BLOCK + i as usize * 4;
        BigEndian::write_u32(&mut self.bytes[at..], v);
    }

    /// Byte `i` of block `b`. `i` is 0 to 511.
    #[tactic(auto, unfolding(crate::specs::Image::byte_at))]
    pub fn byte(&self, b: u32, i: u32) -> u8
        requires block { b < block_count self.now }
        requires place { i < BLOCK_BYTES }
        ensures { result ≡ byte_at self.now b i }
    {
        self.bytes[b as usize * BLOCK + i as usize]
    }

    /// The 512 bytes of block `b`.
    pub fn block(&self, b: u32) -> &[u8]
        requires { b < block_count self.now }
        ensures bytes { result.now ≡ bytes_at self.now b 0 BLOCK_BYTES }
        ensures length { length result.now ≡ BLOCK_BYTES }
    {
        let at = b as usize * BLOCK;
        &self.bytes[at..at + BLOCK]
    }

    /// The 512 bytes of block `b`, borrowed for writing.
    pub fn block_mut(&mut self, b: u32) -> &mut [u8]
        requires { b < block_count self.old }
        ensures* writes_back { sem 𝓛 (LendsBlock self.entry b result) }
        ensures bytes { result.now ≡ bytes_at self.old b 0 BLOCK_BYTES }
        ensures length { length result.now ≡ BLOCK_BYTES }
    {
        let at = b as usize * BLOCK;
        self.bytes.slice_mut(at..at + BLOCK)
    }

    /// All bytes, in the order of the disk.
    pub fn as_bytes(&self) -> &[u8]
        ensures { result.now ≡ self.now }
    {
        &self.bytes
    }

    /// The bytes, in the order of the disk, without a copy.
    pub fn into_bytes(self) -> Vec<u8>
        ensures { result.items ≡ self }
    {
        self.bytes
    }
}

/// The number of whole blocks in these bytes.
fn whole_blocks(bytes: &[u8]) -> usize
    ensures count { result ≡ length bytes.now / BLOCK_BYTES }
    ensures bytes { (i : ℕ) → slice_index bytes.now i < 256 }
{
    bytes.len() / BLOCK
}
