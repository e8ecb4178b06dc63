//! A sketch of an image: only the bytes that its check needs.

ghost use Rattle.std.specs.Prelude.{◌≡◌, ◌≢◌, ◌<◌, ◌≤◌, ◌+◌, ◌-◌, ◌*◌, ◌/◌, ◌%◌, ◌++◌, [], ℕ, List, length, drop, IfOk, MatchBool};
ghost use Rattle.byteorder.specs.Endian.{big_number};
ghost use Rattle.adf_block.specs.Whole.{IsImage, IsSize};
ghost use Rattle.adf_block.specs.Image.{block_count, block_sum, bytes_at, byte_at, long};
ghost use Rattle.ados_check.specs.Source.{IsKept};
ghost use Rattle.ados_check.specs.Keeping.{AreKept, kept_length};

use crate::room::whole_pages;
use adf_block::layout::{BLOCK_BYTES, BLOCK_LONGS, DATA_TYPE, OFS_DATA_BYTE};
use byteorder::{BigEndian, ByteOrder};
use std::alloc::{AllocError, Global};
use std::marker::Model;
use std::snapshot::Snapshot;

/// Bytes in a block.
const BLOCK: usize = BLOCK_BYTES as usize;

/// Bytes of an OFS data block before its data.
const DATA_HEADER: usize = OFS_DATA_BYTE as usize;

/// The smallest image, in bytes, whose sketch fills huge pages. The sketch of a smaller image may use less than one.
const LARGE: usize = 16_777_216;

/// The pieces that a sketch was made from. None of their bytes are kept.
#[derive(Drop)]
pub(crate) enum Pieces {
    Start,
    Then(Snapshot<Vec<u8>>, Snapshot<Pieces>),
}

/// The blocks of an image, added one after the other.
///
/// Of an OFS data block it keeps the header, of any other block with a right checksum all 512 bytes. Of the rest it
/// keeps only that the checksum is wrong. Contracts see the list of the image's bytes.
#[derive(Drop)]
pub struct Sketch {
    /// The first four bytes of the image.
    boot: [u8; 4],
    /// For each block, the start of its bytes in `kept`.
    starts: Vec<Option<u32>>,
    kept: Vec<u8>,
    pieces: Snapshot<Pieces>,
}

impl Model for Sketch {
    ghost use Rattle.std.specs.Prelude.{List, ℕ};
    ghost use Rattle.ados_check.specs.Keeping.{AreKept, HasBoot};
    ghost use Rattle.ados_check.specs.Pieces.{all_bytes};

    ghost Value = { List ℕ };

    ghost view = { λ s. all_bytes s.pieces.value };

    ghost invariant = { λ s. AreKept s.starts.items s.kept.items (all_bytes s.pieces.value) × HasBoot s.boot (all_bytes s.pieces.value) };
}

impl Sketch {
    /// An empty sketch with room for `blocks` blocks. All room is allocated at once, but its memory is used only as it
    /// fills.
    pub fn new(alloc: Global, blocks: u32) -> Result<Sketch, AllocError>
        ensures { IfOk result (λ sketch. sketch ≡ []) }
    {
        let start = Pieces::Start;
        Ok(Sketch {
            boot: [0; 4],
            starts: Vec::with_capacity(alloc, blocks as usize)?,
            kept: Vec::with_capacity(alloc, whole_pages(blocks as usize * BLOCK, LARGE))?,
            pieces: Snapshot::of(&start),
        })
    }

    /// Adds a piece of whole blocks.
    pub fn with(self, piece: &Vec<u8>) -> Result<Sketch, AllocError>
        requires some { BLOCK_BYTES ≤ length piece.now.items }
        requires blocks { length piece.now.items % BLOCK_BYTES ≡ 0 }
        requires room { length self + length piece.now.items ≤ 52020224 }
        ensures { IfOk result (λ sketch. sketch ≡ self ++ piece.now.items) }
    {
        let Sketch {
            mut boot,
            mut starts,
            mut kept,
            pieces,
        } = self;
        if starts.is_empty() {
            boot = [piece[0], piece[1], piece[2], piece[3]];
        }
        for place in 0..piece.len() / BLOCK {
            keep(
                &mut starts,
                &mut kept,
                &piece[place * BLOCK..(place + 1) * BLOCK],
            )?;
        }
        let more = Pieces::Then(Snapshot::of(piece), pieces);
        Ok(Sketch {
            boot,
            starts,
            kept,
            pieces: Snapshot::of(&more),
        })
    }

    /// The first four bytes: the DOS type of the disk.
    pub fn boot(&self) -> [u8; 4]
        requires { BLOCK_BYTES ≤ length self.now }
        ensures { result ≡ bytes_at self.now 0 0 4 }
    {
        self.boot
    }

    /// The number of blocks.
    pub fn blocks(&self) -> u32
        requires { IsSize (block_count self.now) }
        ensures count { result ≡ block_count self.now }
        ensures size { IsSize result }
        ensures whole { length self.now ≡ BLOCK_BYTES * result }
        ensures image { IsImage self.now }
    {
        self.starts.len() as u32
    }

    /// Whether the longs of block `b` add up to 0 modulo 2^32.
    pub(crate) fn has_sum(&self, b: u32) -> bool
        requires { b < block_count self.now }
        ensures { MatchBool result (block_sum self.now b ≡ 0) (block_sum self.now b ≢ 0) }
    {
        self.starts[b as usize].is_some()
    }

    /// Long `i` of block `b`, big-endian.
    pub(crate) fn long(&self, b: u32, i: u32) -> u32
        requires block { b < block_count self.now }
        requires place { i < BLOCK_LONGS }
        requires kept { IsKept self.now b i }
        ensures { result ≡ long self.now b i }
    {
        match self.starts[b as usize] {
            Some(start) => read_long(&self.kept, start as usize + 4 * i as usize),
            None => unreachable!(),
        }
    }

    /// Byte `i` of block `b`.
    pub(crate) fn byte(&self, b: u32, i: u32) -> u8
        requires block { b < block_count self.now }
        requires place { i < BLOCK_BYTES }
        requires kept { IsKept self.now b (i / 4) }
        ensures { result ≡ byte_at self.now b i }
    {
        match self.starts[b as usize] {
            Some(start) => self.kept[start as usize + i as usize],
            None => unreachable!(),
        }
    }

    /// The 512 bytes of block `b`.
    pub(crate) fn block(&self, b: u32) -> &[u8]
        requires inside { b < block_count self.now }
        requires kept { IsKept self.now b (BLOCK_LONGS - 1) }
        ensures bytes { result.now ≡ bytes_at self.now b 0 BLOCK_BYTES }
        ensures length { length result.now ≡ BLOCK_BYTES }
    {
        match self.starts[b as usize] {
            Some(start) => &self.kept[start as usize..start as usize + BLOCK],
            None => unreachable!(),
        }
    }
}

/// Adds a block, and keeps the bytes that the check needs.
fn keep(starts: &mut Vec<Option<u32>>, kept: &mut Vec<u8>, block: &[u8]) -> Result<(), AllocError>
    requires size { length block.now ≡ BLOCK_BYTES }
    requires few { length starts.old.items < 101602 }
    requires room { length kept.old.items ≤ BLOCK_BYTES * length starts.old.items }
    ensures { IfOk result (λ _. (image : List ℕ) → AreKept starts.old.items kept.old.items image → AreKept starts.new.items kept.new.items (image ++ block.now)) }
{
    if sum(block) != 0 {
        starts.push(None)?;
        return Ok(());
    }
    starts.push(Some(kept.len() as u32))?;
    kept.extend_from_slice(&block[..kept_of(block)])?;
    Ok(())
}

/// The number of bytes kept of a block with a right checksum.
fn kept_of(block: &[u8]) -> usize
    requires { length block.now ≡ BLOCK_BYTES }
    ensures { result ≡ kept_length block.now 0 }
{
    if read_long(block, 0) == DATA_TYPE {
        DATA_HEADER
    } else {
        BLOCK
    }
}

/// The sum of the longs of a block, modulo 2^32.
fn sum(block: &[u8]) -> u32
    requires { length block.now ≡ BLOCK_BYTES }
    ensures { result ≡ block_sum block.now 0 }
{
    let mut sum = 0_u32;
    for i in 0..BLOCK_LONGS as usize {
        sum = sum.wrapping_add(read_long(block, 4 * i));
    }
    sum
}

/// The long that starts at byte `at`.
fn read_long(bytes: &[u8], at: usize) -> u32
    requires { at + 4 ≤ length bytes.now }
    ensures { result ≡ big_number 4 (drop at bytes.now) }
{
    BigEndian::read_u32(&bytes[at..])
}
