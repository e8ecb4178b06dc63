//! What can be trusted in an image.
ghost use Rattle.std.specs.Prelude.{◌≡◌, ◌<◌, length, IfOk};
ghost use Rattle.adf_block.specs.Image.{block_count};
ghost use Rattle.ados_model.specs.File.{LawfulFile, contents};
ghost use Rattle.ados_salvage.specs.declared.salvaged.Salvaged.{Salvaged as Entry};
ghost use Rattle.ados_salvage.specs.Saved.{HasBytes, IsAt, size_of};
ghost use Rattle.ados_salvage.specs.steps.Keeping.{IsKept};

use crate::giving::{BLOCK, Piece, data_start};
use crate::known::data_needed;
use crate::pieces::pieced;
use crate::salvaged::{Salvaged, State};
use adf_block::Image;
use adf_block::layout::{FILE_SIZE, FIRST_POINTER, NEXT_EXTENSION, TABLE_LONGS};
use std::alloc::{AllocError, Global};
use std::marker::Model;

/// What can be trusted in an image: its entries, and the bytes of their files when they are asked for.
///
/// Contracts see whether the image was accepted, the image as it was read, whether its bitmap is trusted, the entries, the
/// headers of the deleted entries, which are left out, the blocks given to files that are not whole, the marks of the holes, and
/// whether fillers count.
#[derive(Drop)]
pub struct Salvage {
    pub(crate) accepted: bool,
    pub(crate) image: Image,
    pub(crate) trusted: bool,
    pub(crate) entries: Vec<Salvaged>,
    pub(crate) deleted: Vec<u32>,
    pub(crate) pieces: Vec<Piece>,
    /// For each block, whether it is a hole. A block without a mark is none.
    pub(crate) holes: Vec<bool>,
    /// Whether a known filler in a data block counts against its file.
    pub(crate) fillers: bool,
}

impl Model for Salvage {
    ghost use Rattle.ados_salvage.specs.Salvaged.{Saved};
    ghost use Rattle.ados_salvage.specs.steps.Keeping.{IsKept};

    ghost Value = { Saved };

    ghost view = { λ s. record { accepted = s.accepted; image = s.image; trusted = s.trusted; entries = s.entries.items; deleted = s.deleted.items; given = s.pieces.items; holes = s.holes.items; fillers = s.fillers } };

    ghost invariant = { λ s. IsKept s.image s.trusted s.entries.items s.pieces.items };
}

impl Salvage {
    /// Whether the image was accepted by the check.
    pub fn is_accepted(&self) -> bool
        ensures { result ≡ self.now.accepted }
    {
        self.accepted
    }

    /// The image as it was read.
    pub fn image(&self) -> &Image
        ensures image { result.now ≡ self.now.image }
        ensures kept { IsKept self.now.image self.now.trusted self.now.entries self.now.given }
    {
        &self.image
    }

    /// Whether the bitmap of the image, as it was given, can be trusted. If not, there are no deleted entries.
    pub fn is_bitmap_trusted(&self) -> bool
        ensures { result ≡ self.now.trusted }
    {
        self.trusted
    }

    /// The blocks given to files that are not whole.
    pub fn pieces(&self) -> &[Piece]
        ensures { result.now ≡ self.now.given }
    {
        self.pieces.as_slice()
    }

    /// For each block, whether it is a hole: nobody read it. A block without a mark is none.
    pub fn holes(&self) -> &[bool]
        ensures { result.now ≡ self.now.holes }
    {
        self.holes.as_slice()
    }

    /// Whether a known filler in a data block counts against its file: in a refused image, or where a list of unread blocks was given.
    /// A file that is not whole for it keeps its bytes.
    pub fn counts_fillers(&self) -> bool
        ensures { result ≡ self.now.fillers }
    {
        self.fillers
    }

    /// The entries, each header once, a directory before its entries. Lost entries come last, and behind them only recovered files
    /// without a header.
    pub fn entries(&self) -> &[Salvaged]
        ensures { result.now ≡ self.now.entries }
    {
        self.entries.as_slice()
    }

    /// The headers of the deleted entries, which are left out: there is no entry of them, and they claim no blocks. There are
    /// none if the bitmap cannot be trusted.
    pub fn deleted(&self) -> &[u32]
        ensures { result.now ≡ self.now.deleted }
    {
        self.deleted.as_slice()
    }

    /// The number of bytes of the file at this position of the entries; 0 for a directory and a lost entry.
    pub fn size_of(&self, place: usize) -> usize
        requires { place < length self.now.entries }
        ensures { (entry : Entry) → IsAt self.now.entries place entry → result ≡ size_of self.now.image entry.header entry.state }
    {
        let entry = &self.entries[place];
        match entry.state {
            State::Directory | State::DoubtfulDirectory | State::Lost => 0,
            State::Whole => self.image.long(entry.header, FILE_SIZE) as usize,
            State::Doubtful { length, .. } | State::Broken { length, .. } => length,
        }
    }

    /// The bytes of the file at this position of the entries; none for a directory and a lost entry.
    pub fn bytes_of(&self, alloc: Global, place: usize) -> Result<Vec<u8>, AllocError>
        requires { place < length self.now.entries }
        ensures { IfOk result (λ bytes. (entry : Entry) → IsAt self.now.entries place entry
            → HasBytes self.now.image self.now.given place entry.header entry.state bytes.items) }
    {
        let entry = &self.entries[place];
        match entry.state {
            State::Directory | State::DoubtfulDirectory | State::Lost => Ok(Vec::new(alloc)),
            State::Whole => whole_bytes(alloc, &self.image, entry.header),
            State::Doubtful { length, .. } | State::Broken { length, .. } => {
                pieced(alloc, &self.image, self.pieces.as_slice(), place, length)
            }
        }
    }
}

/// All bytes of a file, copied block by block into memory that is not filled with zeros before.
fn whole_bytes(alloc: Global, image: &Image, file: u32) -> Result<Vec<u8>, AllocError>
    requires inside { file < block_count image.now }
    requires lawful { LawfulFile image.now file }
    ensures { IfOk result (λ bytes. bytes.items ≡ contents image.now file) }
{
    let size = image.long(file, FILE_SIZE) as usize;
    let start = data_start(image);
    let mut bytes = Vec::with_capacity(alloc, size)?;
    let mut holder = file;
    for i in 0..data_needed(image, file) {
        let block = image.long(holder, FIRST_POINTER - i % TABLE_LONGS);
        let behind = BLOCK.min(start + (size - bytes.len()));
        bytes.extend_from_slice(&image.block(block)[start..behind])?;
        if (i + 1) % TABLE_LONGS == 0 {
            holder = image.long(holder, NEXT_EXTENSION);
        }
    }
    Ok(bytes)
}
