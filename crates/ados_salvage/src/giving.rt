//! The blocks given to files that are not whole, each to one.
ghost use Rattle.std.specs.Prelude.{◌≡◌, ◌<◌, ◌≤◌, ◌*◌, ◌++◌, ◌∷◌, [], ℕ, Bool, List, if◌then◌else◌, length, IfOk, IfSome, IsTrue, OnOk};
ghost use Rattle.adf_block.specs.Fields.{format_of};
ghost use Rattle.adf_block.specs.declared.layout.Format.TheVariants.{Ofs};
ghost use Rattle.ados_salvage.specs.Doubtful.{IsOwnData};
ghost use Rattle.adf_block.specs.Image.{block_count};
ghost use Rattle.ados_model.specs.Tree.{data_start};
ghost use Rattle.ados_salvage.specs.Due.{CountsAsExtension, IsDue, IsPointerBlock, right_fields};
ghost use Rattle.ados_salvage.specs.Missing.{missing_blocks};
ghost use Rattle.ados_salvage.specs.steps.Counting.{GivesMore, HasNone};
ghost use Rattle.ados_salvage.specs.steps.Giving.{AreHolesMarked, IsGiving, IsOpen};

use crate::known::{Known, data_needed, is_hole, is_own_data};
use crate::links::Links;
use crate::numbered::{Kept, give_numbered};
use crate::pointer_blocks::{Wanted, give_unlinked};
use adf_block::layout::{
    BLOCK_BYTES, BOOT_BLOCKS, FILE_SIZE, FILE_TYPE, FIRST_PAGE, FIRST_POINTER, HEADER_TYPE,
    LIST_TYPE, NEXT_DATA, NEXT_EXTENSION, OFS_DATA_BYTE, OWN_KEY, PARENT, POINTER_COUNT,
    PRIMARY_TYPE, ROOT_TYPE, SECONDARY_TYPE, TABLE_LONGS,
};
use adf_block::{Format, Image, page_count};
use std::alloc::{AllocError, Global};

/// Bytes in a block.
pub(crate) const BLOCK: usize = BLOCK_BYTES as usize;

/// The most bytes of all files that are not whole together, as a multiple of the image's bytes.
const SHARE: usize = 4;

/// The longs of the root that can name bitmap blocks.
const PAGES: u32 = 25;

/// A block given to a file that is not whole.
#[derive(Clone, Copy)]
pub struct Piece {
    /// The position of the file in the list of entries.
    pub place: usize,
    /// Which of the file's data blocks it is, from 0.
    pub at: u32,
    pub block: u32,
}

/// The blocks given so far.
#[derive(Drop)]
pub(crate) struct Giving {
    /// For each block, whether it was given or cannot be.
    pub(crate) given: Vec<bool>,
    /// For each block, whether it was passed as an extension block. Only one file passes it.
    pub(crate) passed: Vec<bool>,
    pub(crate) pieces: Vec<Piece>,
    /// The extension blocks with right checksums.
    pub(crate) links: Links,
    /// How many bytes further such files may have.
    pub(crate) left: usize,
}

/// What is left of a file that is not whole.
#[derive(Clone, Copy)]
pub(crate) struct Remains {
    /// The number of missing data blocks.
    pub(crate) missing: u32,
    /// The number of bytes up to the end of its last block.
    pub(crate) end: usize,
}

/// Where the next data block of a file is named: the pointer block with its pointer, and the data block before it.
#[derive(Clone, Copy)]
struct Way {
    holder: Option<u32>,
    before: Option<u32>,
}

impl Way {
    /// Whether nothing names the next data block.
    fn is_lost(&self, image: &Image) -> bool {
        self.holder.is_none() && (self.before.is_none() || image.format() == Format::Ffs)
    }
}

impl Giving {
    /// Nothing is given. The root, its bitmap blocks and the holes are given to no file.
    pub(crate) fn new(alloc: Global, image: &Image, holes: &[bool]) -> Result<Giving, AllocError>
        ensures giving { IfOk result (IsGiving holes.now image.now) }
        ensures left { IfOk result (λ giving. giving.left ≤ 4 * length image.now) }
        ensures none { IfOk result (λ giving. giving.pieces.items ≡ []) }
    {
        let count = image.blocks() as usize;
        let mut given = vec![in alloc; false; count]?;
        mark_volume(image, given.as_mut_slice());
        mark_holes(image, holes, given.as_mut_slice());
        Ok(Giving {
            given,
            passed: vec![in alloc; false; count]?,
            pieces: Vec::new(alloc),
            links: Links::new(alloc, image)?,
            left: image.as_bytes().len().saturating_mul(SHARE),
        })
    }

    /// Gives a file that is not whole, whose entry has this position, its data blocks that were not given before. It has at
    /// most as many as its size needs, and as the image has. A wrong checksum of one is no reason against it, if a pointer or a link
    /// names it. Where these give nothing, it is given what its FFS extension blocks name to which no link leads, and OFS data blocks
    /// with right checksums by their own numbers.
    pub(crate) fn give(
        &mut self,
        known: &Known,
        file: u32,
        place: usize,
    ) -> Result<Remains, AllocError>
        requires inside { file < block_count known.now.image }
        requires giving { IsGiving known.now.holes.items known.now.image self.old }
        ensures giving { OnOk result (IsGiving known.now.holes.items known.now.image self.new) }
        ensures left { self.new.left ≡ self.old.left }
        ensures more { OnOk result (GivesMore known.now.image file place self.old.pieces.items self.new.pieces.items) }
        ensures missing { IfOk result (λ remains. HasNone self.old.pieces.items place → missing_blocks known.now.image self.new.pieces.items place file ≡ remains.missing) }
    {
        let image = &known.image;
        let room = BLOCK - data_start(image);
        let size = (image.long(file, FILE_SIZE) as usize).min(image.blocks() as usize * room);
        let needed = data_needed(image, file).min(image.blocks());
        let mut kept = Kept::none(known, file);
        let mut way = Way {
            holder: Some(file),
            before: Some(file),
        };
        for i in 0..needed {
            if way.is_lost(image) {
                break;
            }
            let found = self.block_at(image, file, i, way);
            if let Some(block) = found {
                self.note(Piece {
                    place,
                    at: i,
                    block,
                })?;
                kept = kept.with(i);
            } else {
                kept = give_numbered(known, file, place, kept, i + 1, self)?;
            }
            way.before = found;
            if i % TABLE_LONGS == TABLE_LONGS - 1 {
                way.holder = self.next_holder(known, file, way.holder);
            }
        }
        let wanted = Wanted {
            file,
            place,
            needed,
        };
        let more = give_unlinked(known, wanted, kept, self)?;
        let all = give_numbered(known, file, place, more, needed, self)?;
        Ok(Remains {
            missing: needed - all.there,
            end: size.min(all.last as usize * room),
        })
    }

    /// Whether a block can still be given.
    pub(crate) fn is_open(&self, block: u32) -> bool
        ensures { IsTrue result → IsOpen self.now.given.items block }
    {
        (block as usize) < self.given.len() && !self.given[block as usize]
    }

    /// Notes that a block is given.
    pub(crate) fn note(&mut self, piece: Piece) -> Result<(), AllocError>
        requires fresh { IsOpen self.old.given.items piece.block }
        ensures giving { OnOk result ((holes : List Bool) (image : List ℕ) → IsGiving holes image self.old → IsGiving holes image self.new) }
        ensures left { self.new.left ≡ self.old.left }
        ensures pieces { OnOk result (self.new.pieces.items ≡ self.old.pieces.items ++ piece ∷ []) }
    {
        self.given[piece.block as usize] = true;
        self.pieces.push(piece)?;
        Ok(())
    }

    /// Data block `i` of a file, if it was not given before: the one in its pointer, or else, in OFS, the one that the block
    /// before it links to.
    fn block_at(&self, image: &Image, file: u32, i: u32, way: Way) -> Option<u32>
        requires file { file < block_count image.now }
        requires holder { IfSome way.holder (λ block. block < block_count image.now) }
        requires before { IfSome way.before (λ block. block < block_count image.now) }
        requires holds { IfSome way.holder (IsPointerBlock image.now file) }
        requires size { length self.now.given.items ≡ block_count image.now }
        ensures open { IfSome result (IsOpen self.now.given.items) }
        ensures due { IfSome result (IsDue image.now file i) }
    {
        match self.pointed_at(image, file, i, way.holder) {
            Some(block) => Some(block),
            None => self.linked_at(image, file, i, way.before),
        }
    }

    /// Data block `i` of a file, if it was not given before: the one in its pointer.
    fn pointed_at(&self, image: &Image, file: u32, i: u32, holder: Option<u32>) -> Option<u32>
        requires file { file < block_count image.now }
        requires holder { IfSome holder (λ block. block < block_count image.now) }
        requires holds { IfSome holder (IsPointerBlock image.now file) }
        requires size { length self.now.given.items ≡ block_count image.now }
        ensures open { IfSome result (IsOpen self.now.given.items) }
        ensures due { IfSome result (IsDue image.now file i) }
    {
        let holder = holder?;
        let pointer = i % TABLE_LONGS;
        if pointer >= image.long(holder, POINTER_COUNT) {
            return None;
        }
        let block = image.long(holder, FIRST_POINTER - pointer);
        if self.is_piece(image, file, i, block) {
            Some(block)
        } else {
            None
        }
    }

    /// Data block `i` of a file, if it was not given before: in OFS the one that the block before it links to.
    fn linked_at(&self, image: &Image, file: u32, i: u32, before: Option<u32>) -> Option<u32>
        requires file { file < block_count image.now }
        requires before { IfSome before (λ block. block < block_count image.now) }
        requires size { length self.now.given.items ≡ block_count image.now }
        ensures open { IfSome result (IsOpen self.now.given.items) }
        ensures due { IfSome result (IsDue image.now file i) }
    {
        let block = image.long(before?, NEXT_DATA);
        if image.format() == Format::Ofs && self.is_piece(image, file, i, block) {
            Some(block)
        } else {
            None
        }
    }

    /// Whether a block was not given before, and by itself can be data block `i` of a file.
    fn is_piece(&self, image: &Image, file: u32, i: u32, block: u32) -> bool
        requires file { file < block_count image.now }
        requires size { length self.now.given.items ≡ block_count image.now }
        ensures open { IsTrue result → IsOpen self.now.given.items block }
        ensures own { IsTrue result → format_of image.now ≡ Ofs → IsOwnData image.now file i block }
    {
        if block < BOOT_BLOCKS || block >= image.blocks() || self.given[block as usize] {
            return false;
        }
        match image.format() {
            Format::Ofs => is_own_data(image, file, i, block),
            Format::Ffs => true,
        }
    }

    /// The extension block after a pointer block, if it counts as one and was not passed before.
    fn next_holder(&mut self, known: &Known, file: u32, holder: Option<u32>) -> Option<u32>
        requires holder { IfSome holder (λ block. block < block_count known.now.image) }
        requires giving { IsGiving known.now.holes.items known.now.image self.old }
        ensures holder { IfSome result (λ block. block < block_count known.now.image) }
        ensures holds { IfSome result (IsPointerBlock known.now.image file) }
        ensures giving { IsGiving known.now.holes.items known.now.image self.new }
        ensures left { self.new.left ≡ self.old.left }
        ensures pieces { self.new.pieces ≡ self.old.pieces }
    {
        let image = &known.image;
        let next = image.long(holder?, NEXT_EXTENSION);
        if next < BOOT_BLOCKS
            || next >= image.blocks()
            || next == file
            || self.passed[next as usize]
            || !counts_as_extension(image, file, next)
        {
            return None;
        }
        self.passed[next as usize] = true;
        Some(next)
    }
}

/// Whether a block counts as an extension block of a file: its types, its own number and its file are right, or all of these but
/// one, and its checksum is wrong.
fn counts_as_extension(image: &Image, file: u32, block: u32) -> bool
    requires { block < block_count image.now }
    ensures { IsTrue result → CountsAsExtension image.now file block }
{
    match right_fields(image, file, block) {
        4 => true,
        3 => image.sum(block) != 0,
        _ => false,
    }
}

/// How many of four fields are right that an extension block of a file has: its types, its own number and its file.
fn right_fields(image: &Image, file: u32, block: u32) -> u32
    requires { block < block_count image.now }
    ensures { result ≡ right_fields image.now file block }
{
    let types = one_if(image.long(block, PRIMARY_TYPE) == LIST_TYPE)
        + one_if(image.long(block, SECONDARY_TYPE) == FILE_TYPE);
    let numbers = one_if(image.long(block, OWN_KEY) == block)
        + one_if(image.long(block, PARENT) == file);
    types + numbers
}

/// 1 if something is so, and else 0.
fn one_if(is: bool) -> u32
    ensures value { result ≡ (if is then 1 else 0) }
    ensures small { result ≤ 1 }
{
    if is { 1 } else { 0 }
}

/// Marks the root, and the bitmap blocks that it names if it has the type of a root: as many as the volume needs.
fn mark_volume(image: &Image, given: &mut [bool])
    requires { length given.old ≡ block_count image.now }
    ensures { length given.new ≡ length given.old }
{
    prove!(image.blocks() >= 16);
    let root = image.root();
    given[root as usize] = true;
    if image.long(root, PRIMARY_TYPE) != HEADER_TYPE
        || image.long(root, SECONDARY_TYPE) != ROOT_TYPE
    {
        return;
    }
    for page in 0..page_count(image.blocks()).min(PAGES) {
        let block = image.long(root, FIRST_PAGE + page) as usize;
        if block < given.len() {
            given[block] = true;
        }
    }
}

/// Marks the holes.
fn mark_holes(image: &Image, holes: &[bool], given: &mut [bool])
    requires { length given.old ≡ block_count image.now }
    ensures size { length given.new ≡ length given.old }
    ensures marked { AreHolesMarked holes.now given.new }
{
    for block in 0..image.blocks() {
        if is_hole(holes, block) {
            given[block as usize] = true;
        }
    }
}

/// The byte of a data block where its data starts: 24 in OFS, 0 in FFS.
pub(crate) fn data_start(image: &Image) -> usize
    ensures start { result ≡ data_start (format_of image.now) }
    ensures small { result ≤ 24 }
{
    match image.format() {
        Format::Ofs => OFS_DATA_BYTE as usize,
        Format::Ffs => 0,
    }
}
