//! Suspect blocks: those that a list names, and data blocks of files that hold nothing but a filler.
ghost use Rattle.std.specs.Prelude.{◌≡◌, ◌<◌, ◌≤◌, true, false, All, IfErr, IfOk, IfSome, IsTrue, MatchBool, MatchOption, Some, length, option_map, slice_index_or};
ghost use Rattle.std.specs.String.{string_bytes};
ghost use Rattle.adf_block.specs.Image.{block_count};
ghost use Rattle.ados_census.specs.Fillers.{HoldsFiller};
ghost use Rattle.ados_model.specs.Keys.{HasKey};
ghost use Rattle.ados_model.specs.Stands.{Stands};
ghost use Rattle.ados_model.specs.Tree.{Tree};
ghost use Rattle.ados_volume.specs.Owners.{Owns};
ghost use Rattle.adf_archive.specs.Owned.{entry_of};
ghost use Rattle.adf_archive.specs.Paths.{IsPathOf};
ghost use Rattle.adf_archive.specs.Suspects.{AreListMarks, AreSuspects, HasItsPath, IsDoubted, IsListFault, IsPathFor, IsSuspectAt};

use crate::owned::entry_of;
use crate::path::path_of;
use adf_block::Image;
use adf_cli::{BadFault, bad_blocks, marked};
use ados_census::holds_filler;
use ados_volume::{Owner, Volume, owners};
use std::alloc::{AllocError, Global};

/// A suspect block.
#[derive(Drop)]
pub struct Suspect {
    pub block: u32,
    pub owner: Owner,
    /// The path of the directory or file that it belongs to, in letters, if there is one and if it has at most 255 bytes.
    pub path: Option<String>,
}

/// What makes a block suspect.
#[derive(Clone, Copy)]
pub(crate) struct Search<'a> {
    /// A data block of a file is suspect if it holds nothing but a filler.
    pub(crate) filler: bool,
    /// A block is suspect if it has a mark here and is not free.
    pub(crate) marks: &'a [bool],
}

/// The marks of the blocks that a list names in a volume with so many, by the bytes of the list; none without a list.
pub(crate) fn list_marks(
    alloc: Global,
    blocks: u32,
    list: Option<&[u8]>,
) -> Result<Vec<bool>, BadFault>
    ensures marks { IfOk result (λ marks. AreListMarks list.entry blocks marks.items) }
    ensures fault { IfErr result (IsListFault list.entry blocks) }
{
    let Some(list) = list else {
        return Ok(Vec::new(alloc));
    };
    let bad = bad_blocks(alloc, blocks, list)?;
    Ok(marked(blocks, Vec::new(alloc), &bad)?)
}

/// The suspect blocks of a volume, in the order of their numbers. Time and memory are linear in the size of the image.
pub(crate) fn suspects_of(
    alloc: Global,
    volume: &Volume,
    search: Search<'_>,
) -> Result<Vec<Suspect>, AllocError>
    requires { length search.marks.now ≤ block_count volume.now.image }
    ensures { IfOk result (λ found. (t : Tree) → Stands volume.now.image t → AreSuspects search.entry.filler search.entry.marks.now volume.now.image t found.items) }
{
    let owners = owners(alloc, volume)?;
    // A list that grows would take twice the memory while it is copied.
    let mut found = Vec::with_capacity(alloc, owners.len())?;
    for block in 0..volume.image().blocks() {
        if let Some(suspect) = suspect_at(
            alloc,
            volume,
            search,
            block,
            owners[block as usize],
            &found,
        )? {
            found.push(suspect)?;
        }
    }
    Ok(found)
}

/// The block with this owner, if it is suspect. Others were found before it.
fn suspect_at(
    alloc: Global,
    volume: &Volume,
    search: Search<'_>,
    block: u32,
    owner: Owner,
    found: &[Suspect],
) -> Result<Option<Suspect>, AllocError>
    requires block { block < block_count volume.now.image }
    requires owner { (t : Tree) → Stands volume.now.image t → Owns volume.now.image t block owner }
    requires found { (t : Tree) → Stands volume.now.image t → All (HasItsPath t) found.now }
    ensures { IfOk result (λ found. (t : Tree) → Stands volume.now.image t → MatchOption found (¬ IsDoubted search.entry.filler search.entry.marks.now volume.now.image block owner) (IsSuspectAt search.entry.filler search.entry.marks.now volume.now.image t block)) }
{
    if !search.doubts(volume.image(), block, owner) {
        return Ok(None);
    }
    let path = path_for(alloc, volume, entry_of(block, owner), found)?;
    Ok(Some(Suspect { block, owner, path }))
}

impl Search<'_> {
    /// Whether a block with this owner is suspect.
    fn doubts(self, image: &Image, block: u32, owner: Owner) -> bool
        requires { block < block_count image.now }
        ensures { MatchBool result (IsDoubted self.entry.filler self.entry.marks.now image.now block owner) (¬ IsDoubted self.entry.filler self.entry.marks.now image.now block owner) }
    {
        let marked = is_marked(self.marks, block);
        match owner {
            Owner::Free => false,
            Owner::Data(_, _) => {
                if marked {
                    return true;
                }
                is_filled(self.filler, image, block)
            }
            Owner::Boot | Owner::Root | Owner::Page(_) => marked,
            Owner::Directory | Owner::File | Owner::Extension(_, _) | Owner::Lost => marked,
        }
    }
}

/// Whether a block has a mark; there are marks for the first blocks.
fn is_marked(marks: &[bool], block: u32) -> bool
    ensures { result ≡ slice_index_or marks.now block false }
{
    match marks.get(block as usize) {
        Some(mark) => *mark,
        None => false,
    }
}

/// Whether a data block holds nothing but a filler, if that is asked.
fn is_filled(filler: bool, image: &Image, block: u32) -> bool
    requires { block < block_count image.now }
    ensures { MatchBool result ((filler ≡ true) × HoldsFiller image.now block) (¬ ((filler ≡ true) × HoldsFiller image.now block)) }
{
    if !filler {
        return false;
    }
    holds_filler(image, block)
}

/// The path of a directory or file, if one is given and if its path is not too long.
fn path_for(
    alloc: Global,
    volume: &Volume,
    entry: Option<u32>,
    found: &[Suspect],
) -> Result<Option<String>, AllocError>
    requires key { IfSome entry (HasKey volume.now.image) }
    requires found { (t : Tree) → Stands volume.now.image t → All (HasItsPath t) found.now }
    ensures { IfOk result (λ path. (t : Tree) → Stands volume.now.image t → IsPathFor t entry (option_map string_bytes path)) }
{
    match entry {
        Some(entry) => path_in(alloc, volume, entry, found),
        None => Ok(None),
    }
}

/// The path of a directory or file. The blocks of a file are mostly found one after the other, so that the last one has its path.
fn path_in(
    alloc: Global,
    volume: &Volume,
    entry: u32,
    found: &[Suspect],
) -> Result<Option<String>, AllocError>
    requires key { HasKey volume.now.image entry }
    requires found { (t : Tree) → Stands volume.now.image t → All (HasItsPath t) found.now }
    ensures { IfOk result (λ path. (t : Tree) → Stands volume.now.image t → IsPathOf t entry (option_map string_bytes path)) }
{
    let count = found.len();
    if count > 0 && found[count - 1].is_of(entry) {
        return same_path(alloc, &found[count - 1]);
    }
    path_of(alloc, volume, entry)
}

impl Suspect {
    /// Whether the block belongs to this directory or file.
    fn is_of(&self, entry: u32) -> bool
        ensures { IsTrue result → entry_of self.now.block self.now.owner ≡ Some entry }
    {
        match entry_of(self.block, self.owner) {
            Some(own) => own == entry,
            None => false,
        }
    }
}

/// A copy of the path of a block.
fn same_path(alloc: Global, suspect: &Suspect) -> Result<Option<String>, AllocError>
    ensures { IfOk result (λ path. option_map string_bytes path ≡ option_map string_bytes suspect.now.path) }
{
    match &suspect.path {
        Some(path) => Ok(Some(String::from_str(alloc, path.as_str())?)),
        None => Ok(None),
    }
}
