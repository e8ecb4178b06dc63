//! Image files: read whole. The image is all of the file, or its first blocks.
ghost use Rattle.std.specs.Prelude.{IfOk, IfSome, MatchOption};
ghost use Rattle.adf_host.specs.Images.{IsImageLength};
ghost use Rattle.adf_io.specs.Loaded.{ReadsFilled, ReadsLoaded};
ghost use Rattle.adf_block.specs.Size.{IsSizeFault};

use crate::held_tree::HeldTree;
use crate::opening::OpenFault;
use crate::owned::OwnedFile;
use crate::prompt::PromptFiles;
use crate::standard::input_path;
use adf_block::layout::{BLOCK_BYTES, FEWEST_BLOCKS, MOST_BLOCKS};
use adf_block::{MOST_BYTES, SizeFault, SizeRefused};
use adf_io::{Filled, LoadFault, Loaded, load_filled, load_front, load_image};
use ados_check::whole_pages;
use std::alloc::Global;
use std::fs;
use std::fs::OpenFile;
use std::io::Read;
use std::rt::Files;

/// What is wrong with the length of a file, in bytes, as that of an image; `None` if it is right.
pub fn size_fault(length: u64) -> Option<SizeFault>
    ensures { MatchOption result (IsImageLength length) (IsSizeFault length) }
{
    let blocks = length / u64::from(BLOCK_BYTES);
    if length % u64::from(BLOCK_BYTES) != 0 {
        return Some(SizeFault::NotWholeBlocks);
    }
    if blocks < u64::from(FEWEST_BLOCKS) {
        return Some(SizeFault::TooFewBlocks);
    }
    if blocks > u64::from(MOST_BLOCKS) {
        return Some(SizeFault::TooManyBlocks);
    }
    None
}

/// The minimum number of bytes that are read into huge pages.
const LARGE: usize = 524_288;

/// Reads the image of an open file: its first `blocks` blocks, or without a number all of it. A regular file of a wrong length
/// is refused by its length, and not read. Of a pipe no length is known.
pub(crate) fn read_open<F: Read + OpenFile>(
    alloc: Global,
    file: &mut F,
    blocks: Option<u32>,
) -> Result<Loaded, LoadFault>
    ensures { IfOk result (ReadsLoaded blocks (F.remaining file.old) (F.remaining file.new)) }
{
    match (room_for(alloc, file, blocks.is_none())?, blocks) {
        (None, None) => {
            let image = load_image(alloc, file)?;
            Ok(Loaded {
                image,
                behind: Vec::new(alloc),
            })
        }
        (room, blocks) => load_front(alloc, file, room.unwrap_or(0), blocks),
    }
}

/// The room for the bytes of an open file; `None` if they are not known. All of it is the image, or only some of its first
/// blocks.
fn room_for<F: OpenFile>(
    alloc: Global,
    file: &F,
    is_whole: bool,
) -> Result<Option<usize>, LoadFault> {
    let length = match file.metadata() {
        Ok(found) if found.is_file() => found.len(),
        _ => return Ok(None),
    };
    match length_fault(length, is_whole) {
        // With room for one more byte the end is reached before the memory is full.
        None => Ok(Some(whole_pages((length as usize).saturating_add(1), LARGE))),
        Some(fault) => Err(LoadFault::Size(SizeRefused {
            fault,
            bytes: Vec::new(alloc),
        })),
    }
}

/// What is wrong with the length of a file of which all is the image, or some of its first blocks. Such a file has any length
/// up to that of the largest image.
fn length_fault(length: u64, is_whole: bool) -> Option<SizeFault>
    ensures { IfSome result (IsSizeFault length) }
{
    if is_whole || length > MOST_BYTES as u64 {
        size_fault(length)
    } else {
        None
    }
}

/// Reads the image of a file, even if a command has locked the file: its first `blocks` blocks, or without a number all of it.
/// The path `-` is standard input.
pub fn read_image_file<R: Files>(
    rt: &R,
    alloc: Global,
    path: &str,
    blocks: Option<u32>,
) -> Result<Loaded, LoadFault> {
    match fs::open(rt, input_path(path)) {
        Ok(mut file) => read_open(alloc, &mut file, blocks),
        Err(_) => Err(LoadFault::Read),
    }
}

/// Reads the image of a file below a directory, as [`read_image_file`] does, whatever takes the place of the file, or of a
/// directory on the way to it, meanwhile. A link there is followed if [`HeldTree::open_linked`] follows it.
pub fn read_image_below<R: PromptFiles>(
    rt: &R,
    alloc: Global,
    directory: &str,
    path: &str,
    blocks: Option<u32>,
) -> Result<Loaded, LoadFault>
where
    R::File: OwnedFile + Drop,
{
    match open_below(rt, alloc, directory, path) {
        Ok(mut file) => read_open(alloc, &mut file, blocks),
        Err(OpenFault::Memory) => Err(LoadFault::Memory),
        Err(_) => Err(LoadFault::Read),
    }
}

/// Opens the file at a path below a directory for reading, as [`HeldTree::open_linked`] does.
pub fn open_below<R: PromptFiles>(
    rt: &R,
    alloc: Global,
    directory: &str,
    path: &str,
) -> Result<R::File, OpenFault>
where
    R::File: OwnedFile + Drop,
{
    HeldTree::at(rt, alloc, directory)?.open_linked(rt, alloc, path)
}

/// Reads an image of this number of blocks from a file that may be longer or shorter. What is missing is taken as zeros.
pub fn read_filled_file<R: Files>(
    rt: &R,
    alloc: Global,
    path: &str,
    blocks: u32,
) -> Result<Filled, LoadFault> {
    match fs::open(rt, input_path(path)) {
        Ok(mut file) => read_filled(alloc, &mut file, blocks),
        Err(_) => Err(LoadFault::Read),
    }
}

/// Reads an image of this number of blocks from an open file. What is missing is taken as zeros.
fn read_filled<F: Read + OpenFile>(
    alloc: Global,
    file: &mut F,
    blocks: u32,
) -> Result<Filled, LoadFault>
    ensures { IfOk result (ReadsFilled blocks (F.remaining file.old) (F.remaining file.new)) }
{
    let room = room_for(alloc, file, false)?.unwrap_or(0);
    load_filled(alloc, file, room, blocks)
}
