//! Sketches of image files, read through one small buffer: memory is needed only for what a check may ask for.
ghost use Rattle.std.specs.Prelude.{◌≡◌, ◌<◌, [], length, IfOk, IfSome, IsTrue};
ghost use Rattle.std.specs.Io.KnownBytes.{Consumes};
ghost use Rattle.adf_block.specs.Image.{block_count};
ghost use Rattle.adf_block.specs.Whole.{IsSize};
ghost use Rattle.adf_io.specs.Load.{ReadsAll};
ghost use Rattle.adf_host.specs.Sketched.{ReadsBlocks};

use crate::image_file::{open_below, size_fault};
use crate::owned::OwnedFile;
use crate::prompt::PromptFiles;
use crate::standard::input_path;
use adf_block::layout::BLOCK_BYTES;
use adf_io::{InputFault, read_some};
use ados_check::Sketch;
use std::alloc::Global;
use std::fs;
use std::fs::OpenFile;
use std::io::{ErrorKind, Read, Result as IoResult};
use std::rt::Files;

/// Bytes in a block.
const BLOCK: usize = BLOCK_BYTES as usize;

/// The maximum number of bytes in a piece, in whole blocks. It is small, so that they are still in the processor's
/// cache when they are examined.
const PIECE: usize = 128 * BLOCK;

/// The sketch of all bytes up to the end of input if they are `blocks` blocks; otherwise `None`.
pub fn read_sketch<R: Read>(
    alloc: Global,
    reader: &mut R,
    blocks: u32,
) -> Result<Option<Sketch>, InputFault>
    requires { IsSize blocks }
    ensures { IfOk result (λ found. IfSome found (ReadsBlocks blocks (R.remaining reader.old) (R.remaining reader.new))) }
{
    let mut rest = blocks as usize * BLOCK;
    let mut piece = Vec::new(alloc);
    piece.resize(PIECE.min(rest), 0)?;
    let mut sketch = Sketch::new(alloc, blocks)?;
    while rest > 0 {
        piece.truncate(rest);
        if !fill(reader, &mut piece)? {
            return Ok(None);
        }
        sketch = sketch.with(&piece)?;
        rest -= piece.len();
    }
    Ok(is_at_end(reader, &mut piece)?.then_some(sketch))
}

/// Reads until the piece is full. Returns whether there were enough bytes.
fn fill<R: Read>(reader: &mut R, piece: &mut [u8]) -> IoResult<bool>
    ensures length { length piece.new ≡ length piece.old }
    ensures bytes { IfOk result (λ full. IsTrue full → Consumes (R.remaining reader.old) (R.remaining reader.new) piece.new) }
{
    match reader.read_exact(piece) {
        Ok(()) => Ok(true),
        Err(error) if error.kind() == ErrorKind::UnexpectedEof => Ok(false),
        Err(error) => Err(error),
    }
}

/// Whether a reader has no more bytes. If it has some, the buffer is overwritten.
fn is_at_end<R: Read>(reader: &mut R, buffer: &mut [u8]) -> IoResult<bool>
    requires { 0 < length buffer.old }
    ensures { IfOk result (λ ended. IsTrue ended → ReadsAll (R.remaining reader.old) (R.remaining reader.new) []) }
{
    Ok(read_some(reader, buffer)? == 0)
}

/// The number of blocks of an open file; `None` if it is not a regular file or has a wrong length for an image.
fn blocks_of<F: OpenFile>(file: &F) -> Option<u32>
    ensures { IfSome result IsSize }
{
    let found = file.metadata().ok()?;
    if !found.is_file() || size_fault(found.len()).is_some() {
        return None;
    }
    Some((found.len() / u64::from(BLOCK_BYTES)) as u32)
}

/// The sketch of an image file; `None` if it is not a regular file, has a wrong length, changed its length, cannot be
/// read, or if memory runs out. A caller that then reads the whole file gets the reason.
pub fn sketch_image_file<R: Files>(rt: &R, alloc: Global, path: &str) -> Option<Sketch>
    ensures { IfSome result (λ sketch. IsSize (block_count sketch)) }
{
    // A pipe can be read only once. It is not opened here, but left to the caller that reads it whole.
    let path = input_path(path);
    if !fs::metadata(rt, path).ok()?.is_file() {
        return None;
    }
    let mut file = fs::open(rt, path).ok()?;
    sketch_open(alloc, &mut file)
}

/// The sketch of the image of a file below a directory, as [`sketch_image_file`] makes it. The file is opened as by
/// [`read_image_below`](crate::read_image_below).
pub fn sketch_image_below<R: PromptFiles>(
    rt: &R,
    alloc: Global,
    directory: &str,
    path: &str,
) -> Option<Sketch>
where
    R::File: OwnedFile + Drop,
    ensures { IfSome result (λ sketch. IsSize (block_count sketch)) }
{
    let mut file = open_below(rt, alloc, directory, path).ok()?;
    sketch_open(alloc, &mut file)
}

/// The sketch of the image of an open file, if it has one.
fn sketch_open<F: Read + OpenFile>(alloc: Global, file: &mut F) -> Option<Sketch>
    ensures { IfSome result (λ sketch. IsSize (block_count sketch)) }
{
    let blocks = blocks_of(file)?;
    read_sketch(alloc, file, blocks).ok()?
}
