//! Images from readers.
ghost use Rattle.std.specs.Prelude.{◌≡◌, ◌+◌, ◌<◌, ◌≤◌, ℕ, IfOk, IfErr, List, Option, Some, length};
ghost use Rattle.adf_block.specs.Size.{IsSizeFault};
ghost use Rattle.adf_io.specs.Load.{IsRefusal, ReadsAll};
ghost use Rattle.adf_io.specs.Loaded.{IsFilled, IsLoaded, ReadsFilled, ReadsLoaded, holes_of};

use crate::input::{InputFault, read_counted};
use adf_block::layout::BLOCK_BYTES;
use adf_block::{Image, MOST_BYTES, SizeFault, SizeRefused};
use std::alloc::{AllocError, Global};
use std::io::Read;

/// Why no image was read.
#[derive(Drop)]
pub enum LoadFault {
    /// A read failed.
    Read,
    /// There is not enough memory for the bytes.
    Memory,
    /// The reader reached no end within [`READS`](crate::input::READS) reads.
    TurnLimit,
    /// The input does not have the size of a volume. It comes with the bytes, at most as many as the largest image has.
    Size(SizeRefused),
}

impl From<InputFault> for LoadFault {
    ghost use Rattle.adf_io.specs.Load.{load_fault};

    ghost from_gives = { λ fault loaded. loaded ≡ load_fault fault };

    fn from(fault: InputFault) -> LoadFault
        ensures { result ≡ load_fault fault }
    {
        match fault {
            InputFault::Read => LoadFault::Read,
            InputFault::Memory => LoadFault::Memory,
            InputFault::TurnLimit => LoadFault::TurnLimit,
        }
    }
}

/// Bytes in a block.
const BLOCK: u64 = BLOCK_BYTES as u64;

/// The fault of an input that has `more` bytes more than the largest image.
fn excess_fault(more: u64) -> SizeFault
    requires { 0 < more }
    ensures { IsSizeFault (52020224 + more) result }
{
    if more % BLOCK == 0 {
        SizeFault::TooManyBlocks
    } else {
        SizeFault::NotWholeBlocks
    }
}

/// Reads an image from all bytes up to the end of input. Bytes past the size of the largest image are counted and not
/// kept.
pub fn load_image<R: Read>(alloc: Global, reader: &mut R) -> Result<Image, LoadFault>
    ensures ok { IfOk result (ReadsAll (R.remaining reader.old) (R.remaining reader.new)) }
    ensures err { IfErr result (IsRefusal (R.remaining reader.old) (R.remaining reader.new)) }
{
    load_image_with_room(alloc, reader, 0)
}

/// Like [`load_image`], with memory for `room` bytes reserved at once, as for a file of known length.
pub fn load_image_with_room<R: Read>(
    alloc: Global,
    reader: &mut R,
    room: usize,
) -> Result<Image, LoadFault>
    ensures ok { IfOk result (ReadsAll (R.remaining reader.old) (R.remaining reader.new)) }
    ensures err { IfErr result (IsRefusal (R.remaining reader.old) (R.remaining reader.new)) }
{
    let file = load_bytes(alloc, reader, room)?;
    match Image::from_bytes(file) {
        Ok(image) => Ok(image),
        Err(refused) => Err(LoadFault::Size(refused)),
    }
}

/// The image at the start of a file, and the bytes behind it.
#[derive(Drop)]
pub struct Loaded {
    pub image: Image,
    pub behind: Vec<u8>,
}

/// An image of which the file may lack the last bytes.
#[derive(Drop)]
pub struct Filled {
    pub image: Image,
    /// The number of bytes that are missing, which are zeros in the image.
    pub missing: usize,
    /// For each block of the image, whether the file lacks bytes of it.
    pub holes: Vec<bool>,
}

/// Reads an image from the first `blocks` blocks of an input, and what is behind them; without a number all of the input is the
/// image. The input may have as many bytes as the largest image. Too few blocks are a failed read.
pub fn load_front<R: Read>(
    alloc: Global,
    reader: &mut R,
    room: usize,
    blocks: Option<u32>,
) -> Result<Loaded, LoadFault>
    ensures ok { IfOk result (ReadsLoaded blocks (R.remaining reader.old) (R.remaining reader.new)) }
    ensures err { IfErr result (IsRefusal (R.remaining reader.old) (R.remaining reader.new)) }
{
    let Some(blocks) = blocks else {
        let image = load_image_with_room(alloc, reader, room)?;
        return Ok(Loaded {
            image,
            behind: Vec::new(alloc),
        });
    };
    let file = load_bytes(alloc, reader, room)?;
    split_file(alloc, file, blocks)
}

/// Reads an image of this number of blocks. The input may be longer or shorter, but not longer than the largest image: what is
/// missing is taken as zeros.
pub fn load_filled<R: Read>(
    alloc: Global,
    reader: &mut R,
    room: usize,
    blocks: u32,
) -> Result<Filled, LoadFault>
    ensures ok { IfOk result (ReadsFilled blocks (R.remaining reader.old) (R.remaining reader.new)) }
    ensures err { IfErr result (IsRefusal (R.remaining reader.old) (R.remaining reader.new)) }
{
    let file = load_bytes(alloc, reader, room)?;
    fill_file(alloc, file, blocks)
}

/// All bytes of an input, at most as many as the largest image has.
fn load_bytes<R: Read>(alloc: Global, reader: &mut R, room: usize) -> Result<Vec<u8>, LoadFault>
    ensures ok { IfOk result (λ file. ReadsAll (R.remaining reader.old) (R.remaining reader.new) file.items) }
    ensures within { IfOk result (λ file. length file.items ≤ 52020224) }
    ensures err { IfErr result (IsRefusal (R.remaining reader.old) (R.remaining reader.new)) }
{
    let input = read_counted(alloc, reader, room, MOST_BYTES)?;
    if input.more > 0 {
        return Err(LoadFault::Size(SizeRefused {
            fault: excess_fault(input.more),
            bytes: input.front,
        }));
    }
    Ok(input.front)
}

/// The image in the first blocks of a file, and what is behind it.
fn split_file(alloc: Global, file: Vec<u8>, blocks: u32) -> Result<Loaded, LoadFault>
    ensures ok { IfOk result (IsLoaded (Some blocks) file.items) }
    ensures err { (old new : Option (List ℕ)) → IfErr result (IsRefusal old new) }
{
    let mut front = file;
    let bytes = blocks as usize * BLOCK_BYTES as usize;
    let Some(rest) = front.get(bytes..) else {
        return Err(LoadFault::Read);
    };
    let Ok(behind) = Vec::from_slice(alloc, rest) else {
        return Err(LoadFault::Memory);
    };
    front.truncate(bytes);
    match Image::from_bytes(front) {
        Ok(image) => Ok(Loaded { image, behind }),
        Err(_) => Err(LoadFault::Read),
    }
}

/// The image in the first blocks of a file, with zeros where the file ends before them.
fn fill_file(alloc: Global, file: Vec<u8>, blocks: u32) -> Result<Filled, LoadFault>
    ensures ok { IfOk result (IsFilled blocks file.items) }
    ensures err { (old new : Option (List ℕ)) → IfErr result (IsRefusal old new) }
{
    let mut front = file;
    let Ok(holes) = holes_of(alloc, blocks, front.len() / BLOCK_BYTES as usize) else {
        return Err(LoadFault::Memory);
    };
    let bytes = blocks as usize * BLOCK_BYTES as usize;
    let missing = bytes.saturating_sub(front.len());
    if front.resize(bytes, 0).is_err() {
        return Err(LoadFault::Memory);
    }
    match Image::from_bytes(front) {
        Ok(image) => Ok(Filled {
            image,
            missing,
            holes,
        }),
        Err(_) => Err(LoadFault::Read),
    }
}

/// For each of `blocks` blocks, whether a file with `whole` whole blocks lacks bytes of it.
fn holes_of(alloc: Global, blocks: u32, whole: usize) -> Result<Vec<bool>, AllocError>
    ensures { IfOk result (λ holes. holes.items ≡ holes_of blocks whole) }
{
    let mut holes = vec![in alloc; false; whole]?;
    holes.resize(blocks as usize, true)?;
    Ok(holes)
}
