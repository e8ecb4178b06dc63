//! Input read to its end or to a bound.
ghost use Rattle.std.specs.Prelude.{◌≡◌, ◌≤◌, length, IfOk};
ghost use Rattle.adf_io.specs.Input.{GivesNoEnd, ReadsCounted, ReadsFront, ReadsUpTo};
ghost use Rattle.adf_io.specs.steps.Reads.{GivesOn, ReadsOn, ReadsRest};

use crate::part::{read_part, read_some};
use std::alloc::{AllocError, Global};
use std::io::{Error, Read};

/// Why input was not read to its end.
#[derive(Clone, Copy, PartialEq, Eq)]
pub enum InputFault {
    /// A read failed.
    Read,
    /// There is not enough memory for the bytes.
    Memory,
    /// The reader reached no end within [`READS`] reads.
    TurnLimit,
}

impl From<AllocError> for InputFault {
    ghost use Rattle.adf_io.specs.declared.input.InputFault.TheVariants.{Memory};

    ghost from_gives = { λ _ fault. fault ≡ Memory };

    fn from(_error: AllocError) -> InputFault {
        InputFault::Memory
    }
}

impl From<Error> for InputFault {
    ghost use Rattle.adf_io.specs.declared.input.InputFault.TheVariants.{Read};

    ghost from_gives = { λ _ fault. fault ≡ Read };

    fn from(_error: Error) -> InputFault {
        InputFault::Read
    }
}

/// Input that was read to its end, and whose first bytes were kept.
#[derive(Drop)]
pub struct Input {
    pub front: Vec<u8>,
    /// The number of bytes after the kept ones.
    pub more: u64,
}

/// The maximum number of reads for an input.
pub const READS: u32 = 2_097_152;

/// The number of bytes that a read asks for. It is small, so that they are still in the processor's cache when they are
/// copied.
const CHUNK: usize = 65_536;

/// The number of bytes that a read past the kept ones asks for. It is small, so that at most 64 MB are read there.
const CRUMB: usize = 32;

/// Reads all bytes up to the end of input, and keeps at most `most` of them.
pub fn read_input<R: Read>(
    alloc: Global,
    reader: &mut R,
    most: usize,
) -> Result<Vec<u8>, InputFault>
    ensures bytes { IfOk result
        (λ bytes. ReadsFront most (R.remaining reader.old) (R.remaining reader.new) bytes.items) }
    // An end within the limit is found.
    ensures endless { result ≡ Err InputFault.TurnLimit → GivesNoEnd (R.remaining reader.old) (R.remaining reader.new) }
{
    Ok(read_counted(alloc, reader, 0, most)?.front)
}

/// Like [`read_input`], with memory for `room` bytes reserved at once, and with the number of bytes that are not kept.
pub fn read_counted<R: Read>(
    alloc: Global,
    reader: &mut R,
    room: usize,
    most: usize,
) -> Result<Input, InputFault>
    ensures bytes { IfOk result (ReadsCounted most (R.remaining reader.old) (R.remaining reader.new)) }
    ensures endless { result ≡ Err InputFault.TurnLimit → GivesNoEnd (R.remaining reader.old) (R.remaining reader.new) }
{
    let mut front = Vec::with_capacity(alloc, room)?;
    let reads = read_on(reader, &mut front, most, READS)?;
    if front.len() < most {
        return Ok(Input { front, more: 0 });
    }
    match count_rest(reader, READS - reads) {
        Ok(more) => Ok(Input { front, more }),
        Err(fault) => Err(fault),
    }
}

/// Reads the bytes of a reader up to its end, or up to a bound. It takes no further bytes from the reader, so a reader
/// without an end does no harm.
pub fn read_bounded<R: Read>(
    alloc: Global,
    reader: &mut R,
    most: usize,
) -> Result<Vec<u8>, InputFault>
    ensures { IfOk result (λ bytes. ReadsUpTo most (R.remaining reader.old) (R.remaining reader.new) bytes.items) }
{
    let mut bytes = Vec::new(alloc);
    read_on(reader, &mut bytes, most, u32::MAX)?;
    Ok(bytes)
}

/// Appends the bytes of a reader up to its end, until there are `most` in all. It does at most `limit` reads. Returns
/// the number of reads with at least one byte.
fn read_on<R: Read>(
    reader: &mut R,
    bytes: &mut Vec<u8>,
    most: usize,
    limit: u32,
) -> Result<u32, InputFault>
    requires { length bytes.old.items ≤ most }
    ensures read { IfOk result
        (ReadsOn most (R.remaining reader.old) (R.remaining reader.new) bytes.old.items bytes.new.items) }
    ensures within { IfOk result (λ reads. reads ≤ limit) }
    ensures endless { result ≡ Err InputFault.TurnLimit
        → GivesOn limit (R.remaining reader.old) (R.remaining reader.new) }
{
    let mut chunk = [0u8; CHUNK];
    for reads in 0..limit {
        let room = CHUNK.min(most - bytes.len());
        if room == 0 {
            return Ok(reads);
        }
        if read_part(reader, &mut chunk[..room], bytes)? == 0 {
            return Ok(reads);
        }
    }
    Err(InputFault::TurnLimit)
}

/// Counts the bytes of a reader up to its end, which must be within the limit of reads.
fn count_rest<R: Read>(reader: &mut R, limit: u32) -> Result<u64, InputFault>
    ensures read { IfOk result (ReadsRest (R.remaining reader.old) (R.remaining reader.new)) }
    ensures endless { result ≡ Err InputFault.TurnLimit
        → GivesOn limit (R.remaining reader.old) (R.remaining reader.new) }
{
    let mut crumb = [0u8; CRUMB];
    let mut count = 0;
    for turn in 0..limit {
        let _ = turn;
        let read = read_some(reader, &mut crumb)?;
        if read == 0 {
            return Ok(count);
        }
        count += read as u64;
    }
    Err(InputFault::TurnLimit)
}
