//! Lists of blocks that could not be read.
ghost use Rattle.std.specs.Prelude.{◌<◌, [], All, IfErr, IfOk};
ghost use Rattle.adf_serve.specs.Faults.{IsNoImage, IsUnreadFile};
ghost use Rattle.adf_serve.specs.Unread.{AreListed, AreMarksOf};

use crate::fault::CommandFault;
use adf_cli::{BadFault, bad_blocks, marked};
use adf_host::{input_path, why_unreadable};
use adf_io::read_bounded;
use std::alloc::Global;
use std::fs;
use std::rt::Files;

/// The most bytes of a list: some forty for each block of the largest image.
const LONGEST: usize = 4_194_304;

/// For each block of an image with so many, whether a list names it as one that could not be read; nothing without a list.
pub(crate) fn unread_blocks<'a, R: Files>(
    rt: &R,
    alloc: Global,
    list: Option<&'a str>,
    blocks: u32,
) -> Result<Vec<bool>, CommandFault<'a>>
    ensures unread { IfOk result (λ unread. AreMarksOf list.entry blocks [] unread.items) }
    ensures fault { IfErr result IsNoImage }
{
    with_bad(rt, alloc, list, blocks, Vec::new(alloc))
}

/// The marks of an image with so many blocks, and with a list those of the blocks that it names.
pub(crate) fn with_bad<'a, R: Files>(
    rt: &R,
    alloc: Global,
    list: Option<&'a str>,
    blocks: u32,
    before: Vec<bool>,
) -> Result<Vec<bool>, CommandFault<'a>>
    ensures marks { IfOk result (λ marks. AreMarksOf list.entry blocks before.items marks.items) }
    ensures fault { IfErr result IsNoImage }
{
    let Some(list) = list else {
        return Ok(before);
    };
    let bad = read_bad(rt, alloc, list, blocks)?;
    Ok(marked(blocks, before, &bad)?)
}

/// The blocks that a list names of an image with so many blocks.
fn read_bad<'a, R: Files>(
    rt: &R,
    alloc: Global,
    list: &'a str,
    blocks: u32,
) -> Result<Vec<u32>, CommandFault<'a>>
    ensures listed { IfOk result (λ bad. AreListed blocks bad.items) }
    ensures inside { IfOk result (λ bad. All (λ block. block < blocks) bad.items) }
    ensures fault { IfErr result IsNoImage }
{
    let bytes = read_list(rt, alloc, list)?;
    match bad_blocks(alloc, blocks, &bytes) {
        Ok(bad) => Ok(bad),
        Err(BadFault::Line(number)) => Err(CommandFault::BadLine(list, number, blocks)),
        Err(BadFault::Memory) => Err(CommandFault::Memory),
    }
}

/// The bytes of a list.
pub(crate) fn read_list<'a, R: Files>(
    rt: &R,
    alloc: Global,
    list: &'a str,
) -> Result<Vec<u8>, CommandFault<'a>>
    ensures fault { IfErr result IsNoImage }
    ensures unread { IfErr result (IsUnreadFile list.now) }
{
    let Ok(mut reader) = fs::open(rt, input_path(list)) else {
        return Err(CommandFault::Read(list, why_unreadable(rt, list)));
    };
    match read_bounded(alloc, &mut reader, LONGEST + 1) {
        Ok(bytes) if bytes.len() <= LONGEST => Ok(bytes),
        Ok(_) => Err(CommandFault::LongList(list)),
        Err(fault) => Err(CommandFault::of_input(rt, fault, list)),
    }
}
