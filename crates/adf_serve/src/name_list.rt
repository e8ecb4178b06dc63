//! Lists of the names of files.
ghost use Rattle.std.specs.Prelude.{IfErr, IfOk, map};
ghost use Rattle.adf_serve.specs.Archives.{AreNamesOf, IsListFault};

use crate::fault::CommandFault;
use adf_archive::listed_names;
use adf_cli::NameList;
use adf_host::{input_path, why_unreadable};
use adf_io::{InputFault, read_bounded};
use std::alloc::Global;
use std::fs;
use std::rt::Files;

/// The most bytes of a list: 166,000 names of 200 bytes.
const LONGEST: usize = 33_554_432;

/// The bytes of a list of names; none without one.
pub(crate) fn read_names<'a, R: Files>(
    rt: &R,
    alloc: Global,
    from: Option<NameList<'a>>,
) -> Result<Vec<u8>, CommandFault<'a>>
    ensures { IfErr result (IsListFault from.entry) }
{
    let Some(list) = from else {
        return Ok(Vec::new(alloc));
    };
    let path = input_path(list.file);
    let Ok(mut reader) = fs::open(rt, path) else {
        return Err(CommandFault::Read(list.file, why_unreadable(rt, path)));
    };
    match read_bounded(alloc, &mut reader, LONGEST + 1) {
        Ok(bytes) if bytes.len() <= LONGEST => Ok(bytes),
        Ok(_) => Err(CommandFault::LongNames(list.file)),
        Err(InputFault::Memory) => Err(CommandFault::Memory),
        Err(InputFault::TurnLimit) => Err(CommandFault::Endless(list.file)),
        Err(InputFault::Read) => Err(CommandFault::Read(list.file, why_unreadable(rt, path))),
    }
}

/// The names in a list, at least one; none without a list.
pub(crate) fn names_of<'a, 'b>(
    alloc: Global,
    from: Option<NameList<'a>>,
    bytes: &'b [u8],
) -> Result<Vec<&'b [u8]>, CommandFault<'a>>
    ensures names { IfOk result (λ names. AreNamesOf from.entry (map (λ name. name.now) names.items)) }
    ensures fault { IfErr result (IsListFault from.entry) }
{
    let Some(list) = from else {
        return Ok(Vec::new(alloc));
    };
    if !list.null && bytes.contains(&0) {
        return Err(CommandFault::ZeroByte(list.file));
    }
    let names = listed_names(alloc, bytes, list.null)?;
    if names.is_empty() {
        return Err(CommandFault::NoNames(list.file));
    }
    Ok(names)
}
