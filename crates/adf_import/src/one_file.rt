//! One file of the host, or standard input, put into a directory under a name.

ghost use Rattle.std.specs.Prelude.{◌≡◌, IfOk, OnOk};
ghost use Rattle.std.specs.Str.{chars};
ghost use Rattle.adf_import.specs.Commands.{PutsAs};

use crate::adding::most_bytes;
use crate::fault::{FileWhy, InFault, SourceFault, unusable};
use crate::host_files::{Given, read_entry, without_note};
use crate::item::{How, not_put};
use crate::new_file::put_file;
use crate::put::noted_file;
use crate::words::Word;
use adf_cli::Source;
use adf_host::{HostKind, HostReader, OwnedFile, PromptFiles, host_tree};
use adf_io::{InputFault, read_bounded};
use ados_model::DosError;
use ados_name::{Date3, Name};
use ados_volume::Volume;
use std::alloc::Global;
use std::fs;
use std::io::Read;

/// A host with standard input.
pub trait StandardInput {
    /// Whether standard input can be read. Nothing of it is read.
    fn has_standard_input(&self) -> bool;

    /// The bytes of standard input up to its end, at most this many.
    fn standard_input(&self, alloc: Global, most: usize) -> Result<Vec<u8>, InputFault>;
}

impl StandardInput for HostRuntime {
    fn has_standard_input(&self) -> bool {
        let mut input = self.stdin();
        input.read(&mut []).is_ok()
    }

    fn standard_input(&self, alloc: Global, most: usize) -> Result<Vec<u8>, InputFault> {
        let mut input = self.stdin();
        read_bounded(alloc, &mut input, most)
    }
}

/// The directory for a file, and its name there, as arguments.
#[derive(Clone, Copy)]
pub(crate) struct Target<'a> {
    pub to: &'a str,
    pub name: &'a str,
}

/// Puts one file into a directory under a name: a new one, or with `force` in place of the existing one.
///
/// Refusals have the path of the directory or the name. What is no regular file is a fault.
pub(crate) fn add_as<R: PromptFiles + StandardInput>(
    rt: &R,
    alloc: Global,
    volume: &mut Volume,
    source: Source<'_>,
    target: Target<'_>,
    how: How,
) -> Result<(), InFault>
where
    R::File: OwnedFile,
    ensures { OnOk result (PutsAs how.moment (chars target.entry.to.now) (chars target.entry.name.now) how.force volume.old volume.new) }
{
    let to = Word::new(alloc, target.to)?;
    let name = name_of(alloc, target.name)?;
    let dir = to.directory(alloc, volume)?;
    let given = match source {
        Source::File(path) => read_file(rt, alloc, path, most_bytes(volume))?,
        Source::StandardInput => read_input(rt, alloc, most_bytes(volume), how.moment)?,
    };
    let file = noted_file(&given.bytes, &given.noted);
    match put_file(volume, dir, name, &file, how.force, how.moment) {
        Ok(_) => Ok(()),
        Err(fault) => {
            let more = given.content(volume).map_or(0, |content| content.more);
            Err(not_put(alloc, target.name, fault, more))
        }
    }
}

/// The name of an argument.
///
/// Error: 210 for a text that is not a name.
fn name_of(alloc: Global, text: &str) -> Result<Name, InFault>
    ensures { IfOk result (λ name. name ≡ chars text.now) }
{
    let word = Word::new(alloc, text)?;
    match Name::new(word.bytes()) {
        Ok(name) => Ok(name),
        Err(_) => Err(word.refused(alloc, DosError::InvalidComponentName)),
    }
}

/// Reads standard input, which gets the date `moment`. What is more than `most` bytes is not read, so an input without an end does no harm.
fn read_input<R: StandardInput>(
    rt: &R,
    alloc: Global,
    most: usize,
    moment: Date3,
) -> Result<Given, InFault> {
    match rt.standard_input(alloc, most) {
        Ok(bytes) => Ok(Given {
            length: Some(bytes.len() as u64),
            bytes,
            noted: without_note(moment),
        }),
        Err(InputFault::Memory) => Err(InFault::Memory),
        Err(_) => Err(InFault::Source(SourceFault::Input)),
    }
}

/// Reads a regular file of the host, with its metadata.
fn read_file<R: PromptFiles>(
    rt: &R,
    alloc: Global,
    path: &str,
    most: usize,
) -> Result<Given, InFault>
where
    R::File: OwnedFile,
{
    if fs::metadata(rt, path).is_ok_and(|found| !found.is_file()) {
        return Err(unusable(alloc, path, FileWhy::NotOneFile));
    }
    let tree = host_tree(rt, alloc, &[path])?;
    match tree.entries.as_slice() {
        [entry] if matches!(entry.kind, HostKind::File { .. }) => {
            read_entry(rt, alloc, &mut HostReader::new(alloc), entry, most)
        }
        _ => Err(unusable(alloc, path, FileWhy::NotOneFile)),
    }
}
