//! The command `check`.
ghost use Rattle.std.specs.Prelude.{◌≡◌, IfErr, IfOk, is_some};
ghost use Rattle.adf_serve.specs.Archives.{EndsArchive, IsUnlisted};

use crate::bad::read_list;
use crate::fault::CommandFault;
use crate::name_list::{names_of, read_names};
use adf_archive::{Asked, ReadImages, check_archive};
use adf_cli::CheckJob;
use adf_host::PromptFiles;
use std::alloc::Global;
use std::fs::File;
use std::io::Write;
use std::rt::{Clock, Files};
use std::thread::Threads;

/// Checks the images that the arguments of `check` name, and then those that its list names, beside the list of blocks that could not
/// be read. Both lists are read to their ends first. With `progress` the progress is shown on a terminal.
pub(crate) fn check_images<'a, R, W, F>(
    rt: &R,
    alloc: Global,
    job: &CheckJob<'a>,
    progress: bool,
    writer: &mut W,
    faults: &mut F,
) -> Result<(), CommandFault<'a>>
where
    R: Files<File = File> + PromptFiles + Clock + Threads + ReadImages + Sync,
    W: Write,
    F: Write,
    ensures { EndsArchive job.now (W.contents writer.old) (W.contents writer.new) result }
{
    let bad = given_list(rt, alloc, job)?;
    let list = read_names(rt, alloc, job.from)?;
    let names = names_of(alloc, job.from, &list)?;
    let asked = Asked {
        job,
        names: &names,
        bad: bad.as_deref(),
    };
    match check_archive(rt, alloc, asked, progress, writer, faults) {
        Ok(()) => Ok(()),
        Err(fault) => Err(CommandFault::from(fault)),
    }
}

/// The bytes of the list of blocks of a job, if it has one.
fn given_list<'a, R: Files>(
    rt: &R,
    alloc: Global,
    job: &CheckJob<'a>,
) -> Result<Option<Vec<u8>>, CommandFault<'a>>
    ensures list { IfOk result (λ list. is_some list ≡ is_some job.now.bad) }
    ensures fault { IfErr result (IsUnlisted job.now) }
{
    match job.bad {
        Some(list) => Ok(Some(read_list(rt, alloc, list)?)),
        None => Ok(None),
    }
}
