//! The commands that change an image file.
ghost use Rattle.std.specs.Prelude.{IfErr, IfOk};
ghost use Rattle.adf_serve.specs.Changed.{IsStamp};
ghost use Rattle.adf_serve.specs.Faults.{IsNoImage, IsNoRefusal};
ghost use Rattle.adf_serve.specs.NewImages.{PutsMade, out_of};
ghost use Rattle.adf_serve.specs.NewImages.Made.{AChanged};

use crate::explaining::explained;
use crate::fault::CommandFault;
use crate::images::{Work, accept};
use adf_cli::{Change, ChangeJob, Source};
use adf_host::{PassedOver, PromptFiles, moment_of};
use adf_import::{SourceFault, StandardInput, change_volume};
use adf_text::print_line;
use ados_name::Date3;
use std::alloc::Global;
use std::fs::File;
use std::io::Write;
use std::rt::{Clock, Files};

/// Makes a change of the volume in an image file, whole or not at all. It prints what was skipped on `faults`.
pub(crate) fn change<'a, R, W, F>(
    rt: &R,
    alloc: Global,
    job: &ChangeJob<'a>,
    writer: &mut W,
    faults: &mut F,
) -> Result<(), CommandFault<'a>>
where
    R: Files<File = File> + PromptFiles + Clock + StandardInput,
    W: Write,
    F: Write,
    ensures { PutsMade (AChanged job.now) (out_of job.now.target) (W.contents writer.old) (W.contents writer.new) result }
{
    refuse_closed_input(rt, &job.change)?;
    let (work, image) = Work::begin(rt, alloc, job.target)?;
    let mut volume = accept(alloc, image)?;
    let moment = given_or_now(rt, job.moment)?;
    match change_volume(rt, alloc, &mut volume, &job.change, moment) {
        Ok(passed_over) => {
            tell_passed_over(&passed_over, faults);
            work.put(rt, alloc, volume.image(), writer)
        }
        Err(fault) => Err(explained(alloc, &mut volume, &job.change, fault)),
    }
}

/// Refuses a change that reads standard input if that is closed. A file that is opened would get its number, so it is refused
/// before the image is.
fn refuse_closed_input<'a, R: StandardInput>(
    rt: &R,
    change: &Change<'_>,
) -> Result<(), CommandFault<'a>>
    ensures { IfErr result IsNoRefusal }
{
    let reads_input = matches!(
        change,
        Change::AddAs {
            source: Source::StandardInput,
            ..
        }
    );
    if reads_input && !rt.has_standard_input() {
        return Err(CommandFault::Added(SourceFault::Input));
    }
    Ok(())
}

/// The given time stamp, or else that of the host's clock.
pub(crate) fn given_or_now<'a, R: Clock>(
    rt: &R,
    given: Option<Date3>,
) -> Result<Date3, CommandFault<'a>>
    ensures stamp { IfOk result (IsStamp given) }
    ensures no_refusal { IfErr result IsNoRefusal }
    ensures no_image { IfErr result IsNoImage }
{
    match given {
        Some(moment) => Ok(moment),
        None => moment_of(rt).map_err(|_| CommandFault::Clock),
    }
}

/// Prints what was skipped.
fn tell_passed_over<F: Write>(passed_over: &[PassedOver], faults: &mut F) {
    for passed in passed_over {
        print_line(faults, format_args!("adf_serve: {passed}"));
    }
}
