//! The jobs on image files.
ghost use Rattle.adf_serve.specs.Commands.{DoesJob};

use crate::blank::{NewVolume, make_blank};
use crate::blocks::tell_where;
use crate::boot::{change_boot, save_boot, show_boot};
use crate::bundle::{put_bundle, take_bundle};
use crate::changing::change;
use crate::checks::check_images;
use crate::deleted::undelete;
use crate::fault::CommandFault;
use crate::map::tell_map;
use crate::moving::take_out;
use crate::query::{Query, print_query};
use crate::rescue::take_rescue;
use crate::screen::Screen;
use crate::serving::serve;
use crate::validate::validate_file;
use adf_archive::ReadImages;
use adf_cli::ImageJob;
use adf_host::PromptFiles;
use adf_import::StandardInput;
use std::alloc::Global;
use std::fs::File;
use std::io::Write;
use std::rt::{Clock, Files};
use std::sync::Wait;
use std::thread::Threads;

/// Does a job on image files, except for the line of a refusal ([`end_job`](crate::end_job)). The output for an image goes to the writer.
/// Skipped files go to `faults`, and so does the progress of a check if `screen` says so.
#[rattlefmt::skip]
pub fn run_job<'a, R, W, F>(
    rt: &R,
    alloc: Global,
    job: &ImageJob<'a>,
    screen: Screen,
    writer: &mut W,
    faults: &mut F,
) -> Result<(), CommandFault<'a>>
where
    R: Files<File = File> + PromptFiles + Clock + Threads + Wait + ReadImages + StandardInput + Copy + Send + Sync + Drop + 'static,
    W: Write,
    F: Write,
    ensures { DoesJob screen.styled job.now (W.contents writer.old) (W.contents writer.new) result }
{
    match job {
        ImageJob::Blank { format, blocks, moment, name, letters, file } => {
            let new = NewVolume { format: *format, blocks: *blocks, moment: *moment, name: *name, letters: *letters };
            make_blank(rt, alloc, new, *file, writer, faults)
        }
        ImageJob::Info { file, json } => print_query(rt, alloc, *file, Query::Disk { json: *json }, screen.styled, writer),
        ImageJob::Show { image, json } => print_query(rt, alloc, *image, Query::Look { json: *json }, screen.styled, writer),
        ImageJob::Map(job) => tell_map(rt, alloc, job, writer, faults),
        ImageJob::Where(job) => tell_where(rt, alloc, job, writer, faults),
        ImageJob::WherePath { image, path, json } => {
            print_query(rt, alloc, *image, Query::Entry { path: *path, json: *json }, screen.styled, writer)
        }
        ImageJob::ShowBoot { image, json } => show_boot(rt, alloc, *image, *json, writer),
        ImageJob::List(job) => print_query(rt, alloc, job.image, Query::List(job), screen.styled, writer),
        ImageJob::Print { image, path } => print_query(rt, alloc, *image, Query::Bytes(*path), screen.styled, writer),
        ImageJob::Check(job) => check_images(rt, alloc, job, screen.progress, writer, faults),
        ImageJob::Extract(job) => take_out(rt, alloc, job),
        ImageJob::ExtractBundle { image, to } => take_bundle(rt, alloc, *image, *to, faults),
        ImageJob::AddBundle { target, from } => put_bundle(rt, alloc, *target, *from, writer),
        ImageJob::Salvage(job) => take_rescue(rt, alloc, job, writer, faults),
        ImageJob::Undelete(job) => undelete(rt, alloc, job, writer, faults),
        ImageJob::Change(job) => change(rt, alloc, job, writer, faults),
        ImageJob::Validate { target, force, json } => validate_file(rt, alloc, *target, *force, *json, writer),
        ImageJob::Boot { target, block } => change_boot(rt, alloc, *target, *block, writer),
        ImageJob::SaveBoot { image, file } => save_boot(rt, alloc, *image, *file, writer),
        ImageJob::Serve(job) => serve(rt, alloc, job, writer, faults),
    }
}
