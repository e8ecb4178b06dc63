//! What is printed of an image that another command works on.
use adf_archive::tell_held;
use adf_cli::ImageJob;
use std::fs::File;
use std::io::Write;
use std::rt::Files;

/// Prints a line for the image file that a job only reads, if another command or a mount has it locked. The check of an archive
/// prints its lines by itself, since it finds the images.
pub(crate) fn tell_job<R: Files<File = File>, F: Write>(
    rt: &R,
    job: &ImageJob<'_>,
    faults: &mut F,
) {
    if !only_reads(job) {
        return;
    }
    if let Some(image) = job.image() {
        tell_held(rt, image.path, faults);
    }
}

/// Whether a job reads an image file without a lock on it.
fn only_reads(job: &ImageJob<'_>) -> bool {
    match job {
        ImageJob::Blank { .. }
        | ImageJob::Check(_)
        | ImageJob::Change(_)
        | ImageJob::AddBundle { .. }
        | ImageJob::Validate { .. }
        | ImageJob::Boot { .. } => false,
        ImageJob::Info { .. }
        | ImageJob::Show { .. }
        | ImageJob::Map(_)
        | ImageJob::Where(_)
        | ImageJob::WherePath { .. }
        | ImageJob::List(_)
        | ImageJob::Extract(_)
        | ImageJob::Salvage(_)
        | ImageJob::Undelete(_)
        | ImageJob::ExtractBundle { .. }
        | ImageJob::Print { .. }
        | ImageJob::SaveBoot { .. }
        | ImageJob::ShowBoot { .. }
        | ImageJob::Serve(_) => true,
    }
}
