//! The check of one image, as a report.
ghost use Rattle.std.specs.Prelude.{◌≡◌, ◌≤◌, ℕ, List, IfOk, length};
ghost use Rattle.adf_block.specs.Image.{block_count};
ghost use Rattle.ados_model.specs.Accepted.{Accepts};
ghost use Rattle.adf_archive.specs.Report.{IsReportFor, IsReportOfSome, wants_suspects};
ghost use Rattle.adf_archive.specs.Suspects.{AreListMarks};
ghost use Rattle.adf_archive.specs.declared.checking.Detail.{Detail};

use crate::faults::refused;
use crate::found_file::FoundFile;
use crate::reading::ReadImages;
use crate::report::{AcceptedImage, Contents, ImageReport, WhyNot};
use crate::suspects::{Search, list_marks, suspects_of};
use adf_block::Image;
use adf_cli::BadFault;
use adf_io::LoadFault;
use adf_record::counts_of;
use ados_check::accepted_kind;
use ados_model::FaultKind;
use ados_volume::{Rejected, Volume, check, free_blocks};
use std::alloc::{AllocError, Global};

/// What a report contains in addition to the result.
#[derive(Clone, Copy)]
pub struct Detail<'a> {
    /// All faults of the image; otherwise one.
    pub all: bool,
    /// The contents of the volume, and the paths of faults.
    pub contents: bool,
    /// The data blocks of files that hold nothing but a filler.
    pub filler: bool,
    /// The blocks that a list names and that are not free, by the bytes of the list.
    pub bad: Option<&'a [u8]>,
}

impl Detail<'_> {
    /// Whether suspect blocks are reported.
    fn wants_suspects(self) -> bool
        ensures { result ≡ wants_suspects self.entry }
    {
        self.filler || self.bad.is_some()
    }
}

/// The report on an image file. For most images a sketch decides, if it has all that is reported; the others are read whole.
/// A path that is not the host's leads to no file.
pub fn report_file<R: ReadImages>(
    rt: &R,
    alloc: Global,
    found: FoundFile<'_>,
    is_hosts: bool,
    detail: Detail<'_>,
) -> ImageReport
    ensures { IsReportOfSome detail.entry result }
{
    if !is_hosts {
        return ImageReport::NotChecked(WhyNot::Name);
    }
    if !detail.contents && !detail.wants_suspects() {
        if let Some(sketch) = rt.read_sketch(alloc, found) {
            if let Some(kind) = accepted_kind(alloc, &sketch) {
                return ImageReport::Accepted(AcceptedImage {
                    kind,
                    blocks: sketch.blocks(),
                    validated: false,
                    contents: None,
                    suspects: None,
                });
            }
        }
    }
    match rt.read_image(alloc, found) {
        Ok(image) => report_image(alloc, image, detail),
        Err(fault) => unread(fault),
    }
}

/// The report on a file without an image.
fn unread(fault: LoadFault) -> ImageReport
    ensures { (detail : Detail) → IsReportOfSome detail result }
{
    match fault {
        LoadFault::Size(refused) => ImageReport::WrongSize(refused.fault),
        LoadFault::Read => ImageReport::NotChecked(WhyNot::Read),
        LoadFault::Memory => ImageReport::NotChecked(WhyNot::Memory),
        LoadFault::TurnLimit => ImageReport::NotChecked(WhyNot::Endless),
    }
}

/// The report on an image.
pub fn report_image(alloc: Global, image: Image, detail: Detail<'_>) -> ImageReport
    ensures { IsReportFor detail.entry image result }
{
    match try_report(alloc, image, detail) {
        Ok(report) => report,
        Err(_) => ImageReport::NotChecked(WhyNot::Memory),
    }
}

/// The report on an image, if there is memory for it. An image is not checked if a line of the list names none of its blocks.
fn try_report(alloc: Global, image: Image, detail: Detail<'_>) -> Result<ImageReport, AllocError>
    ensures { IfOk result (IsReportFor detail.entry image) }
{
    let blocks = image.blocks();
    let marks = match list_marks(alloc, blocks, detail.bad) {
        Ok(marks) => marks,
        Err(BadFault::Line(line)) => {
            return Ok(ImageReport::NotChecked(WhyNot::BadLine(line, blocks)));
        }
        Err(BadFault::Memory) => return Err(AllocError),
    };
    match check(alloc, image) {
        Ok(volume) => accepted(alloc, &volume, detail, &marks),
        Err(Rejected { image, fault }) => {
            if fault.kind == FaultKind::NoMemory {
                return Err(AllocError);
            }
            refused(alloc, &image, fault, detail)
        }
    }
}

/// The report on an accepted image, with the marks of the blocks that the list names.
fn accepted(
    alloc: Global,
    volume: &Volume,
    detail: Detail<'_>,
    marks: &[bool],
) -> Result<ImageReport, AllocError>
    requires { length marks.now ≤ block_count volume.now.image }
    ensures { IfOk result (λ report. (old : List ℕ) → Accepts old volume.now.was_validated volume.now.image → AreListMarks detail.entry.bad (block_count old) marks.now → IsReportFor detail.entry old report) }
{
    let contents = if detail.contents {
        Some(Contents {
            name: volume.examine(volume.root()).name,
            counts: counts_of(alloc, volume)?,
            free: free_blocks(volume),
        })
    } else {
        None
    };
    let filler = detail.filler;
    let suspects = if detail.wants_suspects() {
        Some(suspects_of(alloc, volume, Search { filler, marks })?)
    } else {
        None
    };
    let image = volume.image();
    Ok(ImageReport::Accepted(AcceptedImage {
        kind: image.boot_kind(),
        blocks: image.blocks(),
        validated: volume.was_validated(),
        contents,
        suspects,
    }))
}
