//! The reports on images as output, and the overall status.
ghost use Rattle.std.specs.Prelude.{◌≡◌, ◌+◌, ◌≤◌, ◌++◌, [], IfErr, OnOk, OnErr, length, map};
ghost use Rattle.std.specs.Io.KnownBytes.{Appends};
ghost use Rattle.std.specs.String.{string_bytes};
ghost use Rattle.adf_io.specs.Prefix.{WritesFront};
ghost use Rattle.adf_archive.specs.Lines.{told_from, told_of};
ghost use Rattle.adf_archive.specs.Status.{IsBroken, IsTally, ends_over, tallied};

use crate::fault::ArchiveFault;
use crate::lines::push_lines;
use crate::objects::push_object;
use crate::report::ImageReport;
use adf_io::write_output;
use adf_record::Grouped;
use adf_text::push_plain;
use std::alloc::{AllocError, Global};
use std::fmt;
use std::fmt::{Display, Formatter};
use std::io::Write;

/// The form of reports.
#[derive(Clone, Copy)]
pub struct Form {
    /// Each report is a JSON object; otherwise lines.
    pub json: bool,
    /// Each line starts with the path, with escapes for its control characters.
    pub paths: bool,
}

/// The overall status of images: how many are accepted, refused, and not checked.
#[derive(Clone, Copy)]
pub struct Tally {
    pub accepted: u64,
    pub refused: u64,
    pub not_checked: u64,
}

impl Tally {
    /// The status of no images.
    pub fn new() -> Tally
        ensures { IsTally [] result }
    {
        Tally {
            accepted: 0,
            refused: 0,
            not_checked: 0,
        }
    }

    /// The status with these images added.
    #[tactic(auto, using(std::proofs::lemmas::List::Sums::fold_more))]
    pub fn add(&mut self, reports: &[ImageReport])
        ensures { self.new ≡ tallied self.old reports.now }
    {
        for report in reports {
            match report {
                ImageReport::Accepted(_) => self.accepted = self.accepted.saturating_add(1),
                ImageReport::Refused(_) | ImageReport::WrongSize(_) => {
                    self.refused = self.refused.saturating_add(1);
                }
                ImageReport::NotChecked(_) => {
                    self.not_checked = self.not_checked.saturating_add(1);
                }
            }
        }
    }

    /// The result of a command over this many images with this status. An image that was not checked counts before one
    /// that is refused. Where there is none, the command fails as if one was not checked.
    pub fn end(self, images: usize) -> Result<(), ArchiveFault>
        ensures { result ≡ ends_over images self }
    {
        if images == 0 || self.not_checked > 0 {
            return Err(ArchiveFault::NotChecked);
        }
        if self.refused > 0 {
            return Err(ArchiveFault::Refused);
        }
        Ok(())
    }
}

impl Display for Tally {
    fn fmt<W: fmt::Write>(&self, f: &mut Formatter<W>) -> fmt::Result {
        let images = self
            .accepted
            .saturating_add(self.refused)
            .saturating_add(self.not_checked);
        write!(
            f,
            "{} {}: {} ok, {} refused, {} unreadable",
            Grouped(images),
            if images == 1 { "image" } else { "images" },
            Grouped(self.accepted),
            Grouped(self.refused),
            Grouped(self.not_checked)
        )
    }
}

/// Writes the reports on images, in order, or a prefix if the writer fails. Their paths start at a position of the list.
pub fn tell_reports<W: Write>(
    alloc: Global,
    paths: &[String],
    start: usize,
    reports: &[ImageReport],
    form: Form,
    writer: &mut W,
) -> Result<(), ArchiveFault>
    requires { start + length reports.now ≤ length paths.now }
    ensures ok { OnOk result (Appends (W.contents writer.old) (W.contents writer.new) (told_from form (map string_bytes paths.now) start reports.now)) }
    ensures front { OnErr result (WritesFront (W.contents writer.old) (W.contents writer.new) (told_from form (map string_bytes paths.now) start reports.now)) }
    ensures broken { IfErr result IsBroken }
{
    let mut text = Vec::new(alloc);
    for place in 0..reports.len() {
        push_told(
            alloc,
            &mut text,
            paths[start + place].as_str(),
            &reports[place],
            form,
        )?;
    }
    match write_output(&text, writer) {
        Ok(()) => Ok(()),
        Err(_) => Err(ArchiveFault::Output),
    }
}

/// Appends the report on an image.
fn push_told(
    alloc: Global,
    text: &mut Vec<u8>,
    path: &str,
    report: &ImageReport,
    form: Form,
) -> Result<(), AllocError>
    ensures { OnOk result (text.new.items ≡ text.old.items ++ told_of form path.now report.now) }
{
    if form.json {
        return push_object(alloc, text, path, report);
    }
    if !form.paths {
        return push_lines(alloc, text, b"", report);
    }
    let mut front = Vec::new(alloc);
    push_plain(&mut front, path)?;
    front.push(b'\t')?;
    push_lines(alloc, text, &front, report)
}
