//! The command `extract --damaged`.
ghost use Rattle.std.specs.Prelude.{◌≡◌, ℕ, Bool, List, [], None, Some, IfErr, IfOk, is_some};
ghost use Rattle.adf_rescue.specs.Rescue.{IsRescue};
ghost use Rattle.adf_serve.specs.Faults.{IsNoImage};
ghost use Rattle.adf_serve.specs.Rescues.{AreHoles, DoesRescue, IsMendedFor, IsRescueEnd};

use crate::bad::with_bad;
use crate::boot::tell_boot;
use crate::fault::CommandFault;
use crate::images::{read_image, unread};
use crate::kind_line::tell_kind;
use crate::rescue_out::{hold_out, write_out};
use adf_block::Image;
use adf_cli::{ImageFile, SalvageJob};
use adf_host::{PromptFiles, read_filled_file};
use adf_io::{Filled, PrintFault, write_output};
use adf_record::Grouped;
use adf_rescue::{Doubt, Rescue, RescueFault, extract_damaged};
use adf_text::print_line;
use std::alloc::Global;
use std::fs::File;
use std::io::Write;
use std::rt::{Clock, Files};

/// Writes what can be told of an image file to files and directories of the host, unless the job only lists, or to a new image, and
/// reports on it.
pub(crate) fn take_rescue<'a, R, W, F>(
    rt: &R,
    alloc: Global,
    job: &SalvageJob<'a>,
    writer: &mut W,
    faults: &mut F,
) -> Result<(), CommandFault<'a>>
where
    R: Files<File = File> + PromptFiles + Clock,
    W: Write,
    F: Write,
    ensures { DoesRescue job.now (W.contents writer.old) (W.contents writer.new) result }
{
    let out = hold_out(rt, job)?;
    let (image, holes) = read_holed(rt, alloc, job, faults)?;
    tell_boot(&image, faults);
    let boot = image.boot_kind();
    let rescue = rescue_of(rt, alloc, image, holes, job)?;
    tell_kind(boot, rescue.format(), faults);
    let all = write_out(rt, alloc, &rescue, out, faults)?;
    tell_rescue(alloc, &rescue, job, all, writer, faults)
}

/// The image of a job, and its holes: blocks of which the file lacks bytes, and those that the list of bad blocks names.
fn read_holed<'a, R: Files, F: Write>(
    rt: &R,
    alloc: Global,
    job: &SalvageJob<'a>,
    faults: &mut F,
) -> Result<(Image, Vec<bool>), CommandFault<'a>>
    ensures holes { IfOk result (λ found. AreHoles job.now found.0 found.1.items) }
    ensures fault { IfErr result IsNoImage }
{
    let (image, missing) = read_filled(rt, alloc, job.image, faults)?;
    let holes = with_bad(rt, alloc, job.bad, image.blocks(), missing)?;
    Ok((image, holes))
}

/// The image of a file, and for each block whether the file lacks bytes of it. If its first blocks are the image and some are missing,
/// these are zeros, and a line on `faults` says so.
fn read_filled<'a, R: Files, F: Write>(
    rt: &R,
    alloc: Global,
    file: ImageFile<'a>,
    faults: &mut F,
) -> Result<(Image, Vec<bool>), CommandFault<'a>>
    ensures missing { IfOk result (λ found. file.entry.blocks ≡ None → found.1.items ≡ []) }
    ensures fault { IfErr result IsNoImage }
{
    let ImageFile { path, blocks } = file;
    let Some(blocks) = blocks else {
        let image = read_image(rt, alloc, file)?;
        return Ok((image, Vec::new(alloc)));
    };
    match read_filled_file(rt, alloc, path, blocks) {
        Ok(filled) => {
            tell_missing(path, blocks, &filled, faults);
            Ok((filled.image, filled.holes))
        }
        Err(fault) => {
            let blocks = None;
            Err(unread(rt, fault, ImageFile { path, blocks }))
        }
    }
}

/// Prints how many bytes of the blocks of an image its file has, if some are missing.
fn tell_missing<F: Write>(path: &str, blocks: u32, filled: &Filled, faults: &mut F) {
    if filled.missing == 0 {
        return;
    }
    let bytes = filled.image.as_bytes().len();
    let (all, found) = (
        Grouped(bytes as u64),
        Grouped(bytes.saturating_sub(filled.missing) as u64),
    );
    print_line(
        faults,
        format_args!(
            "adf_serve: '{path}' has {found} of the {all} bytes of its {} blocks: missing bytes are read as zeros",
            Grouped(u64::from(blocks))
        ),
    );
}

/// Reports on a rescue, and prints on `faults` what `whole` means in FFS, why entries are doubtful or cut short, which bytes of files are
/// missing, and which used blocks belong to nothing. `all` says whether all that was saved is in a new image, if one was asked for.
fn tell_rescue<'a, W: Write, F: Write>(
    alloc: Global,
    rescue: &Rescue,
    job: &SalvageJob<'a>,
    all: bool,
    writer: &mut W,
    faults: &mut F,
) -> Result<(), CommandFault<'a>>
    ensures { (holes : List Bool) (image : List ℕ) → AreHoles job.now image holes → IsRescue holes (is_some job.now.bad) image rescue.now → IsMendedFor job.now rescue.now.salvage (Some all)
        → DoesRescue job.now (W.contents writer.old) (W.contents writer.new) result }
{
    tell_sums(rescue, faults);
    tell_doubts(alloc, rescue, faults);
    tell_unaccounted(alloc, rescue, faults);
    match rescue.tell(alloc, job.json, writer) {
        Ok(true) if all => Ok(()),
        Ok(true) => Err(CommandFault::LeftOut),
        Ok(false) => Err(CommandFault::NotWhole),
        Err(PrintFault::Write) => Err(CommandFault::Output),
        Err(PrintFault::Memory) => Err(CommandFault::Memory),
    }
}

/// Prints what `whole` means of a disk whose data blocks have no checksums.
fn tell_sums<F: Write>(rescue: &Rescue, faults: &mut F) {
    if !rescue.is_summed() {
        print_line(
            faults,
            format_args!(
                "adf_serve: the data blocks of this FFS disk have no checksums: 'whole' means that every pointer and header is right"
            ),
        );
    }
}

/// Prints why entries are doubtful or cut short, and which bytes of them are missing.
fn tell_doubts<F: Write>(alloc: Global, rescue: &Rescue, faults: &mut F) {
    for place in 0..rescue.len() {
        if let Ok(Some((path, doubt))) = rescue.doubt_at(alloc, place) {
            tell_doubt(alloc, rescue, path.as_str(), doubt, faults);
        }
        tell_missing_at(alloc, rescue, place, faults);
    }
}

/// Prints why the entry with this path is doubtful or cut short.
fn tell_doubt<F: Write>(alloc: Global, rescue: &Rescue, path: &str, doubt: Doubt, faults: &mut F) {
    let Ok(other) = rescue.other_path(alloc, Some(doubt)) else {
        return;
    };
    if let Ok(reason) = doubt.reason(alloc, other.as_str()) {
        let (word, reason) = (doubt.word(), reason.as_str());
        print_line(
            faults,
            format_args!("adf_serve: '{path}' is {word}: {reason}"),
        );
    }
}

/// Prints which bytes of the entry at a position are missing, if some are.
fn tell_missing_at<F: Write>(alloc: Global, rescue: &Rescue, place: usize, faults: &mut F) {
    if let Ok(Some((path, missing))) = rescue.missing_at(alloc, place) {
        let (path, missing) = (path.as_str(), missing.as_str());
        print_line(faults, format_args!("adf_serve: '{path}': {missing}"));
    }
}

/// Prints the numbers of the blocks that are used and belong to nothing that is told, if there are some.
fn tell_unaccounted<F: Write>(alloc: Global, rescue: &Rescue, faults: &mut F) {
    if let Ok(ranges) = rescue.unaccounted_ranges(alloc) {
        if !ranges.is_empty() {
            print_line(
                faults,
                format_args!("adf_serve: blocks in use that belong to no reported entry:"),
            );
            let _ = write_output(&ranges, faults);
        }
    }
}

/// The rescue of an image with these holes.
fn rescue_of<'a, R: Files<File = File> + PromptFiles>(
    rt: &R,
    alloc: Global,
    image: Image,
    holes: Vec<bool>,
    job: &SalvageJob<'a>,
) -> Result<Rescue, CommandFault<'a>>
    ensures told { IfOk result (λ rescue. IsRescue holes.items (is_some job.now.bad) image rescue) }
    ensures fault { IfErr result (IsRescueEnd job.now.list) }
{
    match extract_damaged(rt, alloc, image, holes, job) {
        Ok(rescue) => Ok(rescue),
        Err(RescueFault::Host(fault)) => Err(CommandFault::Extracted(fault)),
        Err(RescueFault::Memory) => Err(CommandFault::Memory),
    }
}
