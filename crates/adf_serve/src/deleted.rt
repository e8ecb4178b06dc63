//! The command `undelete`.
ghost use Rattle.std.specs.Prelude.{◌≡◌, ℕ, List, IfOk};
ghost use Rattle.adf_rescue.specs.Undelete.{IsUndeleteFault};
ghost use Rattle.adf_rescue.specs.declared.undelete_fault.UndeleteFault.TheVariants.{NoTrustedBitmap};
ghost use Rattle.adf_serve.specs.Deleted.{DoesUndelete, untrusted_text};

use crate::fault::CommandFault;
use crate::images::read_image;
use crate::kind_line::tell_kind;
use crate::output::tell;
use adf_block::Image;
use adf_cli::UndeleteJob;
use adf_host::PromptFiles;
use adf_rescue::{UndeleteFault, undelete_entries};
use adf_text::print_line;
use adf_where::{FaultReason, refused_text};
use std::alloc::{AllocError, Global};
use std::fs::File;
use std::io::Write;
use std::rt::Files;

/// Writes deleted entries of the image of a file to files and directories of the host, and prints what is told of each. `faults` gets a
/// line if they are read from another kind of disk than the boot block says, or if the bitmap cannot be trusted.
pub(crate) fn undelete<'a, R: Files<File = File> + PromptFiles, W: Write, F: Write>(
    rt: &R,
    alloc: Global,
    job: &UndeleteJob<'a>,
    writer: &mut W,
    faults: &mut F,
) -> Result<(), CommandFault<'a>>
    ensures { DoesUndelete job.now (W.contents writer.old) (W.contents writer.new) result }
{
    let image = read_image(rt, alloc, job.image)?;
    tell_deleted(rt, alloc, image, job, writer, faults)
}

/// Writes deleted entries of this image, and prints what is told of each.
fn tell_deleted<'a, R: Files<File = File> + PromptFiles, W: Write, F: Write>(
    rt: &R,
    alloc: Global,
    image: Image,
    job: &UndeleteJob<'a>,
    writer: &mut W,
    faults: &mut F,
) -> Result<(), CommandFault<'a>>
    ensures { DoesUndelete job.now (W.contents writer.old) (W.contents writer.new) result }
{
    let boot = image.boot_kind();
    let done = match undelete_entries(rt, alloc, image, job) {
        Ok(done) => done,
        Err(UndeleteFault::NoTrustedBitmap) => return tell_untrusted(alloc, job, writer, faults),
        Err(fault) => return Err(CommandFault::from(fault)),
    };
    tell_kind(boot, done.format(), faults);
    tell(writer, &done.text)
}

/// Prints that the bitmap of an image is not trusted: a line on `faults`, and with `json` an object.
fn tell_untrusted<'a, W: Write, F: Write>(
    alloc: Global,
    job: &UndeleteJob<'a>,
    writer: &mut W,
    faults: &mut F,
) -> Result<(), CommandFault<'a>>
    ensures { (image : List ℕ) → IsUndeleteFault image NoTrustedBitmap → DoesUndelete job.now (W.contents writer.old) (W.contents writer.new) result }
{
    let text = untrusted_text(alloc, job.json)?;
    tell(writer, &text)?;
    let fault = UndeleteFault::NoTrustedBitmap;
    print_line(faults, format_args!("adf_serve: {fault}"));
    Err(CommandFault::NotWhole)
}

/// What standard output has where a bitmap is not trusted: with `json` an object.
fn untrusted_text(alloc: Global, json: bool) -> Result<Vec<u8>, AllocError>
    ensures { IfOk result (λ text. text.items ≡ untrusted_text json) }
{
    if !json {
        return Ok(Vec::new(alloc));
    }
    let reason = FaultReason {
        kind: "UntrustedBitmap",
        block: 0,
    };
    refused_text(alloc, reason, true)
}
