//! What a command prints, and its exit status.
ghost use Rattle.std.specs.Prelude.{◌≡◌, ◌↔◌, ◌++◌, ℕ, Bool, List, Option, Err, IsTrue, OnOk, OnErr, IfErr, IfOk, codes};
ghost use Rattle.std.specs.Io.KnownBytes.{Appends};
ghost use Rattle.adf_block.specs.Whole.{IsImage};
ghost use Rattle.adf_io.specs.Prefix.{WritesFront};
ghost use Rattle.adf_cli.specs.declared.job.ImageJob.{ImageJob};
ghost use Rattle.adf_serve.specs.Commands.{DoesJob, EndsJob, TellsJob, prints_json};
ghost use Rattle.adf_serve.specs.NewImages.{IsNew, Made, WritesMade};
ghost use Rattle.adf_serve.specs.Faults.{IsNoRefusal};
ghost use Rattle.adf_serve.specs.declared.fault.CommandFault.TheVariants.{Output};

use crate::fault::CommandFault;
use crate::json_jobs::prints_json;
use crate::outlet::SeesReader;
use adf_archive::ReadImages;
use adf_block::Image;
use adf_block::layout::BLOCK_BYTES;
use adf_cli::{ImageJob, STANDARD_STREAM};
use adf_io::write_output;
use adf_text::print_line;
use std::alloc::{AllocError, Global};
use std::io::Write;
use std::rt::Files;

/// Writes a text to standard output.
pub(crate) fn tell<'a, W: Write>(writer: &mut W, text: &[u8]) -> Result<(), CommandFault<'a>>
    ensures ok { OnOk result (Appends (W.contents writer.old) (W.contents writer.new) text.now) }
    ensures front { OnErr result (WritesFront (W.contents writer.old) (W.contents writer.new) text.now) }
    ensures no_refusal { IfErr result IsNoRefusal }
    ensures output { IfErr result (λ fault. fault ≡ Output) }
{
    match write_output(text, writer) {
        Ok(()) => Ok(()),
        Err(_) => Err(CommandFault::Output),
    }
}

/// Writes an image to standard output, and then what is behind it in its file.
pub(crate) fn put_image<'a, W: Write>(
    alloc: Global,
    image: &Image,
    behind: &[u8],
    writer: &mut W,
) -> Result<(), CommandFault<'a>>
    ensures written { (made : Made) → IsNew made image.now → WritesMade made (W.contents writer.old) (W.contents writer.new) result }
    ensures fault { IfErr result IsNoRefusal }
{
    let bytes = whole_file(alloc, image, behind)?;
    tell(writer, &bytes)
}

/// The bytes of a file with this image, and with what is behind it.
fn whole_file(alloc: Global, image: &Image, behind: &[u8]) -> Result<Vec<u8>, AllocError>
    ensures bytes { IfOk result (λ bytes. bytes.items ≡ image.now ++ behind.now) }
    ensures image { IfOk result (λ _. IsImage image.now) }
{
    let image_bytes = image.blocks() as usize * BLOCK_BYTES as usize;
    let mut bytes = Vec::with_capacity(alloc, image_bytes.saturating_add(behind.len()))?;
    bytes.extend_from_slice(image.as_bytes())?;
    bytes.extend_from_slice(behind)?;
    Ok(bytes)
}

/// Whether the file for an image is standard output.
pub(crate) fn is_output(file: &str) -> bool
    ensures { IsTrue result ↔ (file.now ≡ codes "-") }
{
    file == STANDARD_STREAM
}

/// Ends a job on an image file. Prints a refusal on the writer, in the form of the job's output, and why the image is refused and
/// any other fault on `faults`, but nothing if the output is a pipe that nobody reads any more. Returns the exit status.
pub fn end_job<R: Files + ReadImages, W: Write + SeesReader, F: Write>(
    rt: &R,
    alloc: Global,
    job: &ImageJob<'_>,
    done: Result<(), CommandFault<'_>>,
    writer: &mut W,
    faults: &mut F,
) -> u8
    ensures { (styled : Bool) (old : Option (List ℕ)) → DoesJob styled job.now old (W.contents writer.old) done.entry → EndsJob styled job.now old (W.contents writer.new) result }
{
    let fault = match done {
        Ok(()) => return 0,
        Err(fault) => fault,
    };
    if let (CommandFault::Refused(refusal), Some(file)) = (&fault, job.image()) {
        refusal.explain(rt, alloc, file, faults);
    }
    let last = refuse(alloc, prints_json(job), fault, writer);
    let is_cut = matches!(&last, CommandFault::Output) && writer.has_lost_reader();
    if !is_cut {
        tell_fault(&last, faults);
    }
    last.status()
}

/// Prints a refusal, if the fault of a job is one: a line, or with `json` an object. Returns the fault with which the job ends.
fn refuse<'a, W: Write>(
    alloc: Global,
    json: bool,
    fault: CommandFault<'a>,
    writer: &mut W,
) -> CommandFault<'a>
    ensures { (styled : Bool) (job : ImageJob) (old : Option (List ℕ)) → prints_json job ≡ json → DoesJob styled job old (W.contents writer.old) (Err fault.entry) → TellsJob styled job old (W.contents writer.new) (Err result) }
{
    match fault.line(alloc, json) {
        Ok(None) => fault,
        Ok(Some(line)) => match tell(writer, &line) {
            Ok(()) => fault,
            Err(other) => other,
        },
        Err(error) => CommandFault::from(error),
    }
}

/// Prints a fault, unless the output has it already: refused images, faulty scripts, and the results of `check` and of
/// `extract --damaged`, and what a new image has not.
fn tell_fault<F: Write>(fault: &CommandFault<'_>, faults: &mut F) {
    if !matches!(
        fault,
        CommandFault::Refused(_)
            | CommandFault::Script
            | CommandFault::ImagesRefused
            | CommandFault::NotChecked
            | CommandFault::NotWhole
            | CommandFault::LeftOut
    ) {
        print_line(faults, format_args!("adf_serve: {fault}"));
    }
}
