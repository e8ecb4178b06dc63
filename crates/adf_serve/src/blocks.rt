//! The command `where`.
ghost use Rattle.std.specs.Prelude.{◌≡◌, ◌≢◌, ℕ, List, [], IfErr, OnOk};
ghost use Rattle.adf_block.specs.Image.{block_count};
ghost use Rattle.ados_model.specs.Accepted.{Accepts};
ghost use Rattle.adf_serve.specs.Commands.{TellsOf};
ghost use Rattle.adf_serve.specs.Faults.{IsNoRefusal};
ghost use Rattle.adf_serve.specs.declared.fault.CommandFault.TheVariants.{LeftOut, NotWhole};
ghost use Rattle.adf_io.specs.Prefix.{Writes};
ghost use Rattle.adf_serve.specs.Placed.{DoesWhere, IsPlacedIn, LeavesPlaced};
ghost use Rattle.adf_serve.specs.Refusals.{IsImageRefusal};
ghost use Rattle.adf_serve.specs.Texts.{AreEntryBlocks};
ghost use Rattle.adf_serve.specs.Unread.{AreMarksOf};

use crate::bad::unread_blocks;
use crate::fault::CommandFault;
use crate::images::{accept, read_image};
use crate::moving::listed_object;
use crate::output::tell;
use crate::refusal::Refusal;
use adf_archive::ReadImages;
use adf_block::Image;
use adf_cli::WhereJob;
use adf_host::PromptFiles;
use adf_text::print_line;
use adf_where::{Asking, WhereFault, where_path_text, write_faulty_where, write_where};
use ados_volume::{Volume, check};
use std::alloc::Global;
use std::fs::File;
use std::io::Write;
use std::rt::Files;

/// A job, and for each block of its image whether a list names it as one that could not be read; nothing without a list.
#[derive(Clone, Copy)]
struct Asked<'b, 'a> {
    job: &'b WhereJob<'a>,
    unread: &'b [bool],
}

/// Prints who owns blocks of an image file. Of an image that is refused, it prints the refusal, the places that
/// name the blocks, and their faults; and on `faults` why it is refused.
pub(crate) fn tell_where<'a, R, W, F>(
    rt: &R,
    alloc: Global,
    job: &WhereJob<'a>,
    writer: &mut W,
    faults: &mut F,
) -> Result<(), CommandFault<'a>>
where
    R: Files<File = File> + PromptFiles + ReadImages,
    W: Write,
    F: Write,
    ensures { DoesWhere job.now (W.contents writer.old) (W.contents writer.new) result }
{
    let image = read_image(rt, alloc, job.image)?;
    let unread = unread_blocks(rt, alloc, job.bad, image.blocks())?;
    let asked = Asked {
        job,
        unread: &unread,
    };
    let rejected = match check(alloc, image) {
        Ok(volume) => return tell_owners(alloc, &volume, asked, writer),
        Err(rejected) => rejected,
    };
    let Some(refusal) = Refusal::of_volume(rejected.fault) else {
        return Err(CommandFault::Memory);
    };
    tell_placed(alloc, &rejected.image, refusal, asked, writer, faults)?;
    refusal.explain(rt, alloc, job.image, faults);
    Err(CommandFault::NotWhole)
}

impl<'b, 'a> Asked<'b, 'a> {
    /// What it asks of blocks.
    fn asking(self) -> Asking<'b>
        ensures words { result.words.now ≡ self.entry.job.now.blocks.items }
        ensures unread { result.unread.now ≡ self.entry.unread.now }
        ensures json { result.json ≡ self.entry.job.now.json }
    {
        Asking {
            words: &self.job.blocks,
            unread: self.unread,
            json: self.job.json,
        }
    }
}

/// Prints who owns blocks of a volume.
fn tell_owners<'a, W: Write>(
    alloc: Global,
    volume: &Volume,
    asked: Asked<'_, 'a>,
    writer: &mut W,
) -> Result<(), CommandFault<'a>>
    ensures { (image : List ℕ) → Accepts image volume.now.was_validated volume.now.image → AreMarksOf asked.entry.job.now.bad (block_count image) [] asked.entry.unread.now →
        DoesWhere asked.entry.job.now (W.contents writer.old) (W.contents writer.new) result }
{
    let job = asked.job;
    let blocks = volume.image().blocks();
    match write_where(alloc, volume, asked.asking(), writer) {
        Ok(()) => Ok(()),
        Err(fault) => Err(no_block(alloc, fault, job.image.path, blocks)),
    }
}

/// Prints why an image is refused, and then the places that name blocks of it, and the faults of these blocks. If
/// an argument names no block, it says so on `faults`, and the refusal is what is left.
fn tell_placed<'a, W: Write, F: Write>(
    alloc: Global,
    image: &Image,
    refusal: Refusal,
    asked: Asked<'_, 'a>,
    writer: &mut W,
    faults: &mut F,
) -> Result<(), CommandFault<'a>>
    requires { AreMarksOf asked.job.now.bad (block_count image.now) [] asked.unread.now }
    ensures ok { OnOk result (IsImageRefusal image.now refusal → Writes (W.contents writer.old) (W.contents writer.new) (IsPlacedIn asked.entry.job.now image.now)) }
    ensures fault { IfErr result (λ fault. IsImageRefusal image.now refusal → LeavesPlaced asked.entry.job.now image.now (W.contents writer.old) (W.contents writer.new) fault) }
{
    let job = asked.job;
    let why = refusal.reason();
    match write_faulty_where(alloc, image, asked.asking(), why, writer) {
        Ok(()) => Ok(()),
        Err(WhereFault::NoBlock(word)) => {
            let fault = no_block(
                alloc,
                WhereFault::NoBlock(word),
                job.image.path,
                image.blocks(),
            );
            print_line(faults, format_args!("adf_serve: {fault}"));
            Err(CommandFault::Refused(refusal))
        }
        Err(WhereFault::Memory) => Err(CommandFault::Memory),
        Err(WhereFault::Output) => Err(CommandFault::Output),
    }
}

/// The fault of an argument that names no block of a file's image, which has so many; or that of memory or of the output.
fn no_block<'a>(alloc: Global, fault: WhereFault, file: &'a str, blocks: u32) -> CommandFault<'a>
    ensures plain { IsNoRefusal result }
    ensures other { result ≢ NotWhole }
    ensures all { result ≢ LeftOut }
{
    match fault {
        WhereFault::NoBlock(word) => match word.text(alloc) {
            Ok(text) => CommandFault::NoBlock(file, text, blocks),
            Err(_) => CommandFault::Memory,
        },
        WhereFault::Memory => CommandFault::Memory,
        WhereFault::Output => CommandFault::Output,
    }
}

/// Prints all blocks of a file or directory in an image.
pub(crate) fn tell_entry<'a, W: Write>(
    alloc: Global,
    image: Image,
    path: &'a str,
    json: bool,
    writer: &mut W,
) -> Result<(), CommandFault<'a>>
    ensures { TellsOf (AreEntryBlocks json path.now) (AreEntryBlocks json path.now) image (W.contents writer.old) (W.contents writer.new) result }
{
    let mut volume = accept(alloc, image)?;
    let key = listed_object(alloc, &mut volume, Some(path))?;
    let text = where_path_text(alloc, &volume, key, json)?;
    tell(writer, &text)
}
