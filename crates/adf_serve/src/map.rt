//! The command `map`.
ghost use Rattle.std.specs.Prelude.{◌≡◌, ◌⊎◌, ℕ, List, [], Err, IfErr, IsTrue, OnOk, false};
ghost use Rattle.adf_block.specs.Image.{block_count};
ghost use Rattle.ados_model.specs.Accepted.{Accepts};
ghost use Rattle.ados_model.specs.declared.fault.FaultKind.TheVariants.{NotADosDisk, UnsupportedKind};
ghost use Rattle.adf_io.specs.Prefix.{Writes};
ghost use Rattle.adf_serve.specs.Mapped.{DoesMap, IsMapReport};
ghost use Rattle.adf_serve.specs.Refusals.{IsImageRefusal};
ghost use Rattle.adf_serve.specs.Unread.{AreMarksOf};

use crate::bad::unread_blocks;
use crate::fault::CommandFault;
use crate::images::read_image;
use crate::output::tell;
use crate::refusal::Refusal;
use adf_archive::ReadImages;
use adf_block::Image;
use adf_cli::MapJob;
use adf_host::PromptFiles;
use adf_where::{faulty_map_text, map_text};
use ados_volume::{FaultKind, Volume, check};
use std::alloc::Global;
use std::fs::File;
use std::io::Write;
use std::rt::Files;

/// Prints the map of an image file, with the blocks that the list `bad` names. Of an image that is refused, it first prints the refusal,
/// and on `faults` why. If that is another kind of disk, it prints nothing else: no block of it is one of this file system.
pub(crate) fn tell_map<'a, R, W, F>(
    rt: &R,
    alloc: Global,
    job: &MapJob<'a>,
    writer: &mut W,
    faults: &mut F,
) -> Result<(), CommandFault<'a>>
where
    R: Files<File = File> + PromptFiles + ReadImages,
    W: Write,
    F: Write,
    ensures { DoesMap job.now (W.contents writer.old) (W.contents writer.new) result }
{
    let image = read_image(rt, alloc, job.image)?;
    let unread = unread_blocks(rt, alloc, job.bad, image.blocks())?;
    let rejected = match check(alloc, image) {
        Ok(volume) => return tell_volume_map(alloc, &volume, job, &unread, writer),
        Err(rejected) => rejected,
    };
    let Some(refusal) = Refusal::of_volume(rejected.fault) else {
        return Err(CommandFault::Memory);
    };
    if is_of_another_kind(rejected.fault.kind) {
        return Err(CommandFault::Refused(refusal));
    }
    tell_faulty_map(alloc, &rejected.image, refusal, job, &unread, writer)?;
    refusal.explain(rt, alloc, job.image, faults);
    Err(CommandFault::NotWhole)
}

/// Whether a fault says that a disk is none of this file system.
fn is_of_another_kind(kind: FaultKind) -> bool
    ensures { IsTrue result → (kind ≡ NotADosDisk) ⊎ (kind ≡ UnsupportedKind) }
{
    matches!(kind, FaultKind::NotADosDisk | FaultKind::UnsupportedKind)
}

/// Prints the map of a volume, of which some blocks could not be read.
fn tell_volume_map<'a, W: Write>(
    alloc: Global,
    volume: &Volume,
    job: &MapJob<'a>,
    unread: &[bool],
    writer: &mut W,
) -> Result<(), CommandFault<'a>>
    ensures { (image : List ℕ) → Accepts image volume.now.was_validated volume.now.image → AreMarksOf job.now.bad (block_count image) [] unread.now →
        DoesMap job.now (W.contents writer.old) (W.contents writer.new) result }
{
    let text = map_text(alloc, volume, job.form, unread)?;
    tell(writer, &text)
}

/// Prints the map of a refused image, of which some blocks could not be read, after the refusal.
fn tell_faulty_map<'a, W: Write>(
    alloc: Global,
    image: &Image,
    refusal: Refusal,
    job: &MapJob<'a>,
    unread: &[bool],
    writer: &mut W,
) -> Result<(), CommandFault<'a>>
    requires { AreMarksOf job.now.bad (block_count image.now) [] unread.now }
    ensures ok { OnOk result (IsImageRefusal image.now refusal → Writes (W.contents writer.old) (W.contents writer.new) (IsMapReport job.now false)) }
    ensures fault { IfErr result (λ fault. IsImageRefusal image.now refusal → DoesMap job.now (W.contents writer.old) (W.contents writer.new) (Err fault)) }
{
    let text = faulty_map_text(alloc, image, refusal.reason(), job.form, unread)?;
    tell(writer, &text)
}
