//! Image files: read up to a bound, checked, locked during changes, and replaced whole.
ghost use Rattle.std.specs.Prelude.{◌≡◌, ◌↔◌, IfErr, IfOk, IsFalse, IsTrue, MatchResult, Some, codes};
ghost use Rattle.std.specs.Io.KnownBytes.{Keeps};
ghost use Rattle.ados_model.specs.Accepted.{Accepts};
ghost use Rattle.adf_serve.specs.Faults.{IsNoImage, IsNoRefusal, IsRefusedFor};
ghost use Rattle.adf_serve.specs.NewImages.{IsNew, Made, WritesMade, out_of};

use crate::fault::CommandFault;
use crate::output::{is_output, put_image};
use crate::refusal::Refusal;
use adf_block::Image;
use adf_cli::{ImageFile, Rewrite};
use adf_host::{
    HeldFile, HoldFault, PromptFiles, ReadReason, hold, hold_target, read_image_file, replace_file,
    why_no_image, why_unreadable,
};
use adf_io::{LoadFault, Loaded};
use ados_volume::{Volume, check};
use std::alloc::Global;
use std::fs::{self, File};
use std::io::Write;
use std::rt::{Clock, Files};

/// The image of a file.
pub(crate) fn read_image<'a, R: Files>(
    rt: &R,
    alloc: Global,
    file: ImageFile<'a>,
) -> Result<Image, CommandFault<'a>>
    ensures { IfErr result IsNoImage }
{
    match read_loaded(rt, alloc, file) {
        Ok(loaded) => Ok(loaded.image),
        Err(fault) => Err(fault),
    }
}

/// The image of a file, and what is behind it.
pub(crate) fn read_loaded<'a, R: Files>(
    rt: &R,
    alloc: Global,
    file: ImageFile<'a>,
) -> Result<Loaded, CommandFault<'a>>
    ensures { IfErr result IsNoImage }
{
    match read_image_file(rt, alloc, file.path, file.blocks) {
        Ok(loaded) => Ok(loaded),
        Err(fault) => Err(unread(rt, fault, file)),
    }
}

/// Why no image was read from a file.
pub(crate) fn unread<'a, R: Files>(
    rt: &R,
    fault: LoadFault,
    file: ImageFile<'a>,
) -> CommandFault<'a>
    ensures { IsNoImage result }
{
    let ImageFile { path, blocks } = file;
    match fault {
        LoadFault::Read => CommandFault::Read(path, why_no_image(rt, path, blocks)),
        LoadFault::Memory => CommandFault::Memory,
        LoadFault::TurnLimit => CommandFault::Endless(path),
        LoadFault::Size(refused) => CommandFault::Refused(Refusal::of_size(refused.fault)),
    }
}

/// The volume of an image file.
pub(crate) fn open_volume<'a, R: Files>(
    rt: &R,
    alloc: Global,
    file: ImageFile<'a>,
) -> Result<Volume, CommandFault<'a>> {
    let image = read_image(rt, alloc, file)?;
    accept(alloc, image)
}

/// The volume of an image, if it is accepted.
pub(crate) fn accept<'a>(alloc: Global, image: Image) -> Result<Volume, CommandFault<'a>>
    ensures { MatchResult result (λ volume. Accepts image volume.was_validated volume.image) (IsRefusedFor image) }
{
    match check(alloc, image) {
        Ok(volume) => Ok(volume),
        Err(rejected) => Err(CommandFault::from(rejected.fault)),
    }
}

/// Writes an image, and then what is behind it, whole in place of a file. The file is locked if possible.
pub(crate) fn write_image<'a, R: Files<File = File> + PromptFiles>(
    rt: &R,
    alloc: Global,
    image: &Image,
    behind: &[u8],
    file: &'a str,
    held: Option<&HeldFile>,
) -> Result<(), CommandFault<'a>>
    ensures no_refusal { IfErr result IsNoRefusal }
    ensures no_image { IfErr result IsNoImage }
{
    match replace_file(rt, alloc, file, held, image, behind) {
        Ok(()) => Ok(()),
        Err(fault) => Err(CommandFault::Write(file, fault)),
    }
}

/// Writes an image, and then what is behind it, whole in place of a file that was locked for it, if it exists.
pub(crate) fn write_held<'a, R: Files<File = File> + PromptFiles>(
    rt: &R,
    alloc: Global,
    image: &Image,
    behind: &[u8],
    file: &'a str,
    held: Result<Option<HeldFile>, HoldFault>,
) -> Result<(), CommandFault<'a>>
    ensures no_refusal { IfErr result IsNoRefusal }
    ensures no_image { IfErr result IsNoImage }
{
    match held {
        Ok(held) => write_image(rt, alloc, image, behind, file, held.as_ref()),
        Err(fault) => Err(CommandFault::Held(file, fault)),
    }
}

/// An image file that a command changes. It is locked, and so is the file to write, until this is dropped.
pub(crate) struct Work<'a> {
    held: HeldFile,
    /// What is behind the image in its file.
    behind: Vec<u8>,
    out: &'a str,
    held_out: Option<HeldFile>,
    /// Whether the new image goes to standard output.
    to_output: bool,
}

/// It does what a derived one does, as one step of each proof in which the work is dropped.
impl Drop for Work<'_> {
    fn drop(self) {
        let Work {
            held: _held,
            behind: _behind,
            out: _,
            held_out: _held_out,
            to_output: _,
        } = self;
    }
}

impl<'a> Work<'a> {
    /// Starts to change an image file: locks it, and reads it once. The new image goes to `out`, or else to the file itself, and
    /// what is behind the image goes with it.
    pub(crate) fn begin<R: Files<File = File> + PromptFiles + Clock>(
        rt: &R,
        alloc: Global,
        target: Rewrite<'a>,
    ) -> Result<(Work<'a>, Image), CommandFault<'a>>
        ensures fault { IfErr result IsNoImage }
        ensures output { IfOk result (λ begun. IsTrue begun.0.to_output ↔ (out_of target.entry ≡ Some (codes "-"))) }
    {
        let file = target.image;
        let mut work = Work::lock(rt, alloc, target)?;
        match work.held.read_image(alloc, file.blocks) {
            Ok(Loaded { image, behind }) => {
                work.behind = behind;
                Ok((work, image))
            }
            Err(fault) => Err(unread(rt, fault, file)),
        }
    }

    /// Locks an image file to change, and the file for the new image: `out`, or else the file itself.
    fn lock<R: Files<File = File> + PromptFiles + Clock>(
        rt: &R,
        alloc: Global,
        target: Rewrite<'a>,
    ) -> Result<Work<'a>, CommandFault<'a>>
        ensures fault { IfErr result IsNoImage }
        ensures output { IfOk result (λ work. IsTrue work.to_output ↔ (out_of target.entry ≡ Some (codes "-"))) }
    {
        let image = target.image.path;
        let to_output = goes_to_output(target);
        let held = match hold(rt, image) {
            Ok(held) => held,
            Err(HoldFault::Open) => {
                return Err(CommandFault::Read(image, why_unreadable(rt, image)));
            }
            Err(fault) => return Err(CommandFault::Held(image, fault)),
        };
        if fs::metadata(rt, image).is_ok_and(|found| found.is_dir()) {
            return Err(CommandFault::Read(image, ReadReason::Directory));
        }
        let out = target.out.unwrap_or(image);
        // The file that was locked is the one to write, whatever its path leads to by now.
        let target_out = match target.out {
            Some(_) if to_output => Ok(None),
            Some(out) => hold_target(rt, out, Some(&held)),
            None => held.again().map(Some),
        };
        let mut held_out = match target_out {
            Ok(held_out) => held_out,
            Err(fault) => return Err(CommandFault::Held(out, fault)),
        };
        if target.out.is_some() && !target.over && !to_output {
            refuse_no_image(rt, out, held_out.as_mut())?;
        }
        Ok(Work {
            held,
            behind: Vec::new(alloc),
            out,
            held_out,
            to_output,
        })
    }

    /// Writes the new image, to standard output if that was asked for, and ends the work.
    pub(crate) fn put<R: Files<File = File> + PromptFiles, W: Write>(
        self,
        rt: &R,
        alloc: Global,
        image: &Image,
        writer: &mut W,
    ) -> Result<(), CommandFault<'a>>
        ensures output { IsTrue self.entry.to_output → (made : Made) → IsNew made image.now → WritesMade made (W.contents writer.old) (W.contents writer.new) result }
        ensures file { IsFalse self.entry.to_output → Keeps (W.contents writer.old) (W.contents writer.new) }
        ensures fault { IfErr result IsNoRefusal }
    {
        if self.to_output {
            return put_image(alloc, image, &self.behind, writer);
        }
        self.end(rt, alloc, image)
    }

    /// Writes the new image and ends the work.
    pub(crate) fn end<R: Files<File = File> + PromptFiles>(
        self,
        rt: &R,
        alloc: Global,
        image: &Image,
    ) -> Result<(), CommandFault<'a>>
        ensures { IfErr result IsNoRefusal }
    {
        write_image(
            rt,
            alloc,
            image,
            &self.behind,
            self.out,
            self.held_out.as_ref(),
        )
    }
}

/// Whether a changed image goes to standard output.
fn goes_to_output(target: Rewrite<'_>) -> bool
    ensures { IsTrue result ↔ (out_of target.entry ≡ Some (codes "-")) }
{
    match target.out {
        Some(file) => is_output(file),
        None => false,
    }
}

/// Refuses to write over a regular file that is neither empty nor begins as an image does. One that cannot be read may be
/// precious too.
pub(crate) fn refuse_no_image<'a, R: Files<File = File> + PromptFiles>(
    rt: &R,
    out: &'a str,
    held: Option<&mut HeldFile>,
) -> Result<(), CommandFault<'a>>
    ensures { IfErr result IsNoImage }
{
    match held {
        Some(held) => match held.may_be_image() {
            Ok(true) => Ok(()),
            Ok(false) => Err(CommandFault::NotAnImage(out)),
            Err(error) => Err(CommandFault::Read(out, ReadReason::from(error))),
        },
        None if fs::metadata(rt, out).is_ok_and(|found| found.is_file()) => {
            Err(CommandFault::Read(out, why_unreadable(rt, out)))
        }
        None => Ok(()),
    }
}
