//! The commands that write a volume to a directory of the host, and make it again.
ghost use Rattle.adf_serve.specs.NewImages.{PutsMade, out_of};
ghost use Rattle.adf_serve.specs.NewImages.Made.{ABundled};

use crate::boot::tell_boot;
use crate::fault::CommandFault;
use crate::images::{Work, accept, open_volume};
use adf_cli::{ImageFile, Rewrite};
use adf_export::extract_bundle;
use adf_host::PromptFiles;
use adf_import::add_bundle;
use std::alloc::Global;
use std::fs::File;
use std::io::Write;
use std::rt::{Clock, Files};

/// Writes everything in an image file to a new directory of the host, and prints on `faults` what its boot block is.
pub(crate) fn take_bundle<'a, R: Files<File = File> + PromptFiles, F: Write>(
    rt: &R,
    alloc: Global,
    image: ImageFile<'a>,
    to: &'a str,
    faults: &mut F,
) -> Result<(), CommandFault<'a>> {
    let mut volume = open_volume(rt, alloc, image)?;
    match extract_bundle(rt, alloc, &mut volume, to) {
        Ok(()) => {
            tell_boot(volume.image(), faults);
            Ok(())
        }
        Err(fault) => Err(CommandFault::from(fault)),
    }
}

/// Makes the volume that a directory of the host describes, in place of the empty volume of an image file.
pub(crate) fn put_bundle<'a, R: Files<File = File> + PromptFiles + Clock, W: Write>(
    rt: &R,
    alloc: Global,
    target: Rewrite<'a>,
    from: &'a str,
    writer: &mut W,
) -> Result<(), CommandFault<'a>>
    ensures { PutsMade ABundled (out_of target.entry) (W.contents writer.old) (W.contents writer.new) result }
{
    let file = target.image.path;
    let (work, image) = Work::begin(rt, alloc, target)?;
    let old = accept(alloc, image)?;
    let volume = match add_bundle(rt, alloc, &old, from) {
        Ok(volume) => volume,
        Err(fault) => return Err(CommandFault::of_bundle(fault, file)),
    };
    work.put(rt, alloc, volume.image(), writer)
}
