//! The commands that take entries out of a volume.
ghost use Rattle.std.specs.Prelude.{◌≡◌, IfErr, IfOk, option_map};
ghost use Rattle.ados_model.specs.Keys.{HasKey};
ghost use Rattle.ados_model.specs.Stands.{Stands};
ghost use Rattle.ados_model.specs.Tree.{Tree};
ghost use Rattle.adf_serve.specs.Texts.{BeginsListOf, IsListed, IsListOf, IsPrintText, shown_form};
ghost use Rattle.adf_serve.specs.Faults.{IsNoImageRefusal, IsToldOut};
ghost use Rattle.adf_serve.specs.Commands.{TellsOf};

use crate::fault::CommandFault;
use crate::images::{accept, open_volume};
use crate::refusal::{Detail, DosRefusal};
use adf_block::Image;
use adf_cli::{ExtractJob, ListForm, ListJob};
use adf_export::{OutFault, extract, locate_word, print_file, write_list};
use adf_host::PromptFiles;
use ados_volume::Volume;
use std::alloc::Global;
use std::fs::File;
use std::io::Write;
use std::rt::Files;

/// Prints the list of a file or directory in an image. With `styled` the names of directories in a list for people are bold.
pub(crate) fn tell_list<'a, W: Write>(
    alloc: Global,
    image: Image,
    job: &ListJob<'a>,
    styled: bool,
    writer: &mut W,
) -> Result<(), CommandFault<'a>>
    ensures { TellsOf (IsListOf styled job.now) (BeginsListOf styled job.now) image (W.contents writer.old) (W.contents writer.new) result }
{
    let mut volume = accept(alloc, image)?;
    let key = listed_object(alloc, &mut volume, job.path)?;
    let form = shown_form(job.form, styled);
    match write_list(alloc, &volume, key, form, job.order, writer) {
        Ok(()) => Ok(()),
        Err(fault) => Err(CommandFault::from(fault)),
    }
}

/// The form of the output for a requested form.
fn shown_form(form: ListForm, styled: bool) -> ListForm
    ensures { result ≡ shown_form styled form }
{
    match (form, styled) {
        (ListForm::Long, true) => ListForm::Bold,
        _ => form,
    }
}

/// The object at a path; the root without one.
pub(crate) fn listed_object<'a>(
    alloc: Global,
    volume: &mut Volume,
    path: Option<&'a str>,
) -> Result<u32, CommandFault<'a>>
    ensures listed { IfOk result (λ key. (t : Tree) → Stands volume.old.image t → IsListed t (option_map (λ word. word.now) path.entry) key) }
    ensures key { IfOk result (λ key. HasKey volume.old.image key) }
    ensures same { volume.new ≡ volume.old }
    ensures fault { IfErr result IsNoImageRefusal }
{
    let Some(word) = path else {
        return Ok(volume.root());
    };
    match locate_word(alloc, volume, word) {
        Ok(key) => Ok(key),
        Err(fault) => Err(CommandFault::from(fault)),
    }
}

/// Prints the bytes of a file in an image.
pub(crate) fn tell_bytes<'a, W: Write>(
    alloc: Global,
    image: Image,
    path: &'a str,
    writer: &mut W,
) -> Result<(), CommandFault<'a>>
    ensures { TellsOf (IsPrintText path.now) (IsPrintText path.now) image (W.contents writer.old) (W.contents writer.new) result }
{
    let mut volume = accept(alloc, image)?;
    match print_file(alloc, &mut volume, path, writer) {
        Ok(()) => Ok(()),
        Err(fault) => Err(unprinted(alloc, &mut volume, path, fault)),
    }
}

/// The fault of `print`. Of a directory it says that a file is needed.
fn unprinted<'a>(
    alloc: Global,
    volume: &mut Volume,
    path: &str,
    fault: OutFault,
) -> CommandFault<'a>
    ensures { IsToldOut fault result }
{
    match fault {
        OutFault::Refused(refused) => CommandFault::Dos(DosRefusal {
            refused,
            detail: if locate_word(alloc, volume, path).is_ok() {
                Detail::NeedsFile
            } else {
                Detail::Plain
            },
        }),
        other => CommandFault::from(other),
    }
}

/// Writes entries of an image file to files and directories of the host.
pub(crate) fn take_out<'a, R: Files<File = File> + PromptFiles>(
    rt: &R,
    alloc: Global,
    job: &ExtractJob<'a>,
) -> Result<(), CommandFault<'a>> {
    let mut volume = open_volume(rt, alloc, job.image)?;
    match extract(rt, alloc, &mut volume, job) {
        Ok(()) => Ok(()),
        Err(fault) => Err(CommandFault::from(fault)),
    }
}
