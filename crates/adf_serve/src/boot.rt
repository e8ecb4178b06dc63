//! The command `boot`, and the boot block of any image.
ghost use Rattle.std.specs.Prelude.{IfErr, IfOk, OnOk, Some};
ghost use Rattle.adf_block.specs.BootCode.{boot_bytes};
ghost use Rattle.adf_io.specs.Input.{ReadsUpTo};
ghost use Rattle.adf_serve.specs.Boot.{IsAccepted, PutsBoot, PutsFile};
ghost use Rattle.adf_serve.specs.Commands.{TellsSome};
ghost use Rattle.adf_serve.specs.Faults.{IsNoImage, IsNoRefusal, IsUnread};
ghost use Rattle.adf_serve.specs.NewImages.{PutsMade, out_of};
ghost use Rattle.adf_serve.specs.NewImages.Made.{ABooted, ABootBlock};
ghost use Rattle.adf_serve.specs.Texts.{IsBootForm};

use crate::fault::CommandFault;
use crate::images::{Work, accept, unread};
use crate::output::{is_output, tell};
use crate::refusal::Refusal;
use adf_block::layout::{BLOCK_BYTES, FEWEST_BLOCKS};
use adf_block::{
    BootCode, Image, boot_bytes, boot_code, boot_image, boot_text, code_line, install_standard,
};
use adf_cli::{BootBlock, ImageFile, Rewrite};
use adf_host::{PromptFiles, WriteFault, WriteWhy, input_path, refuse_length, why_unreadable};
use adf_io::{LoadFault, read_bounded};
use adf_record::boot_object;
use adf_text::print_line;
use std::alloc::{AllocError, Global};
use std::fs::{self, File, OpenFile};
use std::io::{Error, ErrorKind, Read, Write};
use std::rt::{Clock, Files};

/// The most bytes of a boot block.
const BOOT_BYTES: usize = 1_024;

/// The bytes of the smallest image.
const FEWEST_BYTES: usize = BLOCK_BYTES as usize * FEWEST_BLOCKS as usize;

/// Installs a boot block in an image file that is accepted, or removes it.
pub(crate) fn change_boot<'a, R: Files<File = File> + PromptFiles + Clock, W: Write>(
    rt: &R,
    alloc: Global,
    target: Rewrite<'a>,
    block: BootBlock<'a>,
    writer: &mut W,
) -> Result<(), CommandFault<'a>>
    ensures { PutsMade (ABooted block.entry) (out_of target.entry) (W.contents writer.old) (W.contents writer.new) result }
{
    let (work, mut image) = Work::begin(rt, alloc, target)?;
    accept_copy(alloc, &image)?;
    put_boot(rt, alloc, &mut image, block)?;
    work.put(rt, alloc, &image, writer)
}

/// Checks that an image is accepted. It checks a copy, because the check may rebuild the bitmap, and a boot block
/// leaves it unchanged.
fn accept_copy<'a>(alloc: Global, image: &Image) -> Result<(), CommandFault<'a>>
    ensures accepted { OnOk result (IsAccepted image.now) }
    ensures fault { IfErr result IsUnread }
{
    let copy = Vec::from_slice(alloc, image.as_bytes())?;
    match Image::from_bytes(copy) {
        Ok(copy) => {
            accept(alloc, copy)?;
            Ok(())
        }
        Err(refused) => Err(CommandFault::Refused(Refusal::of_size(refused.fault))),
    }
}

/// Installs an image's boot block, or removes it.
fn put_boot<'a, R: Files>(
    rt: &R,
    alloc: Global,
    image: &mut Image,
    block: BootBlock<'a>,
) -> Result<(), CommandFault<'a>>
    ensures installed { PutsBoot block.entry image.old image.new result }
    ensures fault { IfErr result IsNoRefusal }
{
    match block {
        BootBlock::Empty => {
            let _ = boot_image(image, None);
            Ok(())
        }
        BootBlock::Standard => {
            install_standard(image);
            Ok(())
        }
        BootBlock::File(file) => put_file(rt, alloc, image, file),
    }
}

/// Installs the bytes of a file as an image's boot block.
fn put_file<'a, R: Files>(
    rt: &R,
    alloc: Global,
    image: &mut Image,
    file: &'a str,
) -> Result<(), CommandFault<'a>>
    ensures installed { PutsFile image.old image.new result }
    ensures fault { IfErr result IsNoRefusal }
{
    let code = read_code(rt, alloc, file)?;
    match boot_image(image, Some(&code)) {
        Ok(()) => Ok(()),
        Err(_) => Err(CommandFault::LongBoot(file)),
    }
}

/// The bytes of a file, at most one more than a boot block has.
fn read_code<'a, R: Files>(
    rt: &R,
    alloc: Global,
    file: &'a str,
) -> Result<Vec<u8>, CommandFault<'a>>
    ensures { IfErr result IsNoRefusal }
{
    let Ok(mut reader) = fs::open(rt, file) else {
        return Err(CommandFault::Read(file, why_unreadable(rt, file)));
    };
    match read_bounded(alloc, &mut reader, BOOT_BYTES + 1) {
        Ok(code) => Ok(code),
        Err(fault) => Err(CommandFault::of_input(rt, fault, file)),
    }
}

/// Prints what the boot block of a file is, and its bytes, with `json` as a JSON object. The file may be any that has two blocks.
pub(crate) fn show_boot<'a, R: Files, W: Write>(
    rt: &R,
    alloc: Global,
    file: ImageFile<'a>,
    json: bool,
    writer: &mut W,
) -> Result<(), CommandFault<'a>>
    ensures { TellsSome (IsBootForm json) (IsBootForm json) (W.contents writer.old) (W.contents writer.new) result }
{
    let image = read_boot(rt, alloc, file)?;
    let text = form_text(alloc, &image, json)?;
    tell(writer, &text)
}

/// What the boot block of an image is, and its bytes, in one of the forms.
fn form_text(alloc: Global, image: &Image, json: bool) -> Result<Vec<u8>, AllocError>
    ensures { IfOk result (λ text. IsBootForm json image.now text.items) }
{
    if json {
        boot_object(alloc, image)
    } else {
        boot_text(alloc, image)
    }
}

/// The boot block of a file, as that of the smallest image. A file without two blocks is refused for its size.
fn read_boot<'a, R: Files>(
    rt: &R,
    alloc: Global,
    file: ImageFile<'a>,
) -> Result<Image, CommandFault<'a>>
    ensures { IfErr result IsNoImage }
{
    let Ok(mut reader) = fs::open(rt, input_path(file.path)) else {
        return Err(unread(rt, LoadFault::Read, file));
    };
    match load_boot(alloc, &mut reader) {
        Ok(image) => Ok(image),
        Err(fault) => Err(unread(rt, fault, file)),
    }
}

/// The smallest image with the first two blocks of an input, and zeros behind them. Nothing else is read.
fn load_boot<R: Read>(alloc: Global, reader: &mut R) -> Result<Image, LoadFault>
    ensures { IfOk result (λ image. ReadsUpTo 1024 (R.remaining reader.old) (R.remaining reader.new) (boot_bytes image)) }
{
    let mut bytes = read_bounded(alloc, reader, BOOT_BYTES)?;
    if bytes.len() == BOOT_BYTES {
        let Ok(()) = bytes.resize(FEWEST_BYTES, 0) else {
            return Err(LoadFault::Memory);
        };
    }
    match Image::from_bytes(bytes) {
        Ok(image) => Ok(image),
        Err(refused) => Err(LoadFault::Size(refused)),
    }
}

/// Prints what the boot block of an image is, if there is one.
pub(crate) fn tell_boot<F: Write>(image: &Image, faults: &mut F) {
    let code = boot_code(image);
    if !matches!(code, BootCode::Empty) {
        let line = code_line(code).trim_end();
        print_line(faults, format_args!("adf_serve: {line}"));
    }
}

/// Writes the boot block of a file to a new file of the host, or to standard output if that is `-`. The file may be any that has two
/// blocks.
pub(crate) fn save_boot<'a, R: Files<File = File> + PromptFiles, W: Write>(
    rt: &R,
    alloc: Global,
    image: ImageFile<'a>,
    file: &'a str,
    writer: &mut W,
) -> Result<(), CommandFault<'a>>
    ensures { PutsMade ABootBlock (Some file.entry.now) (W.contents writer.old) (W.contents writer.new) result }
{
    let image = read_boot(rt, alloc, image)?;
    if is_output(file) {
        return tell(writer, boot_bytes(&image));
    }
    let Err(why) = write_new(rt, file, boot_bytes(&image)) else {
        return Ok(());
    };
    Err(CommandFault::Extracted(WriteFault {
        path: String::from_str(alloc, file)?,
        why,
        written: 0,
    }))
}

/// Writes a new file. What is there already stays. A file that cannot be written whole is removed.
fn write_new<R: Files<File = File> + PromptFiles>(
    rt: &R,
    path: &str,
    bytes: &[u8],
) -> Result<(), WriteWhy> {
    refuse_length(rt, bytes.len() as u64)?;
    let file = match File::create_new(rt, path) {
        Ok(file) => file,
        Err(error) if error.kind() == ErrorKind::AlreadyExists => return Err(WriteWhy::Exists),
        Err(error) => return Err(WriteWhy::Host(error)),
    };
    let done = fill(file, bytes);
    if done.is_err() {
        let _ = fs::remove_file(rt, path);
    }
    done.map_err(WriteWhy::Host)
}

/// Writes the bytes of a new file, and flushes them to the disk.
fn fill<F: Write + OpenFile + Drop>(mut file: F, bytes: &[u8]) -> Result<(), Error> {
    file.write_all(bytes)?;
    file.sync_all()
}
