//! The jobs of the program, as values.
ghost use Rattle.std.specs.Prelude.{◌<◌, length};

use crate::boot::BootBlock;
use crate::change::{ChangeJob, Rewrite};
use crate::image_file::ImageFile;
use crate::query::{CheckJob, ExtractJob, ListJob, MapJob, SalvageJob, UndeleteJob, WhereJob};
use adf_block::Format;
use ados_name::Date3;

/// A job of the program.
#[derive(Drop)]
pub enum Job<'a> {
    /// No arguments: a script from standard input over a blank floppy.
    Script,
    /// A command with its arguments.
    OnImage(ImageJob<'a>),
}

/// A command on an image file.
///
/// Names and paths of host files are the arguments themselves. So are names, paths and comments in an image: a letter
/// U+0000 to U+00FF is the byte with its number. Any other letter is no byte.
#[derive(Drop)]
#[rattlefmt::skip]
pub enum ImageJob<'a> {
    /// `blank`: makes a blank image of `blocks` blocks. With `letters` the letters of the name are bytes; otherwise
    /// the name has the bytes of the argument.
    Blank { format: Format, blocks: u32, moment: Option<Date3>, name: &'a str, letters: bool, file: &'a str },
    /// `info`: describes the disk, and says whether it is bootable; with `json` as a JSON object.
    Info { file: ImageFile<'a>, json: bool },
    /// `show`: describes the volume for people, or with `json` as a JSON object.
    Show { image: ImageFile<'a>, json: bool },
    /// `map`: prints a letter for each block.
    Map(MapJob<'a>),
    /// `where`: says who owns blocks.
    Where(WhereJob<'a>),
    /// `where --path`: prints the blocks of an entry, with `json` as a JSON object.
    WherePath { image: ImageFile<'a>, path: &'a str, json: bool },
    /// `check`: checks images.
    Check(CheckJob<'a>),
    /// `list`: lists directories and files.
    List(ListJob<'a>),
    /// `extract`: copies entries to files and directories of the host.
    Extract(ExtractJob<'a>),
    /// `extract --damaged`: copies what can be trusted of a possibly damaged image, or only reports on it.
    Salvage(SalvageJob<'a>),
    /// `undelete`: lists deleted entries, and writes them to files and directories of the host.
    Undelete(UndeleteJob<'a>),
    /// `extract --bundle`: writes everything in an image to a new directory of the host.
    ExtractBundle { image: ImageFile<'a>, to: &'a str },
    /// `print`: prints the bytes of a file.
    Print { image: ImageFile<'a>, path: &'a str },
    /// A command that changes the volume.
    Change(ChangeJob<'a>),
    /// `add --bundle`: makes the volume that a directory of the host describes.
    AddBundle { target: Rewrite<'a>, from: &'a str },
    /// `validate`: writes the bitmap anew. With `force` also if something may then be lost. With `json` it prints a JSON object.
    Validate { target: Rewrite<'a>, force: bool, json: bool },
    /// `boot`: installs a boot block, or removes it.
    Boot { target: Rewrite<'a>, block: BootBlock<'a> },
    /// `boot --save`: writes the boot block to a new file of the host.
    SaveBoot { image: ImageFile<'a>, file: &'a str },
    /// `boot --show`: says what the boot block is, and prints its bytes; with `json` as a JSON object.
    ShowBoot { image: ImageFile<'a>, json: bool },
    /// `serve`: runs scripts over an image.
    Serve(ServeJob<'a>),
}

impl<'a> ImageJob<'a> {
    /// The image file that the job reads, if it is one.
    pub fn image(&self) -> Option<ImageFile<'a>> {
        match self {
            ImageJob::Blank { .. } | ImageJob::Check(_) => None,
            ImageJob::Info { file, .. } => Some(*file),
            ImageJob::Show { image, .. }
            | ImageJob::WherePath { image, .. }
            | ImageJob::Print { image, .. }
            | ImageJob::ExtractBundle { image, .. }
            | ImageJob::SaveBoot { image, .. }
            | ImageJob::ShowBoot { image, .. } => Some(*image),
            ImageJob::AddBundle { target, .. }
            | ImageJob::Validate { target, .. }
            | ImageJob::Boot { target, .. } => Some(target.image),
            ImageJob::Map(job) => Some(job.image),
            ImageJob::Where(job) => Some(job.image),
            ImageJob::List(job) => Some(job.image),
            ImageJob::Extract(job) => Some(job.image),
            ImageJob::Salvage(job) => Some(job.image),
            ImageJob::Undelete(job) => Some(job.image),
            ImageJob::Change(job) => Some(job.target.image),
            ImageJob::Serve(job) => Some(job.image),
        }
    }
}

/// The arguments of `serve`.
#[derive(Drop)]
pub struct ServeJob<'a> {
    pub image: ImageFile<'a>,
    /// The scripts of clients 1, 2 and so on.
    pub scripts: Vec<&'a str>,
    /// The file for the resulting image.
    pub out: Option<&'a str>,
    /// The number of tries of a client for each put and each reply.
    pub turns: u64,
    /// The time stamp of the volume's work; `None` for that of the host's clock.
    pub moment: Option<Date3>,
    ghost some: { 0 < length scripts.items },
}
