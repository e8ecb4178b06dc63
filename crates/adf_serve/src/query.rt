//! The commands that print something of an image.
ghost use Rattle.adf_serve.specs.Commands.{TellsSome};
ghost use Rattle.adf_serve.specs.Texts.{BeginsQueryText, IsQueryText};

use crate::blocks::tell_entry;
use crate::fault::CommandFault;
use crate::images::read_image;
use crate::info::tell_info;
use crate::look::tell_look;
use crate::moving::{tell_bytes, tell_list};
use adf_cli::{ImageFile, ListJob};
use std::alloc::Global;
use std::io::Write;
use std::rt::Files;

/// What a command prints of an image.
#[derive(Clone, Copy)]
pub(crate) enum Query<'a, 'b> {
    /// The result of DISK_INFO, and whether the boot checksum is right. With `json` it is a JSON object.
    Disk { json: bool },
    /// The list of a file or directory.
    List(&'b ListJob<'a>),
    /// The bytes of the file at a path.
    Bytes(&'a str),
    /// All blocks of the file or directory at a path. With `json` they are a JSON object.
    Entry { path: &'a str, json: bool },
    /// What a person wants to know of the volume, or with `json` a JSON object.
    Look { json: bool },
}

/// Prints what is asked of the image of a file. With `styled` text for people has bold letters.
pub(crate) fn print_query<'a, R: Files, W: Write>(
    rt: &R,
    alloc: Global,
    file: ImageFile<'a>,
    query: Query<'a, '_>,
    styled: bool,
    writer: &mut W,
) -> Result<(), CommandFault<'a>>
    ensures { TellsSome (IsQueryText styled query.entry) (BeginsQueryText styled query.entry) (W.contents writer.old) (W.contents writer.new) result }
{
    let image = read_image(rt, alloc, file)?;
    match query {
        Query::Disk { json } => tell_info(alloc, image, json, writer),
        Query::List(job) => tell_list(alloc, image, job, styled, writer),
        Query::Bytes(path) => tell_bytes(alloc, image, path, writer),
        Query::Entry { path, json } => tell_entry(alloc, image, path, json, writer),
        Query::Look { json } => tell_look(alloc, image, json, styled, writer),
    }
}
