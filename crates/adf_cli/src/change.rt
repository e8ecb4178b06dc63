//! The jobs of commands that change an image, as values.

use crate::image_file::ImageFile;
use ados_name::Date3;

/// The image file that a command changes, and the file for the changed image.
#[derive(Clone, Copy)]
pub struct Rewrite<'a> {
    pub image: ImageFile<'a>,
    /// The file for the changed image, in place of the image's own.
    pub out: Option<&'a str>,
    /// Whether `out` is also written if it is a file that is no image.
    pub over: bool,
}

/// A change of a volume, and where it is made.
#[derive(Drop)]
pub struct ChangeJob<'a> {
    pub target: Rewrite<'a>,
    /// The time stamp of the change; by default the host's clock.
    pub moment: Option<Date3>,
    pub change: Change<'a>,
}

/// A change of a volume. It is made whole or not at all.
#[derive(Drop)]
#[rattlefmt::skip]
pub enum Change<'a> {
    /// `add`: puts files and directories of the host into a directory.
    Add { files: Vec<&'a str>, to: &'a str, force: bool },
    /// `add --as`: puts one file into a directory under this name.
    AddAs { source: Source<'a>, name: &'a str, to: &'a str, force: bool },
    /// `mkdir`: makes directories. With `parents`, each missing one on the way too; existing ones are left as they are.
    MakeDirectories { paths: Vec<&'a str>, parents: bool },
    /// `delete`: deletes entries. With `all`, everything below a directory too; with `force`, protected entries too.
    Delete { paths: Vec<&'a str>, all: bool, force: bool },
    /// `rename`: moves an entry to another name or directory.
    Rename { old: &'a str, new: &'a str },
    /// `protect`: sets the eight low protection bits by a word, as `rwed`, `-s--rwed`, `+s` or `-w`.
    Protect { path: &'a str, letters: &'a str },
    /// `date`: sets a date; by default the time stamp of the change.
    Date { path: &'a str, date: Option<Date3> },
    /// `comment`: sets a comment.
    Comment { path: &'a str, text: &'a str },
    /// `relabel`: renames the volume.
    Relabel { name: &'a str },
}

/// The bytes of a file that is put into an image.
#[derive(Clone, Copy)]
pub enum Source<'a> {
    /// A file of the host.
    File(&'a str),
    /// Standard input, up to its end.
    StandardInput,
}
