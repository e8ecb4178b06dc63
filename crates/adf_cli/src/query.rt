//! The jobs of commands that change no image, as values.
ghost use Rattle.std.specs.Prelude.{◌≡◌, ◌<◌, None, length};

use crate::block_word::BlockWord;
use crate::image_file::ImageFile;
use crate::map_form::MapForm;
use crate::name_list::NameList;

/// The arguments of `check`.
#[derive(Drop)]
pub struct CheckJob<'a> {
    /// Image files, and directories with image files in them.
    pub files: Vec<&'a str>,
    /// A list with the names of more of them.
    pub from: Option<NameList<'a>>,
    /// The number of blocks at the start of each file that are its image; by default all of the file is.
    pub blocks: Option<u32>,
    /// Whether every fault of an image is reported; otherwise the first one.
    pub all: bool,
    /// Whether the report on each image is a JSON object.
    pub json: bool,
    /// Whether data blocks that hold nothing but the filler of a program are reported.
    pub filler: bool,
    /// A list of blocks that could not be read, for a single image.
    pub bad: Option<&'a str>,
    /// The number of images checked in parallel; by default the number of processors.
    pub jobs: Option<u32>,
    ghost some: { from ≡ None → 0 < length files.items },
}

/// The arguments of `map`.
#[derive(Clone, Copy)]
pub struct MapJob<'a> {
    pub image: ImageFile<'a>,
    pub form: MapForm,
    /// A list of blocks that could not be read.
    pub bad: Option<&'a str>,
}

/// The arguments of `where` without `--path`.
#[derive(Drop)]
pub struct WhereJob<'a> {
    pub image: ImageFile<'a>,
    /// The blocks to tell of.
    pub blocks: Vec<BlockWord>,
    /// Whether the output is a JSON array.
    pub json: bool,
    /// A list of blocks that could not be read.
    pub bad: Option<&'a str>,
}

/// The arguments of `list`.
#[derive(Drop)]
pub struct ListJob<'a> {
    pub image: ImageFile<'a>,
    /// The directory or file to list; by default the root.
    pub path: Option<&'a str>,
    pub form: ListForm,
    pub order: ListOrder,
}

/// The order of the entries of each directory in a list.
#[derive(Clone, Copy)]
pub enum ListOrder {
    /// As in the directory: by hash slot, and then as in the hash chain.
    Disk,
    /// By name, in upper case.
    Name,
    /// By size, the largest file first; then by name.
    Size,
    /// By date, the latest first; then by name.
    Date,
}

/// The form of a list.
#[derive(Clone, Copy)]
pub enum ListForm {
    /// A line for the volume and one for each entry, with names as their bytes.
    Bytes,
    /// The same, with names as letters.
    Letters,
    /// For people: the same as `Letters`, with all eight protection bits and comments, and without hundredths of
    /// seconds.
    Long,
    /// The same as `Long`, with the names of directories in bold letters, for a terminal. No option asks for it.
    Bold,
    /// A JSON object for each entry.
    Json,
}

/// The arguments of `extract`.
#[derive(Drop)]
pub struct ExtractJob<'a> {
    pub image: ImageFile<'a>,
    /// The entries, each with everything below it; by default all entries of the root.
    pub paths: Vec<&'a str>,
    /// The host directory to write to.
    pub to: &'a str,
    /// Whether a note `.uaem` is written beside each entry.
    pub meta: bool,
    /// Whether existing files of the host are replaced.
    pub force: bool,
}

/// The arguments of `undelete`.
#[derive(Drop)]
pub struct UndeleteJob<'a> {
    pub image: ImageFile<'a>,
    /// The deleted entries, each with everything that was below it; by default all of them.
    pub paths: Vec<&'a str>,
    /// Whether the entries are only listed: nothing is written to the host.
    pub list: bool,
    /// Whether a JSON object is printed for each entry.
    pub json: bool,
    /// The host directory to write to.
    pub to: &'a str,
    /// Whether a note `.uaem` is written beside each entry.
    pub meta: bool,
    /// Whether entries are written of which blocks are used again or damaged, and existing files of the host are replaced.
    pub force: bool,
}

/// The arguments of `extract --damaged`.
#[derive(Drop)]
pub struct SalvageJob<'a> {
    pub image: ImageFile<'a>,
    /// Whether entries are only reported: nothing is written to the host.
    pub list: bool,
    /// Whether the report is a JSON object.
    pub json: bool,
    /// The host directory to write to.
    pub to: &'a str,
    /// Whether a note `.uaem` is written beside each entry.
    pub meta: bool,
    /// A list of blocks that could not be read.
    pub bad: Option<&'a str>,
    /// The file for a new image with what is saved: then nothing else is written to the host.
    pub out: Option<&'a str>,
    /// Whether `out` is also written if it is a file that is no image.
    pub over: bool,
    /// Whether the used blocks that belong to nothing are written too.
    pub unaccounted: bool,
}
