//! The image files that the arguments of a command name.
ghost use Rattle.std.specs.Prelude.{◌≡◌, ◌↔◌, ◌∷◌, [], false, IfOk, OnOk, IsTrue, map};
ghost use Rattle.std.specs.String.{string_bytes};
ghost use Rattle.adf_archive.specs.Endings.{EndsIn, HasImageEnding};
ghost use Rattle.adf_archive.specs.NameLists.{AreOwn};
ghost use Rattle.adf_archive.specs.steps.Adding.{AddsOwn};

use crate::found_file::FoundFile;
use crate::name_list::add_listed;
use crate::names::{TextName, names_in, text_name};
use adf_cli::ImageFile;
use adf_host::read_names;
use std::alloc::{AllocError, Global};
use std::fs;
use std::io::ErrorKind;
use std::path::Path;
use std::rt::Files;
use thiserror::Error;

/// The image files that the arguments of a command name, in order.
#[derive(Drop)]
pub struct FoundImages {
    pub paths: Vec<String>,
    /// For each of these paths, whether it is the host's. Otherwise the name of the file is not UTF-8, and the path has
    /// escapes for its bytes.
    pub are_hosts: Vec<bool>,
    /// For each of these paths, the number of its bytes that are the argument's directory in which it was found; `None` for
    /// an argument.
    pub tops: Vec<Option<usize>>,
    /// Whether an argument or a name of the list is that of a directory.
    pub in_directory: bool,
    /// What a person is told of the search.
    pub remarks: Vec<Remark>,
}

/// What a person is told of a search for images.
#[derive(Debug, Drop, Error)]
pub enum Remark {
    /// An argument.
    #[error("'{0}': no image in this directory")]
    NoImage(String),
    /// A file of a directory.
    #[error("'{0}' skipped: a {1} file, which has to be unpacked first")]
    Packed(String, &'static str),
}

/// A path in a directory that is still to be visited.
#[derive(Drop)]
struct Waiting {
    path: String,
    /// Whether the path is the host's.
    is_hosts: bool,
}

/// What a path in a directory is for the check.
#[derive(Clone, Copy)]
enum Look {
    Image,
    Directory,
    /// A packed file, with the name of its kind.
    Packed(&'static str),
    Neither,
}

/// The image files that these arguments name, and then those of the names of a list. An argument's own file counts with any
/// name. In a directory, and in all directories below it, files with the ending of an image count, in the order of the bytes of
/// their names.
///
/// An argument may be a link. In a directory a link to a file counts as that file, and a link to a directory is not followed.
/// An unreadable path counts as an image, so that the check reports it, and so does any name that is not UTF-8.
pub fn image_files<R: Files>(
    rt: &R,
    alloc: Global,
    words: &[&str],
    names: &[&[u8]],
) -> Result<FoundImages, AllocError>
    ensures { IfOk result (λ found. found.in_directory ≡ false →
        AreOwn (map (λ word. word.now) words.now) (map (λ name. name.now) names.now) (map string_bytes found.paths.items)) }
{
    let mut found = FoundImages {
        paths: Vec::new(alloc),
        are_hosts: Vec::new(alloc),
        tops: Vec::new(alloc),
        in_directory: false,
        remarks: Vec::new(alloc),
    };
    for word in words {
        found.add_word(rt, alloc, *word)?;
    }
    add_listed(rt, alloc, names, &mut found)?;
    Ok(found)
}

impl FoundImages {
    /// Adds the images that an argument names: its file, or those in its directory.
    pub(crate) fn add_word<R: Files>(
        &mut self,
        rt: &R,
        alloc: Global,
        word: &str,
    ) -> Result<(), AllocError>
        ensures { OnOk result (AddsOwn self.old self.new (word.now ∷ [])) }
    {
        if fs::metadata(rt, word).is_ok_and(|met| met.is_dir()) {
            find_below(rt, alloc, word, self)?;
            self.in_directory = true;
            return Ok(());
        }
        self.add(String::from_str(alloc, word)?, true, None)
    }

    /// Adds a path.
    pub(crate) fn add(
        &mut self,
        path: String,
        is_hosts: bool,
        top: Option<usize>,
    ) -> Result<(), AllocError>
        ensures { OnOk result (AddsOwn self.old self.new (string_bytes path ∷ [])) }
    {
        self.are_hosts.push(is_hosts)?;
        self.tops.push(top)?;
        self.paths.push(path)?;
        Ok(())
    }

    /// Whether the path at a position is the host's.
    pub(crate) fn is_hosts(&self, place: usize) -> bool {
        self.are_hosts.get(place).copied().unwrap_or(true)
    }

    /// The file at a position, with its path.
    pub(crate) fn file<'a>(
        &self,
        place: usize,
        path: &'a str,
        blocks: Option<u32>,
    ) -> FoundFile<'a> {
        FoundFile {
            file: ImageFile { path, blocks },
            top: self.tops.get(place).copied().unwrap_or(None),
        }
    }
}

/// Adds the images in an argument's directory and in all directories below it, or the remark that there is none.
fn find_below<R: Files>(
    rt: &R,
    alloc: Global,
    word: &str,
    found: &mut FoundImages,
) -> Result<(), AllocError> {
    let before = found.paths.len();
    let top = Some(word.len());
    let mut waiting = Vec::new(alloc);
    wait_for_names(
        rt,
        alloc,
        String::from_str(alloc, word)?,
        top,
        found,
        &mut waiting,
    )?;
    for _ in 0..u64::MAX {
        let Some(next) = waiting.pop() else {
            break;
        };
        match look_at(rt, &next) {
            Look::Image => found.add(next.path, next.is_hosts, top)?,
            Look::Directory => wait_for_names(rt, alloc, next.path, top, found, &mut waiting)?,
            Look::Packed(kind) => found.remarks.push(Remark::Packed(next.path, kind))?,
            Look::Neither => {}
        }
    }
    if found.paths.len() == before {
        let word = String::from_str(alloc, word)?;
        found.remarks.push(Remark::NoImage(word))?;
    }
    Ok(())
}

/// What a path in a directory is.
fn look_at<R: Files>(rt: &R, next: &Waiting) -> Look {
    let path = next.path.as_str();
    if !next.is_hosts {
        return Look::Image;
    }
    let Ok(met) = fs::symlink_metadata(rt, path) else {
        return Look::Image;
    };
    if met.is_dir() {
        return Look::Directory;
    }
    let is_file = met.is_file() || met.is_symlink();
    if !is_file || fs::metadata(rt, path).is_ok_and(|behind| !behind.is_file()) {
        return Look::Neither;
    }
    if has_image_ending(path) {
        return Look::Image;
    }
    match packed_kind(path) {
        Some(kind) => Look::Packed(kind),
        None => Look::Neither,
    }
}

/// The kind of a packed file, by the ending of its name.
fn packed_kind(name: &str) -> Option<&'static str> {
    if has_ending(name, b".gz") || has_ending(name, b".adz") {
        return Some("gzip");
    }
    if has_ending(name, b".zip") {
        return Some("ZIP");
    }
    if has_ending(name, b".dms") {
        return Some("DMS");
    }
    None
}

/// Whether a name ends in `.adf` or `.hdf`, in any case.
pub fn has_image_ending(name: &str) -> bool
    ensures { IsTrue result ↔ HasImageEnding name.now }
{
    has_ending(name, b".adf") || has_ending(name, b".hdf")
}

/// Whether a name has this ending, in any case.
fn has_ending(name: &str, ending: &[u8]) -> bool
    ensures { IsTrue result ↔ EndsIn name.now ending.now }
{
    let (bytes, size) = (name.as_bytes(), ending.len());
    if bytes.len() < size {
        return false;
    }
    bytes[bytes.len() - size..].eq_ignore_ascii_case(ending)
}

/// Pushes the entries of a directory on the stack, the first name on top. A directory that cannot be read to its end
/// counts as an image.
fn wait_for_names<R: Files>(
    rt: &R,
    alloc: Global,
    path: String,
    top: Option<usize>,
    found: &mut FoundImages,
    waiting: &mut Vec<Waiting>,
) -> Result<(), AllocError> {
    let mut bytes = Vec::new(alloc);
    let read = read_names(rt, alloc, path.as_str(), &mut bytes);
    let names = names_in(alloc, &bytes)?;
    for name in names.iter().rev() {
        let TextName { text, is_hosts } = text_name(alloc, *name)?;
        let inner = Path::new(path.as_str()).join(alloc, text.as_str())?;
        waiting.push(Waiting {
            path: String::from_str(alloc, inner.as_str())?,
            is_hosts,
        })?;
    }
    match read {
        Ok(()) => Ok(()),
        Err(error) if error.kind() == ErrorKind::OutOfMemory => Err(AllocError),
        Err(_) => found.add(path, true, top),
    }
}
