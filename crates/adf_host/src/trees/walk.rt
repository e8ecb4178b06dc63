//! Walks over files and directories of the host.
ghost use Rattle.std.specs.Prelude.{IsPermutation, IsSorted};
ghost use Rattle.std.specs.String.{string_cmp};

use crate::trees::dates::date_of_time;
use crate::trees::notes::{note_name, noted_name};
use crate::{FileNumber, ReadReason, may_follow_at};
use ados_name::Date3;
use std::alloc::{AllocError, AllocFailed, Global};
use std::fmt::{Display, Formatter};
use std::fs::Metadata;
use std::io::{Error, ErrorKind};
use std::path::Path;
use std::rt::Files;
use std::{fmt, fs};
use thiserror::Error;

/// The files and directories that the arguments of a command name.
#[derive(Drop)]
pub struct HostTree {
    /// The files and directories: a directory before its entries, and these in the order of the bytes of their names.
    pub entries: Vec<HostEntry>,
    /// What is skipped because it is neither a file nor a directory.
    pub passed_over: Vec<PassedOver>,
}

/// A file or a directory of the host.
#[derive(Drop)]
pub struct HostEntry {
    pub path: String,
    /// The last name of the path.
    pub name: String,
    /// The index of its directory in the list; `None` for an argument.
    pub parent: Option<usize>,
    pub kind: HostKind,
    /// The time of its last change.
    pub date: Date3,
    /// The path of its note, if there is one.
    pub note: Option<String>,
    /// The number of bytes at the start of the path that lead to the directory in which it was found: an argument's
    /// directory, or that of an argument's file.
    pub(crate) top: usize,
    /// What it was when it was found.
    pub(crate) number: FileNumber,
}

/// What an entry of the host is.
#[derive(Clone, Copy)]
pub enum HostKind {
    Directory,
    /// A regular file with this many bytes, or a link to one.
    File { length: u64 },
}

/// Something on the host that is skipped.
#[derive(Drop)]
pub struct PassedOver {
    pub path: String,
    pub why: PassedWhy,
}

impl Display for PassedOver {
    fn fmt<W: fmt::Write>(&self, f: &mut Formatter<W>) -> fmt::Result {
        write!(f, "skipped '{}': {}", self.path.as_str(), self.why)
    }
}

/// Why something is skipped.
#[derive(Clone, Copy, Debug, PartialEq, Eq, Error)]
pub enum PassedWhy {
    #[error("it is a symbolic link to a directory")]
    LinkToDirectory,
    #[error("it is a symbolic link of another user")]
    ForeignLink,
    #[error("it is neither a file nor a directory")]
    NeitherKind,
    #[error("it is a note of a file that is not there")]
    NoteOfNothing,
}

/// Why the walk over the host's files failed.
#[derive(Debug, Drop, Error)]
pub enum WalkFault {
    #[error("cannot read '{path}': {reason}")]
    Read { path: String, reason: ReadReason },
    #[error("cannot read a file in '{path}': its name is not UTF-8")]
    Name { path: String },
    #[error("there are more files than any image holds")]
    Many,
    #[error("there is not enough memory")]
    Memory,
}

impl From<AllocError> for WalkFault {
    fn from(_error: AllocError) -> WalkFault {
        WalkFault::Memory
    }
}

impl<T: Drop> From<AllocFailed<T>> for WalkFault {
    fn from(_error: AllocFailed<T>) -> WalkFault {
        WalkFault::Memory
    }
}

/// The most files and directories that are visited: more than ten times the blocks of the largest image.
const MOST_LOOKS: usize = 1_048_576;

/// A path still to be visited.
#[derive(Drop)]
struct Waiting {
    path: String,
    /// The last name of the path. It is empty for `/` and for paths that end in `.` or `..`: these stand for their
    /// entries.
    name: String,
    parent: Option<usize>,
    /// The number of bytes of the path that lead to the directory of an argument; `None` for an argument.
    top: Option<usize>,
}

/// What a path leads to.
enum Look {
    File(Metadata),
    Directory(Metadata),
    Other(PassedWhy),
}

/// The files and directories that these arguments name, with everything below them.
///
/// A symbolic link to a regular file counts as that file, unless another user may have made it to have a file read that
/// only this user may read. One that leads nowhere is a fault, as a path without a file is. Any other link, and anything that is neither a file nor a directory, is skipped. A file whose name ends in
/// `.uaem` is the note of the file beside it, and not an entry.
pub fn host_tree<R: Files>(rt: &R, alloc: Global, words: &[&str]) -> Result<HostTree, WalkFault> {
    let mut tree = HostTree {
        entries: Vec::new(alloc),
        passed_over: Vec::new(alloc),
    };
    let mut waiting = waiting_words(alloc, words)?;
    for _ in 0..MOST_LOOKS {
        let Some(next) = waiting.pop() else {
            return Ok(tree);
        };
        visit(rt, alloc, next, &mut tree, &mut waiting)?;
    }
    Err(WalkFault::Many)
}

/// The arguments of a command, the first on top.
fn waiting_words(alloc: Global, words: &[&str]) -> Result<Vec<Waiting>, AllocError> {
    let mut waiting = Vec::new(alloc);
    for word in words.iter().rev() {
        waiting.push(Waiting {
            path: String::from_str(alloc, *word)?,
            name: String::from_str(alloc, name_of(*word))?,
            parent: None,
            top: None,
        })?;
    }
    Ok(waiting)
}

/// The name of an argument's entry; empty if it is `/` or ends in `.` or `..`.
fn name_of(word: &str) -> &str {
    let path = word.trim_end_matches('/');
    let last = match path.rsplit_once('/') {
        Some((_, last)) => last,
        None => path,
    };
    match last {
        "." | ".." => "",
        _ => last,
    }
}

/// Visits one path. It becomes an entry, its own entries become pending, or it is skipped.
fn visit<R: Files>(
    rt: &R,
    alloc: Global,
    next: Waiting,
    tree: &mut HostTree,
    waiting: &mut Vec<Waiting>,
) -> Result<(), WalkFault> {
    match look_at(rt, alloc, next.path.as_str())? {
        Look::Directory(found) => {
            let path = String::from_str(alloc, next.path.as_str())?;
            let place = tree.entries.len();
            let top = next.top.unwrap_or(path.len());
            let parent = if next.name.is_empty() {
                None
            } else {
                add_entry(rt, alloc, next, HostKind::Directory, &found, top, tree)?;
                Some(place)
            };
            wait_for_names(rt, alloc, path.as_str(), parent, top, waiting)
        }
        Look::File(found) => add_file(rt, alloc, next, &found, tree),
        Look::Other(why) => pass_over(next, why, tree),
    }
}

fn pass_over(next: Waiting, why: PassedWhy, tree: &mut HostTree) -> Result<(), WalkFault> {
    tree.passed_over.push(PassedOver {
        path: next.path,
        why,
    })?;
    Ok(())
}

/// What a path leads to. Links are followed only to regular files.
fn look_at<R: Files>(rt: &R, alloc: Global, path: &str) -> Result<Look, WalkFault> {
    let found = match fs::symlink_metadata(rt, path) {
        Ok(found) => found,
        Err(error) => return Err(read_fault(alloc, path, error)),
    };
    if found.is_dir() {
        return Ok(Look::Directory(found));
    }
    if found.is_file() {
        return Ok(Look::File(found));
    }
    if !found.is_symlink() {
        return Ok(Look::Other(PassedWhy::NeitherKind));
    }
    match fs::metadata(rt, path) {
        Ok(behind) if behind.is_file() && !may_follow_at(rt, alloc, path, &behind)? => {
            Ok(Look::Other(PassedWhy::ForeignLink))
        }
        Ok(behind) if behind.is_file() => Ok(Look::File(behind)),
        Ok(behind) if behind.is_dir() => Ok(Look::Other(PassedWhy::LinkToDirectory)),
        Ok(_) => Ok(Look::Other(PassedWhy::NeitherKind)),
        Err(error) => Err(read_fault(alloc, path, error)),
    }
}

/// Why a path cannot be read. An error without a number of the host is that of the standard library for a name that is not UTF-8.
fn read_fault(alloc: Global, path: &str, error: Error) -> WalkFault {
    let is_of_host = error.raw_os_error().is_some();
    match String::from_str(alloc, path) {
        Ok(path) if error.kind() == ErrorKind::InvalidFilename && !is_of_host => {
            WalkFault::Name { path }
        }
        Ok(path) => WalkFault::Read {
            path,
            reason: ReadReason::from(error),
        },
        Err(_) => WalkFault::Memory,
    }
}

/// A regular file becomes an entry unless it is the note of a file beside it.
fn add_file<R: Files>(
    rt: &R,
    alloc: Global,
    next: Waiting,
    found: &Metadata,
    tree: &mut HostTree,
) -> Result<(), WalkFault> {
    let Some(noted) = noted_name(next.name.as_str()) else {
        let length = found.len();
        let top = next.top.unwrap_or(length_above(next.path.as_str()));
        return add_entry(rt, alloc, next, HostKind::File { length }, found, top, tree);
    };
    let path = Path::new(next.path.as_str()).with_file_name(alloc, noted)?;
    if !noted.is_empty() && fs::symlink_metadata(rt, path.as_str()).is_ok() {
        return Ok(());
    }
    pass_over(next, PassedWhy::NoteOfNothing, tree)
}

fn add_entry<R: Files>(
    rt: &R,
    alloc: Global,
    next: Waiting,
    kind: HostKind,
    found: &Metadata,
    top: usize,
    tree: &mut HostTree,
) -> Result<(), WalkFault> {
    let note = note_beside(rt, alloc, next.path.as_str(), next.name.as_str())?;
    tree.entries.push(HostEntry {
        path: next.path,
        name: next.name,
        parent: next.parent,
        kind,
        date: date_of(found),
        note,
        top,
        number: FileNumber::of(found),
    })?;
    Ok(())
}

/// The number of bytes of a path that lead to the directory of its last name; none if the path is that name.
pub(crate) fn length_above(path: &str) -> usize {
    match path.rsplit_once('/') {
        Some(("", _)) => 1,
        Some((above, _)) => above.len(),
        None => 0,
    }
}

/// The path of a file's note, if it is a regular file.
fn note_beside<R: Files>(
    rt: &R,
    alloc: Global,
    path: &str,
    name: &str,
) -> Result<Option<String>, AllocError> {
    let note = note_name(alloc, name)?;
    let path = Path::new(path).with_file_name(alloc, note.as_str())?;
    match fs::metadata(rt, path.as_str()) {
        Ok(found) if found.is_file() => Ok(Some(String::from_str(alloc, path.as_str())?)),
        _ => Ok(None),
    }
}

/// The time of a file's last change. A time before 1970 is the first date.
fn date_of(found: &Metadata) -> Date3 {
    match found.modified() {
        Ok(time) => date_of_time(time),
        Err(_) => Date3 {
            days: 0,
            minutes: 0,
            ticks: 0,
        },
    }
}

/// Pushes the entries of a directory on the stack, the first name on top.
fn wait_for_names<R: Files>(
    rt: &R,
    alloc: Global,
    path: &str,
    parent: Option<usize>,
    top: usize,
    waiting: &mut Vec<Waiting>,
) -> Result<(), WalkFault> {
    let mut names = match names_in(rt, alloc, path) {
        Ok(names) => names,
        Err(error) if error.kind() == ErrorKind::OutOfMemory => return Err(WalkFault::Memory),
        Err(error) => return Err(read_fault(alloc, path, error)),
    };
    sort_names(&mut names);
    while let Some(name) = names.pop() {
        let path = Path::new(path).join(alloc, name.as_str())?;
        waiting.push(Waiting {
            path: String::from_str(alloc, path.as_str())?,
            name,
            parent,
            top: Some(top),
        })?;
    }
    Ok(())
}

/// Sorts names by their bytes.
fn sort_names(names: &mut Vec<String>)
    ensures same { IsPermutation names.old.items names.new.items }
    ensures sorted { IsSorted string_cmp names.new.items }
{
    names.sort_unstable();
}

/// The names in a directory, unsorted.
fn names_in<R: Files>(rt: &R, alloc: Global, path: &str) -> Result<Vec<String>, Error> {
    let mut names = Vec::new(alloc);
    for entry in fs::read_dir(&(rt, alloc), path)? {
        let entry = entry?;
        names.push(String::from_str(alloc, entry.file_name())?)?;
    }
    Ok(names)
}
