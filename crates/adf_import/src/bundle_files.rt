//! The files of a bundle on the host.

use crate::fault::{FileWhy, InFault, unusable};
use crate::host_files::{read_host, unopened};
use adf_block::layout::BLOCK_BYTES;
use adf_host::{HeldTree, OpenFault, OwnedFile, PromptFiles};
use adf_record::{Bundle, BundleEntry};
use adf_text::host_name;
use ados_name::Name;
use std::alloc::{AllocError, Global};
use std::fs::OpenFile;
use std::io::{ErrorKind, Read};

/// The bytes of each entry of a bundle, from below `files` in a directory of the host. A directory has none.
///
/// A file that is missing, that is no regular file, or that has another size than its entry is refused. So is one that no
/// volume of this size has room for, before it is read. `files` and each directory of the bundle are opened before what
/// is in them, each by its name in the one above it, and no link is followed.
pub(crate) fn read_files<R: PromptFiles>(
    rt: &R,
    alloc: Global,
    tree: &mut HeldTree<R::File>,
    bundle: &Bundle,
    directory: &str,
) -> Result<Vec<Vec<u8>>, InFault>
where
    R::File: OwnedFile,
{
    let top = format!(in alloc; "{directory}/files")?;
    refuse_no_directory(rt, alloc, tree, "files", top.as_str())?;
    let mut contents = Vec::new(alloc);
    let mut room = bundle.head.blocks as u64 * BLOCK_BYTES as u64;
    for entry in bundle.entries.iter() {
        let place = host_place(alloc, directory, &bundle.entries, entry)?;
        let bytes = entry_bytes(rt, alloc, tree, &place, entry.size, room)?;
        room = room.saturating_sub(bytes.len() as u64);
        contents.push(bytes)?;
    }
    Ok(contents)
}

/// The bytes of an entry with this size at its place on the host, if there is so much room. A directory has no size.
fn entry_bytes<R: PromptFiles>(
    rt: &R,
    alloc: Global,
    tree: &mut HeldTree<R::File>,
    place: &HostPlace,
    size: Option<u32>,
    room: u64,
) -> Result<Vec<u8>, InFault>
where
    R::File: OwnedFile,
{
    let (below, path) = (place.below.as_str(), place.path.as_str());
    let Some(size) = size else {
        refuse_no_directory(rt, alloc, tree, below, path)?;
        return Ok(Vec::new(alloc));
    };
    match tree.open(rt, alloc, below) {
        Ok(file) => read_file(alloc, file, path, size, room),
        Err(fault) => Err(unopened(alloc, path, fault)),
    }
}

/// The bytes of an open file with this size, if there is so much room.
fn read_file<F: Read + OpenFile + Drop>(
    alloc: Global,
    file: F,
    path: &str,
    size: u32,
    room: u64,
) -> Result<Vec<u8>, InFault> {
    let found = match file.metadata() {
        Ok(found) => found.len(),
        Err(error) => return Err(unopened(alloc, path, OpenFault::from(error))),
    };
    if found != size as u64 {
        return Err(unusable(alloc, path, FileWhy::Size { found, told: size }));
    }
    let block = BLOCK_BYTES as u64;
    if found > room {
        return Err(InFault::NoRoom {
            path: String::from_str(alloc, path)?,
            needed: found / block + 1,
            free: u32::try_from(room / block).unwrap_or(u32::MAX),
        });
    }
    let bytes = read_host(alloc, file, path, size as usize + 1)?;
    let read = bytes.len() as u64;
    if read != size as u64 {
        let why = FileWhy::Size {
            found: read,
            told: size,
        };
        return Err(unusable(alloc, path, why));
    }
    Ok(bytes)
}

/// Refuses what stands in place of a directory of the host, a symbolic link too. A directory may be missing.
fn refuse_no_directory<R: PromptFiles>(
    rt: &R,
    alloc: Global,
    tree: &mut HeldTree<R::File>,
    below: &str,
    path: &str,
) -> Result<(), InFault>
where
    R::File: OwnedFile,
{
    match tree.enter(rt, alloc, below) {
        Ok(_) => Ok(()),
        Err(OpenFault::Host(error)) if error.kind() == ErrorKind::NotFound => Ok(()),
        Err(fault) => Err(unopened(alloc, path, fault)),
    }
}

/// Where an entry of a bundle is on the host.
#[derive(Drop)]
struct HostPlace {
    /// Its path below the directory of the bundle.
    below: String,
    /// Its whole path.
    path: String,
}

/// Where an entry of a bundle is on the host.
fn host_place(
    alloc: Global,
    directory: &str,
    entries: &[BundleEntry],
    entry: &BundleEntry,
) -> Result<HostPlace, AllocError> {
    let below = below_path(alloc, entries, entry)?;
    let path = format!(in alloc; "{directory}/{below}")?;
    Ok(HostPlace { below, path })
}

/// The path on the host of an entry of a bundle.
pub(crate) fn host_path(
    alloc: Global,
    directory: &str,
    entries: &[BundleEntry],
    entry: &BundleEntry,
) -> Result<String, AllocError> {
    let place = host_place(alloc, directory, entries, entry)?;
    Ok(place.path)
}

/// The path of an entry of a bundle below the directory of the bundle.
fn below_path(
    alloc: Global,
    entries: &[BundleEntry],
    entry: &BundleEntry,
) -> Result<String, AllocError> {
    let mut path = String::from_str(alloc, "files")?;
    for name in names_up(alloc, entries, entry)?.iter().rev() {
        let name = host_name(alloc, name)?;
        path.push('/')?;
        path.push_str(name.as_str())?;
    }
    Ok(path)
}

/// The names of an entry and of the directories that it is in, its own first.
fn names_up(
    alloc: Global,
    entries: &[BundleEntry],
    entry: &BundleEntry,
) -> Result<Vec<Name>, AllocError> {
    let mut names = Vec::new(alloc);
    names.push(entry.name)?;
    let mut next = entry.above;
    for _ in 0..entries.len() {
        let Some(above) = next.and_then(|place| entries.get(place)) else {
            break;
        };
        names.push(above.name)?;
        next = above.above;
    }
    Ok(names)
}
