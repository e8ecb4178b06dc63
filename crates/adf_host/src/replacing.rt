//! Files that are replaced whole: the old bytes stay until the new ones are on the disk.
use crate::directory::{HeldPlace, directory_and_name};
use crate::held::{HeldFile, is_same};
use crate::limit::refuse_length;
use crate::new_bytes::NewBytes;
use crate::opening::{OpenFault, open_regular, reopen};
use crate::owned::OwnedFile;
use crate::prompt::PromptFiles;
use crate::temporary::{make_beside, remove_leftovers, this_user};
use crate::unwritable::WriteReason;
use adf_block::Image;
use std::alloc::{AllocError, Global};
use std::fs::{FileTimes, Metadata, OpenFile, OpenOptions, Permissions};
use std::io::{Error, ErrorKind, Write};
use std::os::unix::fs::{MetadataExt, PermissionsExt};
use std::path::Path;
use std::rt::Files;
use std::time::SystemTime;
use std::{error, fmt, fs};

/// Why a file is not replaced, as the end of a sentence: `cannot write 'NAME': REASON`. Its old bytes are still there.
#[derive(Clone, Copy, Debug)]
pub enum ReplaceFault {
    /// It cannot be examined or opened for writing, or is a link that leads nowhere.
    Target(Error),
    /// No file can be made beside it.
    Beside(Error),
    /// The new bytes cannot be written, or not be flushed to the disk.
    Write(Error),
    /// The new file cannot take its place.
    Rename(Error),
    /// Its path leads to another file than the one that was locked or found.
    Moved,
    /// There is not enough memory for a path.
    Memory,
}

impl fmt::Display for ReplaceFault {
    fn fmt<W: fmt::Write>(&self, f: &mut fmt::Formatter<W>) -> fmt::Result {
        match self {
            ReplaceFault::Target(error) => write!(f, "{}", WriteReason(*error)),
            ReplaceFault::Beside(error) if error.kind() == ErrorKind::NotFound => {
                write!(f, "{}", WriteReason(*error))
            }
            ReplaceFault::Write(error) => write!(f, "{}", WriteReason(*error)),
            ReplaceFault::Beside(error) => {
                write!(f, "no file can be made beside it: {}", WriteReason(*error))
            }
            ReplaceFault::Rename(error) => {
                write!(
                    f,
                    "the new file cannot take its place: {}",
                    WriteReason(*error)
                )
            }
            ReplaceFault::Moved => write!(f, "another file has taken its place"),
            ReplaceFault::Memory => write!(f, "there is not enough memory"),
        }
    }
}

impl error::Error for ReplaceFault {}

impl From<AllocError> for ReplaceFault {
    fn from(_error: AllocError) -> ReplaceFault {
        ReplaceFault::Memory
    }
}

impl From<OpenFault> for ReplaceFault {
    fn from(fault: OpenFault) -> ReplaceFault {
        match fault {
            OpenFault::Host(error) => ReplaceFault::Target(error),
            OpenFault::Memory => ReplaceFault::Memory,
            OpenFault::NoFile | OpenFault::Moved | OpenFault::ForeignLink => ReplaceFault::Moved,
        }
    }
}

/// The mode bits that a new file takes over from the file that it replaces: the rights to read, write and run it.
const ACCESS_BITS: u32 = 0o777;

/// Writes an image, and then what is behind it, as the file at a path: to a temporary file beside it, which is flushed to the disk
/// and then renamed over it. The rights to read, write and run an existing file stay, and so do its owner and its group
/// if the process may set them. A link stays, and the file that it leads to is replaced.
///
/// After a fault the old bytes are there, and the temporary file is removed. Before that, temporary files are removed
/// that commands of this user left when they were killed. A file that is not regular, such as a device or a pipe, is
/// written directly. A file that the process may not write is refused, and so is a path that no
/// longer leads to the file locked for it.
///
/// The directory of the file is opened once, and the temporary file is made, renamed and removed through its handle. So
/// a directory that is swapped for a link meanwhile leads nowhere else. Without `/proc` all that goes by path.
pub fn replace_file<R: PromptFiles>(
    rt: &R,
    alloc: Global,
    path: &str,
    held: Option<&HeldFile>,
    image: &Image,
    behind: &[u8],
) -> Result<(), ReplaceFault>
where
    R::File: OwnedFile,
{
    let bytes = NewBytes::Image(image, behind);
    match fs::metadata(rt, path) {
        Ok(found) if !may_be(held, &found) => Err(ReplaceFault::Moved),
        Ok(found) if !found.is_file() => write_straight(rt, path, &found, bytes),
        Ok(_) => {
            let real = rt.canonicalize(alloc, path).map_err(ReplaceFault::Target)?;
            replace_real(rt, alloc, real.as_str(), held, bytes)
        }
        Err(error) if error.kind() == ErrorKind::NotFound && held.is_none() => {
            write_first(rt, alloc, path, bytes, error)
        }
        Err(error) => Err(ReplaceFault::Target(error)),
    }
}

/// Replaces the regular file at a path without links.
fn replace_real<R: PromptFiles>(
    rt: &R,
    alloc: Global,
    path: &str,
    held: Option<&HeldFile>,
    bytes: NewBytes<'_>,
) -> Result<(), ReplaceFault>
where
    R::File: OwnedFile,
{
    let place = HeldPlace::of(rt, alloc, path).map_err(ReplaceFault::Target)?;
    let found = fs::symlink_metadata(rt, place.path()).map_err(ReplaceFault::Target)?;
    if !may_be(held, &found) {
        return Err(ReplaceFault::Moved);
    }
    remove_leftovers(rt, alloc, directory_and_name(place.path()).0);
    write_over(rt, alloc, place.path(), &found, bytes, None)
}

/// Writes a file to a path where none was found. A link that is there leads nowhere, and gives the error of the search.
fn write_first<R: PromptFiles>(
    rt: &R,
    alloc: Global,
    path: &str,
    bytes: NewBytes<'_>,
    error: Error,
) -> Result<(), ReplaceFault>
where
    R::File: OwnedFile,
{
    let place = HeldPlace::of(rt, alloc, path).map_err(ReplaceFault::Beside)?;
    if fs::symlink_metadata(rt, place.path()).is_ok() {
        return Err(ReplaceFault::Target(error));
    }
    remove_leftovers(rt, alloc, directory_and_name(place.path()).0);
    write_beside(rt, alloc, place.path(), None, bytes, None)
}

/// Whether the file found at a path may be the file locked for it.
fn may_be(held: Option<&HeldFile>, found: &Metadata) -> bool {
    match held {
        Some(held) => held.is(found),
        None => true,
    }
}

/// Opens the file that was found at a path for writing, if it is still there.
fn open_found<R: Files>(rt: &R, path: &str, found: &Metadata) -> Result<R::File, ReplaceFault> {
    let file = OpenOptions::new()
        .write(true)
        .open(rt, path)
        .map_err(ReplaceFault::Target)?;
    let opened = file.metadata().map_err(ReplaceFault::Target)?;
    if is_same(&opened, found) {
        Ok(file)
    } else {
        Err(ReplaceFault::Moved)
    }
}

/// Writes to a file that is not regular.
fn write_straight<R: Files>(
    rt: &R,
    path: &str,
    found: &Metadata,
    bytes: NewBytes<'_>,
) -> Result<(), ReplaceFault> {
    let mut file = open_found(rt, path, found)?;
    bytes.put(&mut file).map_err(ReplaceFault::Write)
}

/// The description of the regular file that was found at a path, by its handle. Fails if it is no longer there, or if the
/// process may not write it. Nothing that takes its place is opened for writing.
fn writable<R: PromptFiles>(
    rt: &R,
    alloc: Global,
    path: &str,
    found: &Metadata,
) -> Result<Metadata, ReplaceFault>
where
    R::File: OwnedFile,
{
    let file = match open_regular(rt, alloc, path) {
        Ok(file) => file,
        Err(OpenFault::Host(error)) if error.kind() == ErrorKind::PermissionDenied => {
            return only_writable(rt, found, error);
        }
        Err(fault) => return Err(ReplaceFault::from(fault)),
    };
    let opened = file.metadata().map_err(ReplaceFault::Target)?;
    if !is_same(&opened, found) {
        return Err(ReplaceFault::Moved);
    }
    match reopen(rt, alloc, &file) {
        Ok(_) => Ok(opened),
        // The host has no paths for handles.
        Err(OpenFault::Host(error)) if error.kind() == ErrorKind::NotFound => {
            open_found(rt, path, found)?;
            Ok(opened)
        }
        Err(fault) => Err(ReplaceFault::from(fault)),
    }
}

/// The mode bit for the right of the owner to write.
const OWNER_WRITES: u32 = 0o200;

/// The description that was found of a file that the process may not read, if it is this user's, who may write it.
/// Otherwise this error.
fn only_writable<R: Files>(
    rt: &R,
    found: &Metadata,
    error: Error,
) -> Result<Metadata, ReplaceFault> {
    if found.mode() & OWNER_WRITES != 0 && this_user(rt) == Some(found.uid()) {
        Ok(found.clone()?)
    } else {
        Err(ReplaceFault::Target(error))
    }
}

/// Replaces a regular file that was found at a path by these bytes, as [`replace_file`] does. A link that is there by
/// now is refused. The new file gets this time. Leftovers stay: [`HeldDirectory::remove_leftovers`](crate::HeldDirectory)
/// removes those of a directory.
pub fn replace_found<R: PromptFiles>(
    rt: &R,
    alloc: Global,
    path: &str,
    found: &Metadata,
    bytes: &[u8],
    time: SystemTime,
) -> Result<(), ReplaceFault>
where
    R::File: OwnedFile,
{
    write_over(rt, alloc, path, found, NewBytes::Bytes(bytes), Some(time))
}

/// Writes a new file over the regular file that was found at a path.
fn write_over<R: PromptFiles>(
    rt: &R,
    alloc: Global,
    path: &str,
    found: &Metadata,
    bytes: NewBytes<'_>,
    time: Option<SystemTime>,
) -> Result<(), ReplaceFault>
where
    R::File: OwnedFile,
{
    let old = writable(rt, alloc, path, found)?;
    write_beside(rt, alloc, path, Some(old), bytes, time)
}

/// Writes a new file over a regular file, described by its handle, or at a path with no file yet. The file gets this
/// time, or the current time. After a fault the old state is unchanged.
fn write_beside<R: PromptFiles>(
    rt: &R,
    alloc: Global,
    path: &str,
    old: Option<Metadata>,
    bytes: NewBytes<'_>,
    time: Option<SystemTime>,
) -> Result<(), ReplaceFault>
where
    R::File: OwnedFile,
{
    refuse_length(rt, bytes.length()).map_err(ReplaceFault::Write)?;
    write_and_rename(rt, alloc, path, old, bytes, time)?;
    sync_names(rt, path);
    Ok(())
}

/// Writes a temporary file and renames it to a path. It is locked until then, so that no command takes it for a
/// leftover. After a fault it is removed.
fn write_and_rename<R: PromptFiles>(
    rt: &R,
    alloc: Global,
    path: &str,
    old: Option<Metadata>,
    bytes: NewBytes<'_>,
    time: Option<SystemTime>,
) -> Result<(), ReplaceFault>
where
    R::File: OwnedFile,
{
    let (mut file, beside) = make_beside(rt, alloc, path, old.is_some())?;
    let mut done = fill(&mut file, old, bytes, time).map_err(ReplaceFault::Write);
    if done.is_ok() {
        done = fs::rename(rt, beside.as_str(), path).map_err(ReplaceFault::Rename);
    }
    if done.is_err() {
        let _ = fs::remove_file(rt, beside.as_str());
    }
    done
}

/// Flushes the names of a file's directory to the disk, if the host can. The file is already in its place, so a failure
/// is not a fault.
fn sync_names<R: Files>(rt: &R, path: &str) {
    let above = match Path::new(path).parent() {
        Some(above) if !above.as_str().is_empty() => above.as_str(),
        _ => ".",
    };
    if let Ok(directory) = fs::open(rt, above) {
        let _ = directory.sync_all();
    }
}

/// Writes the bytes, flushes them to the disk, and sets the owner and the mode bits of the old file. Everything goes
/// through the handle, because by now the name may lead anywhere. The owner is set last, so that a file left by a kill
/// mostly belongs to this user, whose next command removes it.
fn fill<F: Write + OwnedFile>(
    file: &mut F,
    old: Option<Metadata>,
    bytes: NewBytes<'_>,
    time: Option<SystemTime>,
) -> Result<(), Error> {
    bytes.put(file)?;
    if let Some(time) = time {
        file.set_times(FileTimes::new().set_modified(time))?;
    }
    file.sync_all()?;
    match old {
        Some(old) => take_after(file, &old),
        None => Ok(()),
    }
}

/// Gives a file the owner and the mode bits of the old one.
fn take_after<F: OwnedFile>(file: &F, old: &Metadata) -> Result<(), Error> {
    // Only a privileged process may give a file away, and the bytes matter more than their owner.
    if file.set_owner(Some(old.uid()), Some(old.gid())).is_err() {
        let _ = file.set_owner(None, Some(old.gid()));
    }
    file.set_permissions(Permissions::from_mode(old.permissions().mode() & ACCESS_BITS))
}
