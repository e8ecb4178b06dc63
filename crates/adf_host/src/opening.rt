//! Regular files of the host, opened for reading whatever takes their places meanwhile.
use crate::directory::{FileNumber, directory_and_name};
use crate::host_words::HostWords;
use crate::owned::OwnedFile;
use crate::prompt::PromptFiles;
use crate::temporary::this_user;
use std::alloc::{AllocError, Global};
use std::fs;
use std::fs::{Metadata, OpenFile, OpenOptions};
use std::io::Error;
use std::os::unix::fs::MetadataExt;
use std::rt::Files;
use thiserror::Error;

/// Why a file is not opened, as the end of a sentence: `cannot read 'NAME': REASON`.
#[derive(Clone, Copy, Debug, Error)]
pub enum OpenFault {
    /// A link, a pipe, a device or a directory is there.
    #[error("is no regular file")]
    NoFile,
    /// Something else took its place while it was opened.
    #[error("another file has taken its place")]
    Moved,
    /// It is a link that another user may have made, to a file which that user may not be allowed to read.
    #[error("it is a symbolic link of another user")]
    ForeignLink,
    /// Any other reason that the host gives.
    #[error("{}", HostWords(*.0))]
    Host(Error),
    #[error("there is not enough memory")]
    Memory,
}

impl From<Error> for OpenFault {
    fn from(error: Error) -> OpenFault {
        OpenFault::Host(error)
    }
}

impl From<AllocError> for OpenFault {
    fn from(_error: AllocError) -> OpenFault {
        OpenFault::Memory
    }
}

/// Opens the regular file at a path for reading. A link at its end is not followed, and nothing but a regular file is
/// opened unless it takes the file's place just then. If it is a pipe, the call ends after some seconds.
///
/// What is returned is what the name itself stands for, whatever was there before.
pub fn open_regular<R: PromptFiles>(
    rt: &R,
    alloc: Global,
    path: &str,
) -> Result<R::File, OpenFault> {
    if !fs::symlink_metadata(rt, path)?.is_file() {
        return Err(OpenFault::NoFile);
    }
    let file = open_soon(rt, alloc, path)?;
    let opened = file.metadata()?;
    // A link has a number of its own. So the name itself stands for the file that was opened.
    let standing = fs::symlink_metadata(rt, path)?;
    if opened.is_file() && FileNumber::of(&opened) == FileNumber::of(&standing) {
        Ok(file)
    } else {
        Err(OpenFault::Moved)
    }
}

/// Opens the regular file at a path for reading, as [`open_regular`] does. If a link is there, the file that it leads to is
/// opened, unless another user may have put the link there to have a file read that only this user may read: the
/// directory, described by its handle, must be closed to others, and it or the file's owner must be this user's.
pub(crate) fn open_followed<R: PromptFiles>(
    rt: &R,
    alloc: Global,
    directory: &Metadata,
    path: &str,
) -> Result<R::File, OpenFault> {
    if !fs::symlink_metadata(rt, path)?.is_symlink() {
        return open_regular(rt, alloc, path);
    }
    if !fs::metadata(rt, path)?.is_file() {
        return Err(OpenFault::NoFile);
    }
    let file = open_soon(rt, alloc, path)?;
    let opened = file.metadata()?;
    if !opened.is_file() {
        return Err(OpenFault::Moved);
    }
    if may_follow(this_user(rt), directory, &opened) {
        Ok(file)
    } else {
        Err(OpenFault::ForeignLink)
    }
}

/// Whether a link at a path may be followed to a file that was found behind it, as the link's directory is now. A caller
/// that opens the file decides again, by the handles of both.
pub fn may_follow_at<R: Files>(
    rt: &R,
    alloc: Global,
    path: &str,
    behind: &Metadata,
) -> Result<bool, AllocError> {
    let (above, _) = directory_and_name(path);
    // With a slash at its end a link leads to its directory.
    let above = format!(in alloc; "{above}/")?;
    match fs::metadata(rt, above.as_str()) {
        Ok(directory) => Ok(may_follow(this_user(rt), &directory, behind)),
        Err(_) => Ok(false),
    }
}

/// Opens a file for reading: within a time limit, unless its directory, as the path leads there, is one in which no other
/// user may put a pipe in its place.
fn open_soon<R: PromptFiles>(rt: &R, alloc: Global, path: &str) -> Result<R::File, OpenFault> {
    let (above, _) = directory_and_name(path);
    // With a slash at its end the path of a handle, which is a link, leads to the directory.
    let above = format!(in alloc; "{above}/")?;
    let directory = fs::metadata(rt, above.as_str())?;
    if is_own(this_user(rt), &directory) {
        Ok(fs::open(rt, path)?)
    } else {
        Ok(rt.open_promptly(alloc, path)?)
    }
}

/// The mode bits for the rights of the group and of others to write.
const NOT_OWNER_WRITES: u32 = 0o022;

/// Whether only this user may change the names in a directory.
fn is_own(user: Option<u32>, directory: &Metadata) -> bool {
    user == Some(directory.uid()) && directory.mode() & NOT_OWNER_WRITES == 0
}

/// The mode bit for the right of other users to write.
const OTHERS_WRITE: u32 = 0o002;

/// Whether a link in a directory may be followed to a file: only the owner of the directory can have made it, and that is
/// this user, or is the owner of the file too.
fn may_follow(user: Option<u32>, directory: &Metadata, file: &Metadata) -> bool {
    let owner = directory.uid();
    let is_closed = directory.mode() & OTHERS_WRITE == 0;
    is_closed && (user == Some(owner) || file.uid() == owner)
}

/// Opens a file again for writing, by the path of its handle: no other file, and no device, takes its place.
pub(crate) fn reopen<R: PromptFiles>(
    rt: &R,
    alloc: Global,
    file: &R::File,
) -> Result<R::File, OpenFault>
where
    R::File: OwnedFile,
{
    let path = file.handle_path(alloc)?;
    let opened = FileNumber::of(&file.metadata()?);
    if FileNumber::of(&fs::metadata(rt, path.as_str())?) != opened {
        return Err(OpenFault::Moved);
    }
    Ok(OpenOptions::new().write(true).open(rt, path.as_str())?)
}
