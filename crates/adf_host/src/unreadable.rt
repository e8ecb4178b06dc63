//! Why a file of the host cannot be read.
use crate::held_tree::HeldTree;
use crate::host_words::HostWords;
use crate::image_file::open_below;
use crate::opening::OpenFault;
use crate::owned::OwnedFile;
use crate::prompt::PromptFiles;
use crate::standard::input_path;
use adf_block::layout::BLOCK_BYTES;
use adf_text::Grouped;
use std::alloc::Global;
use std::fs;
use std::fs::OpenFile;
use std::io::{Error, ErrorKind};
use std::rt::Files;
use thiserror::Error;

/// Why a file cannot be read, as the end of a sentence: `cannot read 'NAME': REASON`.
#[derive(Clone, Copy, Debug, Error)]
pub enum ReadReason {
    #[error("no such file")]
    NotFound,
    #[error("is a directory")]
    Directory,
    #[error("a part of the path is no directory")]
    NoDirectory,
    #[error("permission denied")]
    Denied,
    /// It is a link, a pipe, a device or a directory where a regular file is needed.
    #[error("is no regular file")]
    NoFile,
    /// Something else took its place while it was opened.
    #[error("another file has taken its place")]
    Moved,
    /// A link that another user may have made, to a file that this user may read.
    #[error("it is a symbolic link of another user")]
    ForeignLink,
    /// Any other reason that the host gives.
    #[error("{}", HostWords(*.0))]
    Host(Error),
    /// It can be opened, so a read failed.
    #[error("a read failed")]
    Read,
    /// It ends before this number of blocks.
    #[error("it has fewer than {} blocks", Grouped(u64::from(*.0)))]
    Short(u32),
    /// It can be read only once, so it is not known which of these it was.
    #[error("a read failed, or it has fewer than {} blocks", Grouped(u64::from(*.0)))]
    ReadOrShort(u32),
}

impl From<Error> for ReadReason {
    fn from(error: Error) -> ReadReason {
        let kind = error.kind();
        if kind == ErrorKind::NotFound {
            return ReadReason::NotFound;
        }
        if kind == ErrorKind::IsADirectory {
            return ReadReason::Directory;
        }
        if kind == ErrorKind::NotADirectory {
            return ReadReason::NoDirectory;
        }
        if kind == ErrorKind::PermissionDenied {
            return ReadReason::Denied;
        }
        ReadReason::Host(error)
    }
}

impl From<OpenFault> for ReadReason {
    fn from(fault: OpenFault) -> ReadReason {
        match fault {
            OpenFault::NoFile => ReadReason::NoFile,
            OpenFault::Moved => ReadReason::Moved,
            OpenFault::ForeignLink => ReadReason::ForeignLink,
            OpenFault::Host(error) => ReadReason::from(error),
            OpenFault::Memory => ReadReason::Host(Error::from(ErrorKind::OutOfMemory)),
        }
    }
}

/// Why the file at a path could not be read, by asking the host once more. To be called after a failed read.
///
/// The host may have changed since. Then it may be another reason.
pub fn why_unreadable<R: Files>(rt: &R, path: &str) -> ReadReason {
    match fs::metadata(rt, path) {
        Ok(found) if found.is_dir() => match rt.open_dir(path) {
            Err(error) if error.kind() == ErrorKind::PermissionDenied => ReadReason::Denied,
            _ => ReadReason::Directory,
        },
        // A pipe can be read only once. It is not opened here.
        Ok(found) if !found.is_file() => ReadReason::Read,
        Ok(_) => match fs::open(rt, path) {
            Ok(_) => ReadReason::Read,
            Err(error) => ReadReason::from(error),
        },
        Err(error) => ReadReason::from(error),
    }
}

/// Why no image was read from the file at a path: of its first `blocks` blocks, or without a number of all of it. To be called
/// after a failed read, as [`why_unreadable`].
pub fn why_no_image<R: Files>(rt: &R, path: &str, blocks: Option<u32>) -> ReadReason {
    let path = input_path(path);
    match (why_unreadable(rt, path), blocks) {
        (ReadReason::Read, Some(blocks)) => why_no_blocks(rt, path, blocks),
        (reason, _) => reason,
    }
}

/// Why no image was read from a file below a directory, as [`why_no_image`].
pub fn why_no_image_below<R: PromptFiles>(
    rt: &R,
    alloc: Global,
    directory: &str,
    path: &str,
    blocks: Option<u32>,
) -> ReadReason
where
    R::File: OwnedFile + Drop,
{
    match (open_below(rt, alloc, directory, path), blocks) {
        (Ok(file), Some(blocks)) => match file.metadata() {
            Ok(found) if found.len() / u64::from(BLOCK_BYTES) < u64::from(blocks) => {
                ReadReason::Short(blocks)
            }
            _ => ReadReason::Read,
        },
        (Ok(_), None) => ReadReason::Read,
        (Err(fault), _) => why_not_opened(rt, alloc, directory, path, fault),
    }
}

/// Why a file below a directory was not opened, with this fault. It may be a directory, which may be closed to this user.
fn why_not_opened<R: PromptFiles>(
    rt: &R,
    alloc: Global,
    directory: &str,
    path: &str,
    fault: OpenFault,
) -> ReadReason
where
    R::File: OwnedFile + Drop,
{
    let entered = match HeldTree::at(rt, alloc, directory) {
        Ok(mut tree) => tree.enter(rt, alloc, path),
        Err(fault) => Err(fault),
    };
    match entered {
        Ok(_) => ReadReason::Directory,
        Err(OpenFault::Host(error)) if error.kind() == ErrorKind::PermissionDenied => {
            ReadReason::Denied
        }
        Err(_) => ReadReason::from(fault),
    }
}

/// Why not so many blocks of a file were read, which can be opened.
fn why_no_blocks<R: Files>(rt: &R, path: &str, blocks: u32) -> ReadReason {
    match fs::metadata(rt, path) {
        Ok(found) if !found.is_file() => ReadReason::ReadOrShort(blocks),
        Ok(found) if found.len() / u64::from(BLOCK_BYTES) < u64::from(blocks) => {
            ReadReason::Short(blocks)
        }
        _ => ReadReason::Read,
    }
}
