//! Temporary files beside others: made and locked, and removed if a command left them when it was killed.
use crate::beside::{beside_path, is_beside_name};
use crate::directory::directory_and_name;
use crate::held::is_same;
use crate::letters::random_letters;
use crate::opening::{open_regular, reopen};
use crate::owned::OwnedFile;
use crate::prompt::PromptFiles;
use crate::replacing::ReplaceFault;
use adf_io::read_some;
use std::alloc::Global;
use std::fs;
use std::fs::{Metadata, OpenFile, OpenOptions, TryLockError};
use std::io::{Error, ErrorKind};
use std::os::unix::fs::{MetadataExt, OpenOptionsExt};
use std::path::PathBuf;
use std::rt::Files;

/// The maximum number of names that are tried for a temporary file.
const TRIES: u32 = 1_000;

/// The bytes of names that are read at once: more than the longest name has.
const PART: usize = 4_096;

/// Makes a temporary file beside another one, and locks it. If it is to replace a file, at first only its owner has
/// rights to it.
pub(crate) fn make_beside<R: PromptFiles>(
    rt: &R,
    alloc: Global,
    path: &str,
    replaces: bool,
) -> Result<(R::File, PathBuf), ReplaceFault>
where
    R::File: OwnedFile,
{
    let mut options = OpenOptions::new();
    options
        .write(true)
        .create_new(true)
        .mode(if replaces { 0o600 } else { 0o666 });
    for attempt in 0..TRIES {
        let letters = random_letters(rt, alloc, attempt)?;
        let beside = beside_path(alloc, path, letters.as_str())?;
        match options.open(rt, beside.as_str()) {
            Ok(file) => {
                if claim(rt, &file, beside.as_str()) {
                    return Ok((file, beside));
                }
            }
            Err(error) if error.kind() == ErrorKind::AlreadyExists => {}
            Err(error) => return Err(ReplaceFault::Beside(error)),
        }
    }
    Err(ReplaceFault::Beside(Error::from(ErrorKind::AlreadyExists)))
}

/// Locks a new temporary file. Returns false if another command took it for a leftover first. Where the host has no
/// locks, no command takes it for one.
fn claim<R: Files>(rt: &R, file: &R::File, path: &str) -> bool
where
    R::File: OwnedFile,
{
    !matches!(file.try_lock(), Err(TryLockError::WouldBlock)) && is_at(rt, file, path)
}

/// Whether an open file is the one at a path, where a link is not followed.
fn is_at<R: Files>(rt: &R, file: &R::File, path: &str) -> bool {
    match (file.metadata(), fs::symlink_metadata(rt, path)) {
        (Ok(opened), Ok(named)) => is_same(&opened, &named),
        _ => false,
    }
}

/// Removes the temporary files in a directory that commands of this user left when they were killed: regular files
/// that no command has locked. One that cannot be removed stays. So do all if the host does not say who this user is,
/// or which names the directory has. It is read once.
pub(crate) fn remove_leftovers<R: PromptFiles>(rt: &R, alloc: Global, directory: &str)
where
    R::File: OwnedFile,
{
    if let Some(user) = this_user(rt) {
        let _ = remove_those_of(rt, alloc, directory, user);
    }
}

/// The user of this process, if the host says it: the directory of a process belongs to its user.
pub(crate) fn this_user<R: Files>(rt: &R) -> Option<u32> {
    match fs::metadata(rt, "/proc/self") {
        Ok(process) => Some(process.uid()),
        Err(_) => None,
    }
}

/// Removes the temporary files in a directory that commands of a user left.
fn remove_those_of<R: PromptFiles>(
    rt: &R,
    alloc: Global,
    directory: &str,
    user: u32,
) -> Result<(), Error>
where
    R::File: OwnedFile,
{
    // With a slash at its end the path of a handle, which is a link, leads to the directory.
    let front = format!(in alloc; "{directory}/")?;
    let mut names = rt.open_dir(front.as_str())?;
    let mut part = [0; PART];
    for _ in 0..u64::MAX {
        let count = read_some(&mut names, &mut part)?;
        if count == 0 {
            return Ok(());
        }
        for name in part[..count].split(|byte| *byte == 0) {
            if is_beside_name(alloc, name)? {
                remove_named(rt, alloc, front.as_str(), name, user)?;
            }
        }
    }
    Ok(())
}

/// Removes the file with this name behind the front of a path, if a command of this user may have left it.
fn remove_named<R: PromptFiles>(
    rt: &R,
    alloc: Global,
    front: &str,
    name: &[u8],
    user: u32,
) -> Result<(), Error>
where
    R::File: OwnedFile,
{
    let Ok(name) = str::from_utf8(name) else {
        return Ok(());
    };
    let path = format!(in alloc; "{front}{name}")?;
    if let Ok(found) = fs::symlink_metadata(rt, path.as_str()) {
        if found.is_file() && found.uid() == user {
            remove_leftover(rt, alloc, path.as_str(), &found);
        }
    }
    Ok(())
}

/// Removes the regular file that was found at a path, unless a command has locked it. A file that took its place
/// meanwhile stays.
fn remove_leftover<R: PromptFiles>(rt: &R, alloc: Global, path: &str, found: &Metadata)
where
    R::File: OwnedFile,
{
    let Ok(read) = open_regular(rt, alloc, path) else {
        return;
    };
    // A network may lock only what is open for writing.
    let Ok(file) = reopen(rt, alloc, &read) else {
        return;
    };
    let is_found = match file.metadata() {
        Ok(opened) => is_same(&opened, found),
        Err(_) => false,
    };
    if is_found && file.try_lock().is_ok() && is_at(rt, &file, path) {
        let _ = fs::remove_file(rt, path);
    }
}
