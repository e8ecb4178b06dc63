//! Whether another command or a mount works on an image file.
use crate::image_file::open_below;
use crate::prompt::PromptFiles;
use crate::standard::input_path;
use std::alloc::Global;
use std::fs::{self, File, TryLockError};
use std::rt::Files;

/// Whether another command or a mount has a regular file locked. The file is not locked by this call for longer than it takes.
///
/// A path that leads to no file, or to one that cannot be read, is not locked.
pub fn is_held<R: Files<File = File>>(rt: &R, path: &str) -> bool {
    // A pipe can be read only once. It is not opened here.
    let path = input_path(path);
    if !fs::metadata(rt, path).is_ok_and(|found| found.is_file()) {
        return false;
    }
    match fs::open(rt, path) {
        Ok(file) => is_locked(&file),
        Err(_) => false,
    }
}

/// Whether another command or a mount has a file below a directory locked, as [`is_held`]. The file is opened as by
/// [`open_below`].
pub fn is_held_below<R: Files<File = File> + PromptFiles>(
    rt: &R,
    alloc: Global,
    directory: &str,
    path: &str,
) -> bool {
    match open_below(rt, alloc, directory, path) {
        Ok(file) => is_locked(&file),
        Err(_) => false,
    }
}

/// Whether another handle has the file locked against all others. Afterwards this one has it not.
pub(crate) fn is_locked(file: &File) -> bool {
    let tried = file.try_lock_shared();
    let _ = file.unlock();
    matches!(tried, Err(TryLockError::WouldBlock))
}
