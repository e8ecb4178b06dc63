//! Files whose owner is set through their handle, and which are locked. What is in a directory is reached through it.
use std::alloc::{AllocError, Global};
use std::fs::{File, OpenFile, TryLockError};
use std::io::Error;
use std::os::fd::AsRawFd;
use std::os::unix::fs::fchown;

/// An open file or directory. Its owner can be set, whatever its name leads to by then, and it can be locked. What is in
/// a directory is reached through it.
pub trait OwnedFile: OpenFile {
    /// Sets the user and the group by their numbers; `None` leaves one unchanged. Fails if the process has no
    /// permission.
    fn set_owner(&self, user: Option<u32>, group: Option<u32>) -> Result<(), Error>;

    /// Locks the file until this handle is dropped, unless it is locked by another one.
    fn try_lock(&self) -> Result<(), TryLockError>;

    /// The path that leads to what this handle is open on, whatever its name leads to by then.
    fn handle_path(&self, alloc: Global) -> Result<String, AllocError>;
}

impl OwnedFile for File {
    fn set_owner(&self, user: Option<u32>, group: Option<u32>) -> Result<(), Error> {
        fchown(self, user, group)
    }

    fn try_lock(&self) -> Result<(), TryLockError> {
        File::try_lock(self)
    }

    fn handle_path(&self, alloc: Global) -> Result<String, AllocError> {
        format!(in alloc; "/proc/self/fd/{}", self.as_raw_fd())
    }
}
