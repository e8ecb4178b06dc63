//! Directories of the host that are held open.
ghost use Rattle.std.specs.Prelude.{◌≡◌, ◌≤◌, ◌∷◌, ◌++◌, IfOk, string_bytes};
ghost use Rattle.std.specs.Path.{slash};
ghost use Rattle.adf_host.specs.Held.{held_path};

use crate::owned::OwnedFile;
use crate::prompt::PromptFiles;
use crate::temporary::remove_leftovers;
use std::alloc::{AllocError, Global};
use std::fs;
use std::fs::{FileTimes, Metadata};
use std::io::{Error, ErrorKind};
use std::os::unix::fs::MetadataExt;
use std::rt::Files;
use std::time::SystemTime;

/// The number of a file on its host: the device, and the inode there. No two files have it at one time.
#[derive(Clone, Copy, PartialEq, Eq)]
pub struct FileNumber {
    device: u64,
    inode: u64,
}

impl FileNumber {
    /// The number of the file with this description.
    pub fn of(found: &Metadata) -> FileNumber {
        FileNumber {
            device: found.dev(),
            inode: found.ino(),
        }
    }

    /// Whether the host's list of locks has a file with this number under this place: the two numbers of its device, in
    /// hexadecimal digits, and that of its inode, as `08:02:1311`.
    pub(crate) fn is_listed_as(self, place: &str) -> bool {
        let mut numbers = place.split(':');
        let major = self.device >> 8 & 0xFFF | self.device >> 32 & 0xFFFF_F000;
        let minor = self.device & 0xFF | self.device >> 12 & 0xFFFF_FF00;
        next_is(numbers.next(), major, 16)
            && next_is(numbers.next(), minor, 16)
            && next_is(numbers.next(), self.inode, 10)
    }
}

/// Whether a text is this number, in digits of this base.
fn next_is(text: Option<&str>, number: u64, base: u32) -> bool
    requires two { 2 ≤ base }
    requires letters { base ≤ 36 }
{
    match text {
        Some(text) => u64::from_str_radix(text, base).ok() == Some(number),
        None => false,
    }
}

/// A directory that is held open. A name in it is reached through its handle, so that whatever its own path leads to by
/// then, what is done under the name is done in this directory.
#[derive(Drop)]
pub struct HeldDirectory<F> {
    file: F,
    /// The path that leads to it by its handle.
    path: String,
}

impl<F: OwnedFile> HeldDirectory<F> {
    /// Opens the directory at a path, where links are followed. Fails with the kind `Unsupported` if the host has no
    /// paths for handles, as Linux without `/proc`.
    pub fn at<R: Files<File = F>>(
        rt: &R,
        alloc: Global,
        path: &str,
    ) -> Result<HeldDirectory<F>, Error> {
        // Only a directory is opened at such a path: no pipe keeps the command waiting.
        let path = format!(in alloc; "{path}/")?;
        HeldDirectory::of(rt, alloc, fs::open(rt, path.as_str())?)
    }

    /// Opens a directory by its name in this one. Fails if a link or a file is there.
    pub fn below<R: Files<File = F>>(
        &self,
        rt: &R,
        alloc: Global,
        name: &str,
    ) -> Result<HeldDirectory<F>, Error> {
        let path = self.path_of(alloc, name)?;
        let opened = match HeldDirectory::at(rt, alloc, path.as_str()) {
            Ok(opened) => opened,
            Err(error) => return Err(why_closed(rt, path.as_str(), error)),
        };
        // A link has a number of its own. So the name itself stands for the directory that was opened.
        let standing = fs::symlink_metadata(rt, path.as_str())?;
        if FileNumber::of(&standing) != opened.number()? {
            return Err(in_the_way());
        }
        Ok(opened)
    }

    /// The directory that a handle is open on, if the path for the handle leads to it.
    fn of<R: Files<File = F>>(rt: &R, alloc: Global, file: F) -> Result<HeldDirectory<F>, Error> {
        let path = file.handle_path(alloc)?;
        let opened = FileNumber::of(&file.metadata()?);
        match fs::metadata(rt, path.as_str()) {
            Ok(found) if FileNumber::of(&found) == opened => Ok(HeldDirectory { file, path }),
            _ => Err(Error::new(ErrorKind::Unsupported, "there is no /proc")),
        }
    }

    /// The path of a name in this directory, through its handle.
    pub fn path_of(&self, alloc: Global, name: &str) -> Result<String, AllocError>
        ensures { IfOk result (λ path. string_bytes path ≡ held_path self.now ++ slash ∷ name.now) }
    {
        format!(in alloc; "{}/{name}", self.path.as_str())
    }

    /// The description of this directory, by its handle.
    pub(crate) fn metadata(&self) -> Result<Metadata, Error> {
        self.file.metadata()
    }

    /// The number of this directory.
    pub fn number(&self) -> Result<FileNumber, Error> {
        Ok(FileNumber::of(&self.file.metadata()?))
    }

    /// Removes the temporary files in this directory that commands of this user left when they were killed.
    pub fn remove_leftovers<R: PromptFiles + Files<File = F>>(&self, rt: &R, alloc: Global) {
        remove_leftovers(rt, alloc, self.path.as_str());
    }

    /// Sets the time of the last change.
    pub fn set_modified(&self, time: SystemTime) -> Result<(), Error> {
        self.file.set_times(FileTimes::new().set_modified(time))
    }
}

/// The error for a link in the place of a directory.
fn in_the_way() -> Error {
    Error::new(ErrorKind::NotADirectory, "a link is in the way")
}

/// Why a directory is not opened, with this error: a link that leads nowhere is in the way, and nothing is missing.
fn why_closed<R: Files>(rt: &R, path: &str, error: Error) -> Error {
    if error.kind() == ErrorKind::NotFound && fs::symlink_metadata(rt, path).is_ok() {
        return in_the_way();
    }
    error
}

/// A file by its name in its directory, which is held open.
#[derive(Drop)]
pub(crate) struct HeldPlace<F> {
    /// `None` if the host has no paths for handles.
    directory: Option<HeldDirectory<F>>,
    path: String,
}

impl<F: OwnedFile> HeldPlace<F> {
    /// Opens the directory of the file at a path.
    pub(crate) fn of<R: Files<File = F>>(
        rt: &R,
        alloc: Global,
        path: &str,
    ) -> Result<HeldPlace<F>, Error> {
        let (above, name) = directory_and_name(path);
        match HeldDirectory::at(rt, alloc, above) {
            Ok(directory) => {
                let path = directory.path_of(alloc, name)?;
                Ok(HeldPlace {
                    directory: Some(directory),
                    path,
                })
            }
            Err(error) if error.kind() == ErrorKind::Unsupported => Ok(HeldPlace {
                directory: None,
                path: String::from_str(alloc, path)?,
            }),
            Err(error) => Err(error),
        }
    }

    /// The path of the file: through the handle of its directory, or as it was given if the host has no paths for
    /// handles.
    pub(crate) fn path(&self) -> &str {
        self.path.as_str()
    }
}

/// The directory of a path, and its last name.
pub(crate) fn directory_and_name(path: &str) -> (&str, &str) {
    match path.rsplit_once('/') {
        Some(("", name)) => ("/", name),
        Some((above, name)) => (above, name),
        None => (".", path),
    }
}
