//! Files below a directory of the host that is held open.
use crate::directory::{FileNumber, HeldDirectory};
use crate::opening::{OpenFault, open_followed, open_regular};
use crate::owned::OwnedFile;
use crate::prompt::PromptFiles;
use std::alloc::{AllocError, Global};
use std::io::{Error, ErrorKind};
use std::rt::Files;

/// The maximum number of directories below the top that are kept open. With the top, the last one of a deeper path, and the
/// handles of one that is just opened, at most 64 are open at a time.
const MOST_KEPT: usize = 60;

/// A directory that is held open, and the files below it. Each directory on the way to a file is opened by its name in the
/// one above it, where a link is not followed. So whatever another program puts in the place of one, what is opened is below
/// the top.
#[derive(Drop)]
pub struct HeldTree<F> {
    top: HeldDirectory<F>,
    /// The first directories on the way to the one that was reached last, each below the one before it.
    kept: Vec<KeptDirectory<F>>,
    /// The directory that was reached last, if it is below more directories than are kept.
    deep: Option<HeldDirectory<F>>,
}

/// An open directory, with its name.
#[derive(Drop)]
struct KeptDirectory<F> {
    name: String,
    directory: HeldDirectory<F>,
}

impl<F: OwnedFile + Drop> HeldTree<F> {
    /// Opens the directory at a path, where links are followed. An empty path is `.`. Fails with the kind `Unsupported`
    /// if the host has no paths for handles, as Linux without `/proc`.
    pub fn at<R: Files<File = F>>(
        rt: &R,
        alloc: Global,
        path: &str,
    ) -> Result<HeldTree<F>, OpenFault> {
        let path = if path.is_empty() { "." } else { path };
        Ok(HeldTree {
            top: HeldDirectory::at(rt, alloc, path)?,
            kept: Vec::new(alloc),
            deep: None,
        })
    }

    /// Opens the directory at a path below the top, and returns its number. An empty path is the top. Fails if a link, a
    /// file or nothing is there or on the way.
    pub fn enter<R: Files<File = F>>(
        &mut self,
        rt: &R,
        alloc: Global,
        path: &str,
    ) -> Result<FileNumber, OpenFault> {
        Ok(self.reach(rt, alloc, path)?.number()?)
    }

    /// Opens the regular file at a path below the top for reading. No link is followed.
    pub fn open<R: Files<File = F> + PromptFiles>(
        &mut self,
        rt: &R,
        alloc: Global,
        path: &str,
    ) -> Result<F, OpenFault> {
        let (above, name) = above_and_name(path);
        refuse_dots(name)?;
        let path = self.reach(rt, alloc, above)?.path_of(alloc, name)?;
        open_regular(rt, alloc, path.as_str())
    }

    /// Opens the regular file at a path below the top for reading. A link on the way is not followed; one in the place of the
    /// file is, unless another user may have put it there to have a file read that only this user may read.
    pub fn open_linked<R: Files<File = F> + PromptFiles>(
        &mut self,
        rt: &R,
        alloc: Global,
        path: &str,
    ) -> Result<F, OpenFault> {
        let (above, name) = above_and_name(path);
        refuse_dots(name)?;
        let directory = self.reach(rt, alloc, above)?;
        let path = directory.path_of(alloc, name)?;
        open_followed(rt, alloc, &directory.metadata()?, path.as_str())
    }

    /// The directory at a path below the top.
    fn reach<R: Files<File = F>>(
        &mut self,
        rt: &R,
        alloc: Global,
        path: &str,
    ) -> Result<&HeldDirectory<F>, Error> {
        self.deep = None;
        let mut depth: usize = 0;
        for name in path.split('/') {
            if name.is_empty() {
                continue;
            }
            if !self.has(depth, name) {
                refuse_dots(name)?;
                self.kept.truncate(depth);
                let directory = self.last().below(rt, alloc, name)?;
                self.keep(alloc, name, directory)?;
            }
            depth = depth.saturating_add(1);
        }
        self.kept.truncate(depth);
        Ok(self.last())
    }

    /// Whether a directory is open so many levels below the top, and has this name.
    fn has(&self, depth: usize, name: &str) -> bool {
        match self.kept.get(depth) {
            Some(opened) => opened.name.as_str() == name,
            None => false,
        }
    }

    /// Adds a directory below the last one.
    fn keep(
        &mut self,
        alloc: Global,
        name: &str,
        directory: HeldDirectory<F>,
    ) -> Result<(), AllocError> {
        if self.kept.len() >= MOST_KEPT {
            self.deep = Some(directory);
            return Ok(());
        }
        let name = String::from_str(alloc, name)?;
        self.kept.push(KeptDirectory { name, directory })?;
        Ok(())
    }

    /// The directory that was reached last.
    fn last(&self) -> &HeldDirectory<F> {
        if let Some(directory) = &self.deep {
            return directory;
        }
        match self.kept.last() {
            Some(opened) => &opened.directory,
            None => &self.top,
        }
    }
}

/// The path of the directory of a path below a top, which is empty for the top, and the last name.
fn above_and_name(path: &str) -> (&str, &str) {
    match path.rsplit_once('/') {
        Some((above, name)) => (above, name),
        None => ("", path),
    }
}

/// Refuses the names that lead to a directory itself, or above it.
fn refuse_dots(name: &str) -> Result<(), Error> {
    match name {
        "" | "." | ".." => Err(Error::from(ErrorKind::InvalidFilename)),
        _ => Ok(()),
    }
}
