//! The files of a walk, opened for reading.
use crate::trees::walk::{HostEntry, HostKind, length_above};
use crate::{HeldTree, OpenFault, OwnedFile, PromptFiles};
use std::alloc::{AllocError, Global};
use std::rt::Files;

/// The directory in which an argument of a walk was found. It is held open, and the files below it are opened through it.
#[derive(Drop)]
pub struct HostReader<F> {
    /// Its path.
    path: String,
    tree: Option<HeldTree<F>>,
}

impl<F: OwnedFile + Drop> HostReader<F> {
    /// A reader without a directory yet.
    pub fn new(alloc: Global) -> HostReader<F> {
        HostReader {
            path: String::new(alloc),
            tree: None,
        }
    }

    /// Opens an entry for reading; a directory has nothing to read. Each directory on the way to it is opened by its name in
    /// the one above it. So what is opened is below the argument's directory, or the fault says that something else took the
    /// place of the entry or of a directory. A link is followed only in the place of a file, and only if no other user may
    /// have put it there to have a file read that only this user may read.
    pub fn open<R: Files<File = F> + PromptFiles>(
        &mut self,
        rt: &R,
        alloc: Global,
        entry: &HostEntry,
    ) -> Result<Option<F>, OpenFault> {
        let (top, below) = parts(entry);
        let tree = self.tree_at(rt, alloc, top)?;
        match entry.kind {
            HostKind::File { .. } => Ok(Some(tree.open_linked(rt, alloc, below)?)),
            HostKind::Directory if tree.enter(rt, alloc, below)? == entry.number => Ok(None),
            HostKind::Directory => Err(OpenFault::Moved),
        }
    }

    /// Opens the note of an entry for reading, in the same way, if the entry has one.
    pub fn open_note<R: Files<File = F> + PromptFiles>(
        &mut self,
        rt: &R,
        alloc: Global,
        entry: &HostEntry,
    ) -> Result<Option<F>, OpenFault> {
        let Some(note) = &entry.note else {
            return Ok(None);
        };
        let note = note.as_str();
        // The note of an argument's directory is beside it, and not in it.
        let at = entry.top.min(length_above(note));
        let (top, below) = split_at(note, at);
        let tree = self.tree_at(rt, alloc, top)?;
        Ok(Some(tree.open_linked(rt, alloc, below)?))
    }

    /// The directory at a path, which is opened unless it is the one that is held.
    fn tree_at<R: Files<File = F>>(
        &mut self,
        rt: &R,
        alloc: Global,
        path: &str,
    ) -> Result<&mut HeldTree<F>, OpenFault> {
        let tree = match self.tree.take() {
            Some(tree) if self.path.as_str() == path => tree,
            _ => HeldTree::at(rt, alloc, path)?,
        };
        self.path = String::from_str(alloc, path)?;
        Ok(self.tree.insert(tree))
    }
}

/// The path of the directory in which an entry was found, and the path of the entry below it.
fn parts(entry: &HostEntry) -> (&str, &str) {
    split_at(entry.path.as_str(), entry.top)
}

/// The first bytes of a path, and the others.
fn split_at(path: &str, at: usize) -> (&str, &str) {
    match (path.get(..at), path.get(at..)) {
        (Some(top), Some(below)) => (top, below),
        _ => ("", path),
    }
}
