//! The entries of a bundle with their paths.

use crate::bundle::BundleEntry;
use crate::bundle_fault::BundleWhy;
use ados_name::Name;
use std::alloc::Global;

/// A directory on the way to the entry read last: its position, and the length of its path.
#[derive(Clone, Copy)]
struct Open {
    place: usize,
    length: usize,
}

/// The entries read so far, each put below its directory by its path.
#[derive(Drop)]
pub(crate) struct BundleTree {
    entries: Vec<BundleEntry>,
    /// The directories on the way to the entry read last, and the path of the last of them.
    open: Vec<Open>,
    path: Vec<u8>,
}

/// What an entry's path has to be.
const PATH: &str = "names of 1 to 30 letters up to U+00FF without `:`, and `/` between them";

impl BundleTree {
    /// No entry yet.
    pub(crate) fn new(alloc: Global) -> BundleTree {
        BundleTree {
            entries: Vec::new(alloc),
            open: Vec::new(alloc),
            path: Vec::new(alloc),
        }
    }

    /// The entries.
    pub(crate) fn into_entries(self) -> Vec<BundleEntry> {
        self.entries
    }

    /// Adds an entry with this path. Its own name and directory are set by it.
    pub(crate) fn enter(&mut self, path: &[u8], told: BundleEntry) -> Result<(), BundleWhy> {
        let (front, name) = split_path(path);
        let Ok(name) = Name::new(name) else {
            return Err(BundleWhy::Wrong {
                member: "path",
                wanted: PATH,
            });
        };
        let above = self.leave_to(front)?;
        let entry = BundleEntry {
            above,
            name,
            ..told
        };
        if entry.size.is_none() {
            self.open.push(Open {
                place: self.entries.len(),
                length: path.len(),
            })?;
            self.path.clear();
            self.path.extend_from_slice(path)?;
        }
        self.entries.push(entry)?;
        Ok(())
    }

    /// Leaves directories until the one with this path is the last, and gives its position.
    fn leave_to(&mut self, front: Option<&[u8]>) -> Result<Option<usize>, BundleWhy> {
        let Some(front) = front else {
            self.open.clear();
            return Ok(None);
        };
        for _ in 0..self.open.len() {
            let Some(open) = self.open.last().copied() else {
                break;
            };
            if self.path.get(..open.length) == Some(front) {
                return Ok(Some(open.place));
            }
            self.open.truncate(self.open.len() - 1);
        }
        Err(BundleWhy::NoDirectory)
    }
}

/// A path without its last name, and its last name.
fn split_path(path: &[u8]) -> (Option<&[u8]>, &[u8]) {
    for at in (0..path.len()).rev() {
        if path[at] == b'/' {
            return (Some(&path[..at]), &path[at + 1..]);
        }
    }
    (None, path)
}
