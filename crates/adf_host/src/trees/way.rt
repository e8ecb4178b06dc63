//! The directories that are open on the way to an item.
ghost use Rattle.std.specs.Prelude.{◌≤◌};

use crate::trees::faults::{ItemFault, WriteWhy};
use crate::trees::items::{HostItem, above, fault};
use crate::trees::standing::{Standing, standing_at};
use crate::{FileNumber, HeldDirectory, OwnedFile};
use std::alloc::{AllocError, Global};
use std::io::Error;
use std::marker::Model;
use std::rt::Files;

/// The maximum number of directories of items that are kept open. With the top, and the two handles of one that is just
/// opened, at most 64 are open at a time.
const MOST_OPEN: usize = 61;

/// The number of levels above the last open directory in which each one stays open.
const NEAR: usize = 8;

/// The directories of items, each opened by its name in the one above it, where a link is not followed.
#[derive(Drop)]
pub(crate) struct Way<F> {
    top: HeldDirectory<F>,
    open: OpenItems<F>,
    /// The number of each item's directory that was opened. If it is opened again, it must be the same.
    numbers: Vec<Option<FileNumber>>,
}

/// The open directory of an item.
#[derive(Drop)]
struct OpenItem<F> {
    place: usize,
    /// The number of directories on the way to it, and itself.
    level: usize,
    directory: HeldDirectory<F>,
}

/// Directories on the way to the one that was reached last, which is the last of them, each below the one before it. They
/// are dense near the last one and sparse far above it: so the way back up any number of levels opens at most a quarter as
/// many again. Contracts see how many they are.
#[derive(Drop)]
struct OpenItems<F> {
    directories: Vec<OpenItem<F>>,
}

impl<F> Model for OpenItems<F> {
    ghost use Rattle.std.specs.Prelude.{ℕ, ◌≤◌, length};

    ghost Value = { ℕ };

    ghost view = { λ all. length all.directories.items };

    ghost invariant = { λ all. length all.directories.items ≤ 61 };
}

impl<F: Drop> OpenItems<F> {
    /// Adds an open directory, and closes those that it needs no longer. If there are still as many as may be, the first one
    /// is closed too.
    fn add(&mut self, opened: OpenItem<F>) -> Result<(), AllocError> {
        let last = opened.level;
        self.directories
            .retain(|before| stays_open(before.level, last));
        if self.directories.len() >= MOST_OPEN {
            self.directories.remove(0);
        }
        match self.directories.push(opened) {
            Ok(()) => Ok(()),
            Err(_) => Err(AllocError),
        }
    }

    /// The level of the last directory; that of the top is 0.
    fn level(&self) -> usize {
        match self.directories.last() {
            Some(opened) => opened.level,
            None => 0,
        }
    }

    /// Whether the directory of an item is open.
    fn has(&self, place: usize) -> bool {
        self.directories.iter().any(|opened| opened.place == place)
    }

    /// Closes all directories behind that of an item, or all.
    fn keep_to(&mut self, place: Option<usize>)
        ensures { self.new ≤ self.old }
    {
        let kept = match place {
            Some(place) => self
                .directories
                .iter()
                .position(|opened| opened.place == place),
            None => None,
        };
        match kept {
            Some(index) => self.directories.truncate(index.saturating_add(1)),
            None => self.directories.clear(),
        }
    }
}

/// Whether a directory at a level stays open while the last one is at another. At 8, 16, 32 levels above the last one, and
/// so on, only each second, fourth, eighth directory does.
fn stays_open(level: usize, last: usize) -> bool {
    last.saturating_sub(level) / NEAR < lowest_bit(level)
}

/// The largest power of two that divides a number; 0 for 0.
fn lowest_bit(number: usize) -> usize {
    number & number.wrapping_neg()
}

impl<F: OwnedFile + Drop> Way<F> {
    /// The way that starts at a top.
    pub(crate) fn from_top(
        alloc: Global,
        top: HeldDirectory<F>,
        items: &[HostItem],
    ) -> Result<Way<F>, AllocError> {
        let mut numbers = Vec::new(alloc);
        numbers.resize(items.len(), None)?;
        Ok(Way {
            top,
            open: OpenItems {
                directories: Vec::new(alloc),
            },
            numbers,
        })
    }

    /// The directory of an item, or the top.
    pub(crate) fn reach<R: Files<File = F>>(
        &mut self,
        rt: &R,
        alloc: Global,
        items: &[HostItem],
        place: Option<usize>,
    ) -> Result<&HeldDirectory<F>, ItemFault> {
        let missing = self.go_back(alloc, items, place)?;
        for next in missing.iter().rev() {
            self.enter(rt, alloc, items, *next)?;
        }
        Ok(self.last())
    }

    /// Goes back to the last open directory on the way to an item's, and returns the places of those behind it, the
    /// item first.
    fn go_back(
        &mut self,
        alloc: Global,
        items: &[HostItem],
        place: Option<usize>,
    ) -> Result<Vec<usize>, AllocError> {
        let mut missing = Vec::new(alloc);
        let mut next = place;
        for _ in 0..items.len() {
            let Some(at) = next else {
                break;
            };
            if self.open.has(at) {
                break;
            }
            missing.push(at)?;
            next = above(items, at);
        }
        self.open.keep_to(next);
        Ok(missing)
    }

    /// The directory that was reached last.
    fn last(&self) -> &HeldDirectory<F> {
        match self.open.directories.last() {
            Some(opened) => &opened.directory,
            None => &self.top,
        }
    }

    /// Opens the directory of an item in the one that was reached last.
    fn enter<R: Files<File = F>>(
        &mut self,
        rt: &R,
        alloc: Global,
        items: &[HostItem],
        place: usize,
    ) -> Result<(), ItemFault> {
        let Some(item) = items.get(place) else {
            return Err(fault(place, WriteWhy::NoDirectory));
        };
        let name = item.name.as_str();
        let level = self.open.level().saturating_add(1);
        let opened = match self.last().below(rt, alloc, name) {
            Ok(directory) => self.known(place, directory),
            Err(error) => Err(why_closed(rt, alloc, self.last(), name, error)),
        };
        match opened {
            Ok(directory) => {
                self.open.add(OpenItem {
                    place,
                    level,
                    directory,
                })?;
                Ok(())
            }
            Err(why) => Err(fault(place, why)),
        }
    }

    /// The directory of an item, unless another one was there before.
    fn known(
        &mut self,
        place: usize,
        directory: HeldDirectory<F>,
    ) -> Result<HeldDirectory<F>, WriteWhy> {
        let number = directory.number()?;
        match self.numbers.get_mut(place) {
            Some(known) if known.is_some_and(|known| known != number) => Err(WriteWhy::Moved),
            Some(known) => {
                *known = Some(number);
                Ok(directory)
            }
            None => Ok(directory),
        }
    }
}

/// Why a directory is not opened.
fn why_closed<R: Files>(
    rt: &R,
    alloc: Global,
    above: &HeldDirectory<R::File>,
    name: &str,
    error: Error,
) -> WriteWhy
where
    R::File: OwnedFile,
{
    match standing_at(rt, alloc, above, name) {
        Ok(Standing::Link) => WriteWhy::Link,
        Ok(Standing::File | Standing::Other) => WriteWhy::NoDirectory,
        _ => WriteWhy::Host(error),
    }
}
