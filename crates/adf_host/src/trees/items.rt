//! What is written below a directory of the host.
ghost use Rattle.std.specs.Prelude.{◌≡◌};
ghost use Rattle.adf_host.specs.Paths.{top_of};

use crate::trees::faults::{ItemFault, WriteWhy};
use crate::trees::names::HostName;
use ados_name::Date3;
use std::alloc::{AllocError, Global};

/// A file or directory to write below a directory of the host.
#[derive(Drop)]
pub struct HostItem {
    /// The item of its directory, by its position in the list of items, which comes before it. `None`: directly below
    /// the top.
    pub above: Option<usize>,
    /// Its name there.
    pub name: HostName,
    pub kind: ItemKind,
    /// The time stamp that it gets.
    pub date: Date3,
}

/// What an item is.
#[derive(Clone, Copy, PartialEq, Eq)]
pub enum ItemKind {
    Directory,
    File,
}

/// The bytes of the files that are written, one after another.
pub trait Contents {
    /// The bytes of the file at this position of the list of items.
    fn bytes_of(&mut self, alloc: Global, place: usize) -> Result<Vec<u8>, AllocError>;
}

/// The maximum number of bytes in a path of the host.
const LONGEST_PATH: usize = 4_095;

/// The path of the directory for all items. An empty one is `.`.
pub(crate) fn top_of(directory: &str) -> &str
    ensures { result.now ≡ top_of directory.now }
{
    if directory.is_empty() { "." } else { directory }
}

/// The path of an item, or of the top, with the directory in front.
pub(crate) fn spelled_path(
    alloc: Global,
    directory: &str,
    items: &[HostItem],
    place: Option<usize>,
) -> Result<String, AllocError> {
    let mut path = String::from_str(alloc, top_of(directory))?;
    for at in way_to(alloc, items, place)?.iter().rev() {
        if let Some(item) = items.get(*at) {
            path.push('/')?;
            path.push_str(item.name.as_str())?;
        }
    }
    Ok(path)
}

/// The places of an item and of the directories that it is in, the item first.
fn way_to(
    alloc: Global,
    items: &[HostItem],
    place: Option<usize>,
) -> Result<Vec<usize>, AllocError> {
    let mut way = Vec::new(alloc);
    let mut next = place;
    for _ in 0..items.len() {
        let Some(at) = next else {
            return Ok(way);
        };
        way.push(at)?;
        next = above(items, at);
    }
    Ok(way)
}

/// The place of the directory that an item is in; `None` for the top.
pub(crate) fn above(items: &[HostItem], place: usize) -> Option<usize> {
    items.get(place)?.above
}

/// Refuses a list in which an item is in no directory before it, has too long a path, or is in the place of another.
pub(crate) fn refuse_items(
    alloc: Global,
    directory: &str,
    items: &[HostItem],
) -> Result<(), ItemFault> {
    if let Some(place) = first_outside(items) {
        return Err(fault(place, WriteWhy::NoDirectory));
    }
    if let Some(place) = first_long(alloc, top_of(directory).len(), items)? {
        return Err(fault(place, WriteWhy::Long));
    }
    match first_twice(alloc, items)? {
        Some(place) => Err(fault(place, WriteWhy::Twice)),
        None => Ok(()),
    }
}

/// The fault of an item.
pub(crate) fn fault(place: usize, why: WriteWhy) -> ItemFault {
    ItemFault {
        place: Some(place),
        why,
    }
}

/// The first item that is in no directory before it.
fn first_outside(items: &[HostItem]) -> Option<usize> {
    for (place, item) in items.iter().enumerate() {
        if let Some(above) = item.above {
            if above >= place || !is_directory(items, above) {
                return Some(place);
            }
        }
    }
    None
}

/// Whether the item at a place is a directory.
fn is_directory(items: &[HostItem], place: usize) -> bool {
    match items.get(place) {
        Some(item) => item.kind == ItemKind::Directory,
        None => false,
    }
}

/// The first item whose path is too long, below a directory whose path has this many bytes.
fn first_long(alloc: Global, top: usize, items: &[HostItem]) -> Result<Option<usize>, AllocError> {
    let mut lengths: Vec<usize> = Vec::new(alloc);
    for (place, item) in items.iter().enumerate() {
        let front = match item.above {
            Some(above) => lengths.get(above).copied().unwrap_or(top),
            None => top,
        };
        let length = front
            .saturating_add(1)
            .saturating_add(item.name.as_str().len());
        if length > LONGEST_PATH {
            return Ok(Some(place));
        }
        lengths.push(length)?;
    }
    Ok(None)
}

/// An item in the place of another one: with an equal name in the same directory.
fn first_twice(alloc: Global, items: &[HostItem]) -> Result<Option<usize>, AllocError> {
    let mut places = Vec::new(alloc);
    for (place, item) in items.iter().enumerate() {
        places.push((item.above, item.name.as_str(), place))?;
    }
    places.sort_unstable();
    Ok(second_of_pair(places.as_slice()))
}

/// The place of the first item with the directory and the name of the one before it.
fn second_of_pair(places: &[(Option<usize>, &str, usize)]) -> Option<usize> {
    for pair in places.windows(2) {
        if let [(one, name, _), (other, next, place)] = pair {
            if one == other && name == next {
                return Some(*place);
            }
        }
    }
    None
}
