//! The host files and directories of a bundle, and their bytes.

use crate::bytes::VolumeBytes;
use adf_host::{Contents, HostItem, HostName, ItemKind};
use ados_name::{Date3, Name};
use std::alloc::{AllocError, Global};
use std::mem;

/// The items of a bundle: `files`, the entries below it, and `volume.json`, with these dates.
pub(crate) fn bundle_items(
    alloc: Global,
    entries: Vec<HostItem>,
    made: Date3,
    changed: Date3,
) -> Result<Vec<HostItem>, AllocError> {
    let mut items = Vec::with_capacity(alloc, entries.len().saturating_add(2))?;
    items.push(HostItem {
        above: None,
        name: HostName::of_name(alloc, &Name::new(b"files").unwrap())?,
        kind: ItemKind::Directory,
        date: made,
    })?;
    for entry in entries {
        let above = match entry.above {
            Some(place) => place.saturating_add(1),
            None => 0,
        };
        items.push(HostItem {
            above: Some(above),
            ..entry
        })?;
    }
    items.push(HostItem {
        above: None,
        name: HostName::of_name(alloc, &Name::new(b"volume.json").unwrap())?,
        kind: ItemKind::File,
        date: changed,
    })?;
    Ok(items)
}

/// The bytes of a bundle's items.
#[derive(Drop)]
pub(crate) struct BundleBytes<'a> {
    pub(crate) files: VolumeBytes<'a>,
    /// The bytes of `volume.json`, which are handed out once, and its position.
    pub(crate) description: Vec<u8>,
    pub(crate) last: usize,
}

impl<'a> Contents for BundleBytes<'a> {
    fn bytes_of(&mut self, alloc: Global, place: usize) -> Result<Vec<u8>, AllocError> {
        if place == self.last {
            return Ok(mem::replace(&mut self.description, Vec::new(alloc)));
        }
        match place.checked_sub(1) {
            Some(entry) => self.files.bytes_of(alloc, entry),
            None => Ok(Vec::new(alloc)),
        }
    }
}
