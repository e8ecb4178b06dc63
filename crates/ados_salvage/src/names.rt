//! The names of entries, each different in its directory.
use crate::salvaged::{Salvaged, push_ending};
use ados_name::Name;
use std::alloc::{AllocError, Global};
use std::collections::BTreeSet;

/// The directory for recovered entries.
const LOST_AND_FOUND: &[u8] = b"lost+found";

/// More endings than a text of at most 30 bytes can have, because each has two bytes or more.
const MOST_ENDINGS: u32 = 16;

/// Where an entry is.
#[derive(Clone, Copy, PartialEq, Eq, PartialOrd, Ord)]
pub(crate) struct Standing {
    /// The position of its directory in the list of entries.
    pub(crate) above: Option<usize>,
    /// Whether it was recovered.
    pub(crate) found: bool,
}

/// The names in use.
#[derive(Drop)]
pub(crate) struct Names {
    taken: BTreeSet<(Standing, Vec<u8>)>,
    /// For the first entries, whether they are directories below `lost+found` too.
    aside: Vec<bool>,
}

impl Names {
    /// The name of the directory for recovered entries.
    pub(crate) fn new(alloc: Global) -> Result<Names, AllocError> {
        let mut taken = BTreeSet::new(alloc);
        let top = Standing {
            above: None,
            found: false,
        };
        taken.insert((top, Vec::from_slice(alloc, LOST_AND_FOUND)?))?;
        Ok(Names {
            taken,
            aside: Vec::new(alloc),
        })
    }

    /// How often `~` and its header have to follow the name of an entry, so that no other entry of its directory has the
    /// result as its name. The result is then in use.
    ///
    /// A text longer than any name is in use by nobody: it is no name, and the last ending of another entry differs.
    pub(crate) fn take(
        &mut self,
        alloc: Global,
        standing: Standing,
        name: &[u8],
        header: u32,
    ) -> Result<u32, AllocError> {
        let mut text = Vec::from_slice(alloc, name)?;
        for endings in 0..MOST_ENDINGS {
            if text.len() > Name::MAX_LEN {
                return Ok(endings);
            }
            let copy = Vec::from_slice(alloc, text.as_slice())?;
            if self.taken.insert((standing, copy))? {
                return Ok(endings);
            }
            push_ending(&mut text, header)?;
        }
        Ok(MOST_ENDINGS)
    }

    /// Takes the names below `lost+found` of a directory along the hash chains, and of those above it, because a
    /// recovered entry is in it.
    pub(crate) fn take_aside(
        &mut self,
        alloc: Global,
        entries: &[Salvaged],
        dir: usize,
    ) -> Result<(), AllocError> {
        if self.aside.len() < entries.len() {
            self.aside.resize(entries.len(), false)?;
        }
        let mut above = Some(dir);
        for _step in 0..entries.len() {
            let Some(place) = above else {
                break;
            };
            if place >= entries.len() || place >= self.aside.len() || self.aside[place] {
                break;
            }
            self.aside[place] = true;
            above = entries[place].above;
            let standing = Standing { above, found: true };
            self.taken
                .insert((standing, entries[place].own_name(alloc)?))?;
        }
        Ok(())
    }
}
