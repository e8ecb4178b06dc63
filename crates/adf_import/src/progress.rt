//! The progress of putting files and directories of the host into a volume.

ghost use Rattle.std.specs.Prelude.{◌≡◌, Bool, List, ℕ, IfOk, OnOk};
ghost use Rattle.ados_model.specs.Keys.{HasEntryKey};
ghost use Rattle.adf_import.specs.Progress.{IsProgress, IsReady};
ghost use Rattle.adf_import.specs.Put.{KeepsKeys, PutsInTurn};

use crate::new_file::describe;
use crate::put::noted_file;
use adf_text::Uaem;
use ados_name::Date3;
use ados_volume::Volume;
use std::alloc::{AllocError, Global};

/// The files and directories put so far.
#[derive(Drop)]
pub(crate) struct Progress {
    /// For each file or directory of the host, in order: its directory on the volume, or the one that it was put into.
    dirs: Vec<u32>,
    /// For each block, the index of the host's file or directory that was put under this header, or used it.
    places: Vec<Option<usize>>,
    /// The new directories, and their metadata.
    made: Vec<Made>,
}

/// A directory that was made.
#[derive(Clone, Copy)]
struct Made {
    key: u32,
    noted: Uaem,
}

impl Progress {
    /// No progress, for a volume of `blocks` blocks.
    pub fn new(alloc: Global, blocks: u32) -> Result<Progress, AllocError>
        ensures { IfOk result (λ progress. (image : List ℕ) → IsProgress image progress) }
    {
        Ok(Progress {
            dirs: Vec::new(alloc),
            places: vec![in alloc; None; blocks as usize]?,
            made: Vec::new(alloc),
        })
    }

    /// The directory on the volume for the host directory with this index; the top one if there is none.
    pub fn directory(&self, parent: Option<usize>, top: u32) -> u32
        ensures { (image : List ℕ) → IsReady image top self.now → IsReady image result self.now }
    {
        match parent {
            Some(place) if place < self.dirs.len() => self.dirs[place],
            _ => top,
        }
    }

    /// The index of the host's file or directory that was put as this object, or used it.
    pub fn place_of(&self, key: Option<u32>) -> Option<usize> {
        match self.places.get(key? as usize) {
            Some(place) => *place,
            None => None,
        }
    }

    /// Notes an object that was put or used, and the directory for its own entries.
    pub fn push(&mut self, key: u32, dir: u32) -> Result<(), AllocError>
        ensures { OnOk result ((image : List ℕ) → IsReady image dir self.old → IsProgress image self.new) }
    {
        self.mark(key);
        self.dirs.push(dir)?;
        Ok(())
    }

    /// Notes a new directory, whose metadata is set later.
    pub fn push_made(&mut self, key: u32, noted: Uaem) -> Result<(), AllocError>
        ensures { OnOk result ((image : List ℕ) → HasEntryKey image key → IsReady image key self.old → IsProgress image self.new) }
    {
        self.made.push(Made { key, noted })?;
        self.push(key, key)?;
        Ok(())
    }

    /// Marks a block as that of the next file or directory.
    fn mark(&mut self, key: u32)
        ensures dirs { self.new.dirs.items ≡ self.old.dirs.items }
        ensures made { self.new.made.items ≡ self.old.made.items }
    {
        let next = self.dirs.len();
        if let Some(place) = self.places.get_mut(key as usize) {
            *place = Some(next);
        }
    }

    /// Sets the metadata of the new directories.
    pub fn note_directories(self, volume: &mut Volume, moment: Date3)
        requires { IsProgress volume.old.image self }
        ensures keys { KeepsKeys volume.old.image volume.new.image }
        ensures puts { (force : Bool) → PutsInTurn moment force volume.old volume.new }
    {
        for made in self.made.iter() {
            let note = noted_file(&[], &made.noted);
            describe(volume, made.key, &note, moment);
        }
    }
}
