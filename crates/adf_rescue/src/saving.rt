//! The host files and directories for deleted entries.
ghost use Rattle.std.specs.Prelude.{◌≡◌, ◌++◌, ◌<◌, All, IfOk, OnOk, flat_map, length};
ghost use Rattle.adf_rescue.specs.Paths.{ArePathsApart};
ghost use Rattle.adf_rescue.specs.Undelete.{file_in, file_saved, files_saved};
ghost use Rattle.adf_rescue.specs.steps.Sourcing.{AreApart};

use crate::chosen::Chosen;
use crate::sourced::{Source, SourcedItems, way_up};
use ados_salvage::{Recovery, Salvaged};
use std::alloc::{AllocError, Global};

/// The items for entries, each in the item of its directory.
#[derive(Drop)]
pub(crate) struct Saving {
    pub(crate) out: SourcedItems,
    /// For each entry, its item, if it has one.
    places: Vec<Option<usize>>,
}

impl Saving {
    /// The items for those of the chosen entries that are directories or are saved, and for the directories above them.
    pub(crate) fn of(
        alloc: Global,
        entries: &[Salvaged],
        chosen: &[Chosen],
        force: bool,
        meta: bool,
    ) -> Result<Saving, AllocError>
        requires { All (λ one. one.position < length entries.now) chosen.now }
        ensures paths { IfOk result (λ saving. ArePathsApart saving.out.items.items) }
        ensures files { IfOk result (λ saving. flat_map file_in saving.out.sources.items ≡ files_saved force chosen.now) }
    {
        let mut saving = Saving {
            out: SourcedItems::new(alloc, meta),
            places: vec![in alloc; None; entries.len()]?,
        };
        for one in chosen {
            saving.add(alloc, entries, *one, force)?;
        }
        saving.out.forget_names(alloc);
        Ok(saving)
    }

    /// Adds a chosen entry, if it is a directory or is saved.
    fn add(
        &mut self,
        alloc: Global,
        entries: &[Salvaged],
        chosen: Chosen,
        force: bool,
    ) -> Result<(), AllocError>
        requires inside { chosen.position < length entries.now }
        requires apart { AreApart self.old.out }
        ensures apart { OnOk result (AreApart self.new.out) }
        ensures files { OnOk result (flat_map file_in self.new.out.sources.items ≡ flat_map file_in self.old.out.sources.items ++ file_saved force chosen) }
    {
        let position = chosen.position;
        if chosen.is_file_saved(force) {
            let entry = &entries[position];
            let above = self.directory(alloc, entries, entry.above)?;
            self.push(alloc, entry, above, Source::File(position), position)?;
        } else if chosen.deleted.recovery == Recovery::Directory {
            self.directory(alloc, entries, Some(position))?;
        }
        Ok(())
    }

    /// The item of the directory at a position; `None` for the top. It is made if there is none, and so are those above it.
    fn directory(
        &mut self,
        alloc: Global,
        entries: &[Salvaged],
        dir: Option<usize>,
    ) -> Result<Option<usize>, AllocError>
        requires { AreApart self.old.out }
        ensures apart { OnOk result (AreApart self.new.out) }
        ensures files { OnOk result (flat_map file_in self.new.out.sources.items ≡ flat_map file_in self.old.out.sources.items) }
    {
        let (mut way, top) = way_up(alloc, entries, &self.places, dir)?;
        let mut item = top;
        while let Some(position) = way.pop() {
            if let Some(entry) = entries.get(position) {
                item = Some(self.push(alloc, entry, item, Source::Directory, position)?);
            }
        }
        Ok(item)
    }

    /// Adds the item of the entry at a position, and with `meta` that of its note. The result is its item.
    fn push(
        &mut self,
        alloc: Global,
        entry: &Salvaged,
        above: Option<usize>,
        source: Source,
        position: usize,
    ) -> Result<usize, AllocError>
        requires { AreApart self.old.out }
        ensures apart { OnOk result (AreApart self.new.out) }
        ensures files { OnOk result (flat_map file_in self.new.out.sources.items ≡ flat_map file_in self.old.out.sources.items ++ file_in source) }
    {
        let item = self.out.push_entry(alloc, entry, above, source, position)?;
        if let Some(place) = self.places.get_mut(position) {
            *place = Some(item);
        }
        Ok(item)
    }
}
