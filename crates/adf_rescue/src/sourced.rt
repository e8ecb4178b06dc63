//! Host files and directories for entries of a salvage, and where their bytes are.
ghost use Rattle.std.specs.Prelude.{◌≡◌, ◌+◌, ◌++◌, ◌∷◌, [], ℕ, List, IfOk, IfSome, OnOk, flat_map, if◌then◌else◌, length, slice_get, true};
ghost use Rattle.std.specs.BTreeSet.{contains_text};
ghost use Rattle.std.specs.Str.{bytes_eq};
ghost use Rattle.std.specs.String.{string_bytes};
ghost use Rattle.adf_rescue.specs.Paths.{ArePathsApart};
ghost use Rattle.adf_rescue.specs.Rescue.{HasSource};
ghost use Rattle.adf_rescue.specs.Undelete.{file_in};
ghost use Rattle.adf_rescue.specs.steps.Sourcing.{AreApart, IsFree, IsFreeName, place_text};

use crate::plan::name_of;
use adf_host::{
    Contents, HostItem, HostName, ItemKind, OwnedFile, PromptFiles, WriteFault, write_tree,
};
use adf_text::{Uaem, uaem_line};
use ados_name::Date3;
use ados_salvage::{Salvage, Salvaged};
use std::alloc::{AllocError, Global};
use std::collections::BTreeSet;

/// Where the bytes of an item are.
#[derive(Clone, Copy)]
pub(crate) enum Source {
    Directory,
    /// The file of an entry, by its position.
    File(usize),
    /// The note of an entry, by its position.
    Note(usize),
    /// A run of blocks that belong to no entry.
    Run,
}

/// Items, each written into the item of its directory, and for each the source of its bytes.
#[derive(Drop)]
pub(crate) struct SourcedItems {
    pub(crate) items: Vec<HostItem>,
    pub(crate) sources: Vec<Source>,
    /// Whether a note is beside each entry.
    meta: bool,
    /// The names in use, each with its directory.
    taken: BTreeSet<String>,
    /// The length of the longest of these.
    longest: usize,
}

/// The bytes of items, by their sources.
#[derive(Drop)]
pub(crate) struct Rescued<'a> {
    pub(crate) salvage: &'a Salvage,
    pub(crate) sources: &'a [Source],
}

impl Source {
    /// The kind of an item with these bytes.
    fn kind(self) -> ItemKind {
        match self {
            Source::Directory => ItemKind::Directory,
            Source::File(_) | Source::Note(_) | Source::Run => ItemKind::File,
        }
    }
}

impl SourcedItems {
    /// No items.
    pub(crate) fn new(alloc: Global, meta: bool) -> SourcedItems
        ensures sources { result.sources.items ≡ [] }
        ensures apart { AreApart result }
    {
        SourcedItems {
            items: Vec::new(alloc),
            sources: Vec::new(alloc),
            meta,
            taken: BTreeSet::new(alloc),
            longest: 0,
        }
    }

    /// Adds a directory, and returns its position. If its name is in use where it is, an ending makes it another one.
    pub(crate) fn push_directory(
        &mut self,
        alloc: Global,
        above: Option<usize>,
        name: HostName,
        date: Date3,
    ) -> Result<usize, AllocError>
        requires apart { AreApart self.old }
        ensures files { OnOk result (flat_map file_in self.new.sources.items ≡ flat_map file_in self.old.sources.items) }
        ensures apart { OnOk result (AreApart self.new) }
    {
        let name = self.free_name(alloc, above, name)?;
        let item = self.push(alloc, above, name, Source::Directory, date)?;
        Ok(item)
    }

    /// Adds a file for a run of blocks. If its name is in use where it is, an ending makes it another one.
    pub(crate) fn push_run(
        &mut self,
        alloc: Global,
        dir: usize,
        name: HostName,
        date: Date3,
    ) -> Result<(), AllocError>
        requires apart { AreApart self.old }
        ensures count { OnOk result (length self.new.sources.items ≡ length self.old.sources.items + 1) }
        ensures files { OnOk result (flat_map file_in self.new.sources.items ≡ flat_map file_in self.old.sources.items) }
        ensures apart { OnOk result (AreApart self.new) }
    {
        let name = self.free_name(alloc, Some(dir), name)?;
        self.push(alloc, Some(dir), name, Source::Run, date)?;
        Ok(())
    }

    /// Adds an item whose name is not in use, and returns its position.
    fn push(
        &mut self,
        alloc: Global,
        above: Option<usize>,
        name: HostName,
        source: Source,
        date: Date3,
    ) -> Result<usize, AllocError>
        requires apart { AreApart self.old }
        requires free { IsFree self.old above name }
        ensures sources { OnOk result (self.new.sources.items ≡ self.old.sources.items ++ source ∷ []) }
        ensures apart { OnOk result (AreApart self.new) }
        ensures taken { OnOk result ((text : List ℕ) → contains_text self.new.taken text ≡ (if bytes_eq (place_text above name) text then true else contains_text self.old.taken text)) }
    {
        let place = self.items.len();
        let kind = source.kind();
        let text = place_text(alloc, above, &name)?;
        self.longest = self.longest.max(text.len());
        self.taken.insert(text)?;
        self.items.push(HostItem {
            above,
            name,
            kind,
            date,
        })?;
        self.sources.push(source)?;
        Ok(place)
    }

    /// Adds the item of the entry at a position, and with `meta` that of its note. The result is the position of the first.
    pub(crate) fn push_entry(
        &mut self,
        alloc: Global,
        entry: &Salvaged,
        above: Option<usize>,
        source: Source,
        place: usize,
    ) -> Result<usize, AllocError>
        requires apart { AreApart self.old }
        ensures files { OnOk result (flat_map file_in self.new.sources.items ≡ flat_map file_in self.old.sources.items ++ file_in source) }
        ensures apart { OnOk result (AreApart self.new) }
    {
        let name = self.name_of(alloc, entry)?;
        let name = self.free_name(alloc, above, name)?;
        let note = name.note(alloc)?;
        let has_note = self.meta;
        let item = self.push(alloc, above, name, source, entry.date)?;
        if has_note {
            self.push(alloc, above, note, Source::Note(place), entry.date)?;
        }
        Ok(item)
    }

    /// The name of an item in a directory: this name, with `~2` behind it, again and again, while it is in use there.
    fn free_name(
        &self,
        alloc: Global,
        above: Option<usize>,
        name: HostName,
    ) -> Result<HostName, AllocError>
        requires { AreApart self.now }
        ensures { IfOk result (IsFreeName self.now above) }
    {
        let mut name = name;
        for _ending in 0..self.longest {
            if self.is_free(alloc, above, &name)? {
                return Ok(name);
            }
            name = name.with_ending(alloc, "~2")?;
        }
        Ok(name)
    }

    /// Whether a name is not in use in a directory, and with `meta` not that of its note either.
    fn is_free(
        &self,
        alloc: Global,
        above: Option<usize>,
        name: &HostName,
    ) -> Result<bool, AllocError>
        ensures { IfOk result (λ free. free ≡ true → IsFreeName self.now above name.now) }
    {
        let text = place_text(alloc, above, name)?;
        if self.taken.contains(text.as_str()) {
            return Ok(false);
        }
        if !self.meta {
            return Ok(true);
        }
        let note = name.note(alloc)?;
        let text = place_text(alloc, above, &note)?;
        Ok(!self.taken.contains(text.as_str()))
    }

    /// Forgets which names are in use, since no item is added any more. Each item has a path of its own.
    pub(crate) fn forget_names(&mut self, alloc: Global)
        requires { AreApart self.old }
        ensures items { self.new.items.items ≡ self.old.items.items }
        ensures sources { self.new.sources.items ≡ self.old.sources.items }
        ensures paths { ArePathsApart self.new.items.items }
    {
        self.taken = BTreeSet::new(alloc);
    }

    /// The host name of an entry in its directory, in which notes may be.
    pub(crate) fn name_of(&self, alloc: Global, entry: &Salvaged) -> Result<HostName, AllocError> {
        let name = name_of(alloc, entry)?;
        if self.meta {
            return name.beside_notes(alloc);
        }
        Ok(name)
    }

    /// Writes them below a directory of the host, with bytes of this salvage.
    pub(crate) fn write<R: PromptFiles>(
        &self,
        rt: &R,
        alloc: Global,
        salvage: &Salvage,
        to: &str,
        force: bool,
    ) -> Result<(), WriteFault>
    where
        R::File: OwnedFile,
    {
        let mut contents = self.contents(salvage);
        write_tree(rt, alloc, to, &self.items, &mut contents, force)
    }

    /// Their bytes in this salvage.
    pub(crate) fn contents<'a>(&'a self, salvage: &'a Salvage) -> Rescued<'a>
        ensures salvage { result.salvage.now ≡ salvage.now }
        ensures sources { result.sources.now ≡ self.now.sources.items }
    {
        Rescued {
            salvage,
            sources: &self.sources,
        }
    }
}

impl Contents for Rescued<'_> {
    fn bytes_of(&mut self, alloc: Global, place: usize) -> Result<Vec<u8>, AllocError>
        ensures { IfOk result (λ bytes. IfSome (slice_get self.old.sources.now place) (λ source. HasSource self.old.salvage.now source bytes.items)) }
    {
        let entries = self.salvage.entries();
        match self.sources.get(place).copied() {
            Some(Source::File(place)) if place < entries.len() => {
                self.salvage.bytes_of(alloc, place)
            }
            Some(Source::Note(place)) if place < entries.len() => note_of(alloc, &entries[place]),
            _ => Ok(Vec::new(alloc)),
        }
    }
}

/// A name in the directory of an item, as text.
fn place_text(alloc: Global, above: Option<usize>, name: &HostName) -> Result<String, AllocError>
    ensures { IfOk result (λ text. string_bytes text ≡ place_text above name.now) }
{
    let name = name.as_str();
    let text = match above {
        Some(dir) => format!(in alloc; "{dir}/{name}")?,
        None => format!(in alloc; "/{name}")?,
    };
    Ok(text)
}

/// The line of an entry's note.
fn note_of(alloc: Global, entry: &Salvaged) -> Result<Vec<u8>, AllocError> {
    let noted = Uaem {
        protect: entry.protection,
        date: entry.date,
        comment: entry.comment,
    };
    Ok(uaem_line(alloc, &noted)?.into_bytes())
}

/// The positions of a directory and of those above it that have no item, and the item of the first one that has one.
pub(crate) fn way_up(
    alloc: Global,
    entries: &[Salvaged],
    places: &[Option<usize>],
    dir: Option<usize>,
) -> Result<(Vec<usize>, Option<usize>), AllocError> {
    let mut way = Vec::new(alloc);
    let mut next = dir;
    for _step in 0..entries.len() {
        let Some(position) = next else {
            return Ok((way, None));
        };
        if let Some(item) = places.get(position).copied().flatten() {
            return Ok((way, Some(item)));
        }
        way.push(position)?;
        next = entries.get(position).and_then(|entry| entry.above);
    }
    Ok((way, None))
}
