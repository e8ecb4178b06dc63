//! The host files and directories for what can be trusted in a damaged image.
ghost use Rattle.std.specs.Prelude.{◌≡◌, ◌≢◌, ◌≤◌, ◌++◌, [], All, IfNone, IfOk, IfSome, IsTrue, OnOk, flat_map, length};
ghost use Rattle.adf_rescue.specs.Paths.{file_at, files_from};
ghost use Rattle.adf_rescue.specs.Undelete.{file_in};
ghost use Rattle.adf_rescue.specs.steps.Sourcing.{AreApart};

use crate::sourced::{Source, SourcedItems, way_up};
use adf_host::HostName;
use ados_name::{Date3, Name};
use ados_salvage::{Salvage, Salvaged, State};
use itoa::Buffer;
use std::alloc::{AllocError, Global};
use std::str::from_utf8;

/// The directory for recovered entries.
const LOST_AND_FOUND: &[u8] = b"lost+found";

/// The most bytes of a path that is told: those of the longest one that Linux opens.
const LONGEST_PATH: usize = 4_095;

/// What is planned for an entry.
#[derive(Drop)]
enum Planned {
    /// It is written as this item.
    Item(usize),
    /// It is lost: nothing is written. It would be in this item, or at the top, by this name.
    Lost {
        above: Option<usize>,
        name: HostName,
    },
}

/// The items for entries. Each is written into the item of its directory.
#[derive(Drop)]
pub(crate) struct Plan {
    pub(crate) out: SourcedItems,
    /// For each entry, what is planned for it.
    planned: Vec<Planned>,
    /// The name of the directory for recovered entries.
    lost_name: Name,
    /// The item of that directory, if there is one.
    lost: Option<usize>,
    /// For each entry, its item below that directory, if it is a directory that was not recovered but has recovered
    /// entries below it.
    asides: Vec<Option<usize>>,
}

impl Plan {
    /// The items for the entries of a salvage. With `meta`, a note is beside each.
    pub(crate) fn of(alloc: Global, salvage: &Salvage, meta: bool) -> Result<Plan, AllocError>
        ensures apart { IfOk result (λ plan. AreApart plan.out) }
        ensures files { IfOk result (λ plan. flat_map file_in plan.out.sources.items ≡ files_from 0 salvage.now.entries) }
    {
        let entries = salvage.entries();
        let mut plan = Plan {
            out: SourcedItems::new(alloc, meta),
            planned: Vec::with_capacity(alloc, entries.len())?,
            lost_name: lost_name(alloc, entries)?,
            lost: None,
            asides: vec![in alloc; None; entries.len()]?,
        };
        for (place, entry) in entries.iter().enumerate() {
            let above = plan.directory_of(alloc, entries, entry)?;
            plan.add(alloc, place, entry, above)?;
        }
        Ok(plan)
    }

    /// The host path of an entry, by its position; `None` for one of more than 4,095 bytes. So it takes no more time if
    /// the directories are deep.
    pub(crate) fn path_of(
        &self,
        alloc: Global,
        place: usize,
    ) -> Result<Option<String>, AllocError> {
        let Some(mut names) = self.names_up(alloc, place)? else {
            return Ok(None);
        };
        let mut path = String::new(alloc);
        while let Some(name) = names.pop() {
            if !path.is_empty() {
                path.push('/')?;
            }
            path.push_str(name)?;
        }
        Ok(Some(path))
    }

    /// The names of an entry and of the directories that it is in, its own first; `None` if they are longer than a path
    /// that is told.
    fn names_up(&self, alloc: Global, place: usize) -> Result<Option<Vec<&str>>, AllocError> {
        let mut names = Vec::new(alloc);
        let mut next = match self.planned.get(place) {
            Some(Planned::Item(item)) => Some(*item),
            Some(Planned::Lost { above, name }) => {
                names.push(name.as_str())?;
                *above
            }
            None => None,
        };
        let mut length = 0_usize;
        for _step in 0..self.out.items.len() {
            let Some(item) = next.and_then(|at| self.out.items.get(at)) else {
                break;
            };
            names.push(item.name.as_str())?;
            next = item.above;
            length = length.saturating_add(item.name.as_str().len() + 1);
            if length > LONGEST_PATH + 1 {
                return Ok(None);
            }
        }
        Ok(Some(names))
    }

    /// The item of the directory that an entry is in.
    fn directory_of(
        &mut self,
        alloc: Global,
        entries: &[Salvaged],
        entry: &Salvaged,
    ) -> Result<Option<usize>, AllocError>
        requires { AreApart self.old.out }
        ensures apart { OnOk result (AreApart self.new.out) }
        ensures files { OnOk result (flat_map file_in self.new.out.sources.items ≡ flat_map file_in self.old.out.sources.items) }
    {
        let Some(above) = entry.above else {
            if entry.found {
                return Ok(Some(self.lost_and_found(alloc, entry.date)?));
            }
            return Ok(None);
        };
        if entry.found && entries.get(above).is_some_and(|dir| !dir.found) {
            return Ok(Some(self.aside(alloc, entries, above, entry.date)?));
        }
        match self.planned.get(above) {
            Some(Planned::Item(item)) => Ok(Some(*item)),
            _ => Ok(None),
        }
    }

    /// The item of the directory for recovered entries.
    pub(crate) fn lost_and_found(&mut self, alloc: Global, date: Date3) -> Result<usize, AllocError>
        requires { AreApart self.old.out }
        ensures apart { OnOk result (AreApart self.new.out) }
        ensures files { OnOk result (flat_map file_in self.new.out.sources.items ≡ flat_map file_in self.old.out.sources.items) }
    {
        if let Some(item) = self.lost {
            return Ok(item);
        }
        let name = HostName::of_name(alloc, &self.lost_name)?;
        let item = self.out.push_directory(alloc, None, name, date)?;
        self.lost = Some(item);
        Ok(item)
    }

    /// The item below that directory for a directory that was not recovered. The directories above it get one too.
    fn aside(
        &mut self,
        alloc: Global,
        entries: &[Salvaged],
        dir: usize,
        date: Date3,
    ) -> Result<usize, AllocError>
        requires { AreApart self.old.out }
        ensures apart { OnOk result (AreApart self.new.out) }
        ensures files { OnOk result (flat_map file_in self.new.out.sources.items ≡ flat_map file_in self.old.out.sources.items) }
    {
        let (mut way, top) = way_up(alloc, entries, &self.asides, Some(dir))?;
        let mut item = match top {
            Some(item) => item,
            None => self.lost_and_found(alloc, date)?,
        };
        while let Some(place) = way.pop() {
            if let Some(entry) = entries.get(place) {
                let name = self.out.name_of(alloc, entry)?;
                item = self.out.push_directory(alloc, Some(item), name, date)?;
                if let Some(aside) = self.asides.get_mut(place) {
                    *aside = Some(item);
                }
            }
        }
        Ok(item)
    }

    /// Adds the item of an entry, and with `meta` that of its note. A lost entry has none.
    fn add(
        &mut self,
        alloc: Global,
        place: usize,
        entry: &Salvaged,
        above: Option<usize>,
    ) -> Result<(), AllocError>
        requires { AreApart self.old.out }
        ensures apart { OnOk result (AreApart self.new.out) }
        ensures files { OnOk result (flat_map file_in self.new.out.sources.items ≡ flat_map file_in self.old.out.sources.items ++ file_at place entry.now.state) }
    {
        let Some(source) = source_of(entry.state, place) else {
            let name = self.out.name_of(alloc, entry)?;
            self.planned.push(Planned::Lost { above, name })?;
            return Ok(());
        };
        let item = self.out.push_entry(alloc, entry, above, source, place)?;
        self.planned.push(Planned::Item(item))?;
        Ok(())
    }
}

/// Where the bytes of the entry at a position are; `None` for a lost one, of which nothing is written.
fn source_of(state: State, place: usize) -> Option<Source>
    ensures some { IfSome result (λ source. file_in source ≡ file_at place state) }
    ensures none { IfNone result (file_at place state ≡ []) }
{
    match state {
        State::Lost => None,
        State::Directory | State::DoubtfulDirectory => Some(Source::Directory),
        State::Whole | State::Doubtful { .. } | State::Broken { .. } => Some(Source::File(place)),
    }
}

/// The name of the directory for recovered entries: `lost+found`, or if an entry of the root has that name, the first of
/// `lost+found-1`, `lost+found-2` and so on that none has.
fn lost_name(alloc: Global, entries: &[Salvaged]) -> Result<Name, AllocError> {
    let mut text = Vec::from_slice(alloc, LOST_AND_FOUND)?;
    for number in 0..entries.len() {
        if !is_taken(entries, &text) {
            break;
        }
        text.truncate(LOST_AND_FOUND.len());
        text.push(b'-')?;
        text.extend_from_slice(Buffer::new().format(number as u64 + 1).as_bytes())?;
    }
    Ok(Name::new(&text).unwrap_or(Name::new(LOST_AND_FOUND).unwrap()))
}

/// Whether an entry of the root that was not recovered has this name.
fn is_taken(entries: &[Salvaged], name: &[u8]) -> bool {
    entries.iter().any(|entry| {
        entry.above.is_none() && !entry.found && entry.endings == 0 && entry.name.bytes() == name
    })
}

/// The host name of an entry in its directory.
pub(crate) fn name_of(alloc: Global, entry: &Salvaged) -> Result<HostName, AllocError> {
    if entry.endings == 0 {
        return HostName::of_name(alloc, &entry.name);
    }
    let text = entry.own_name(alloc)?;
    match Name::new(text.as_slice()) {
        Ok(name) => HostName::of_name(alloc, &name),
        Err(_) => long_name(alloc, text.as_slice(), &entry.name),
    }
}

/// The host name for a text longer than a name: what is behind the 30 bytes of a name becomes an ending of the host name.
fn long_name(alloc: Global, text: &[u8], name: &Name) -> Result<HostName, AllocError> {
    let cut = Name::MAX_LEN.min(text.len().saturating_sub(2));
    let front = Name::new(&text[..cut]).unwrap_or(*name);
    let host = HostName::of_name(alloc, &front)?;
    match ending_of(&text[cut..]) {
        Some(ending) => host.with_ending(alloc, ending),
        None => Ok(host),
    }
}

/// A text of at least two characters, all of them digits or `~`.
fn ending_of(text: &[u8]) -> Option<&str>
    ensures { IfSome result (λ ending. (2 ≤ length ending.now) × All (λ c. (c ≢ 0) × (c ≢ 47)) ending.now) }
{
    if text.len() < 2 || !is_ending(text) {
        return None;
    }
    match from_utf8(text) {
        Ok(ending) => Some(ending),
        Err(_) => None,
    }
}

/// Whether all of these are digits or `~`.
fn is_ending(text: &[u8]) -> bool
    ensures { IsTrue result → All (λ c. (c ≢ 0) × (c ≢ 47)) text.now }
{
    for byte in text {
        if !(byte.is_ascii_digit() || *byte == b'~') {
            return false;
        }
    }
    true
}
