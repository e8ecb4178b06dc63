//! The host files and directories for one entry.
ghost use Rattle.std.specs.Prelude.{◌≡◌, ◌++◌, ◌<◌, ◌^◌, [], ◌∷◌, List, Some, IfOk, IfSome, OnOk, option_map};
ghost use Rattle.ados_model.specs.Keys.{HasKey};
ghost use Rattle.ados_model.specs.Stands.{Stands};
ghost use Rattle.ados_model.specs.Tree.{Node, Tree};
ghost use Rattle.adf_host.specs.declared.trees.items.HostItem.{HostItem as Item};
ghost use Rattle.adf_export.specs.Items.{GoesOut, IsItemName, item_place, kind_of, sources_of};

use adf_host::{HostItem, HostName, ItemKind};
use ados_name::Name;
use ados_volume::{Below, Volume};
use std::alloc::{AllocError, Global};

/// Where the bytes of an item come from.
#[derive(Clone, Copy)]
pub enum Source {
    /// The entry with this key. A directory has no bytes.
    Entry(u32),
    /// The note of the entry with this key.
    Note(u32),
}

/// Files and directories to write below a directory of the host.
#[derive(Drop)]
pub struct Outgoing {
    pub items: Vec<HostItem>,
    /// The source of each item.
    pub sources: Vec<Source>,
}

impl Outgoing {
    /// Appends the item of an entry, and with `meta` the item of its note.
    pub(crate) fn push_entry(
        &mut self,
        alloc: Global,
        volume: &Volume,
        entry: &Below,
        meta: bool,
    ) -> Result<(), AllocError>
        requires key { HasKey volume.now.image entry.now.key }
        requires above { IfSome entry.now.above (λ at. at < 2 ^ 63) }
        ensures items { OnOk result ((t : Tree) → Stands volume.now.image t
            → (more : List Item) × (self.new.items.items ≡ self.old.items.items ++ more) × GoesOut t meta entry.now more) }
        ensures sources { OnOk result (self.new.sources.items ≡ self.old.sources.items ++ sources_of meta entry.now) }
    {
        let told = volume.examine(entry.key);
        let name = item_name(alloc, &told.name, meta)?;
        let note = name.note(alloc)?;
        let above = item_place(entry.above, meta);
        let item = HostItem {
            above,
            name,
            kind: kind_of(volume, entry.key),
            date: told.date,
        };
        self.push(item, Source::Entry(entry.key))?;
        if !meta {
            return Ok(());
        }
        let item = HostItem {
            above,
            name: note,
            kind: ItemKind::File,
            date: told.date,
        };
        self.push(item, Source::Note(entry.key))?;
        Ok(())
    }

    /// Appends an item and its source.
    fn push(&mut self, item: HostItem, source: Source) -> Result<(), AllocError>
        ensures items { OnOk result (self.new.items.items ≡ self.old.items.items ++ item ∷ []) }
        ensures sources { OnOk result (self.new.sources.items ≡ self.old.sources.items ++ source ∷ []) }
    {
        self.items.push(item)?;
        self.sources.push(source)?;
        Ok(())
    }
}

/// The host name of an entry with this name, with or without notes beside the entries.
fn item_name(alloc: Global, name: &Name, meta: bool) -> Result<HostName, AllocError>
    ensures { IfOk result (λ host. IsItemName meta name.now host) }
{
    let host = HostName::of_name(alloc, name)?;
    if meta {
        return host.beside_notes(alloc);
    }
    Ok(host)
}

/// The position of the item for the entry at this position. With notes, each entry has two items.
fn item_place(place: Option<usize>, meta: bool) -> Option<usize>
    requires { IfSome place (λ at. at < 2 ^ 63) }
    ensures { result ≡ option_map (item_place meta) place }
{
    match place {
        Some(at) => Some(if meta { 2 * at } else { at }),
        None => None,
    }
}

/// The kind of the item for an object.
fn kind_of(volume: &Volume, key: u32) -> ItemKind
    requires { HasKey volume.now.image key }
    ensures { (t : Tree) (node : Node) → Stands volume.now.image t → t.nodes key ≡ Some node → result ≡ kind_of node.content }
{
    if volume.is_file(key) {
        return ItemKind::File;
    }
    ItemKind::Directory
}
