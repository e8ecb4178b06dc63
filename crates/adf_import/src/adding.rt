//! Files and directories of the host, put into a directory of a volume.

ghost use Rattle.std.specs.Prelude.{◌≡◌, OnOk};
ghost use Rattle.ados_model.specs.Keys.{HasDirectory};
ghost use Rattle.adf_import.specs.Progress.{Advances, IsReady};
ghost use Rattle.adf_import.specs.Put.{KeepsKeys, PutsInTurn};

use crate::fault::{InFault, refused};
use crate::host_files::{entry_name, read_entry};
use crate::item::{How, Item, put_item};
use crate::progress::Progress;
use crate::words::Word;
use adf_block::layout::BLOCK_BYTES;
use adf_host::{HostEntry, HostReader, OwnedFile, PassedOver, PromptFiles, host_tree};
use ados_model::DosError;
use ados_name::Name;
use ados_volume::Volume;
use std::alloc::Global;

/// Puts files and directories of the host, with everything below them, into a directory. It returns what was skipped.
///
/// An existing directory is used, and keeps its metadata. That of new directories is set last, because each entry put into a
/// directory sets its date.
pub(crate) fn add<R: PromptFiles>(
    rt: &R,
    alloc: Global,
    volume: &mut Volume,
    files: &[&str],
    to: &str,
    how: How,
) -> Result<Vec<PassedOver>, InFault>
where
    R::File: OwnedFile,
    ensures { OnOk result (KeepsKeys volume.old.image volume.new.image × PutsInTurn how.moment how.force volume.old volume.new) }
{
    let top = Word::new(alloc, to)?.directory(alloc, volume)?;
    let tree = host_tree(rt, alloc, files)?;
    refuse_names(alloc, &tree.entries)?;
    let mut adding = Adding {
        top,
        how,
        reader: HostReader::new(alloc),
        progress: Progress::new(alloc, volume.image().blocks())?,
    };
    for entry in tree.entries.iter() {
        add_entry(rt, alloc, volume, &tree.entries, entry, &mut adding)?;
    }
    adding.progress.note_directories(volume, how.moment);
    Ok(tree.passed_over)
}

/// Where files and directories of the host are put, how, and how far that is.
#[derive(Drop)]
struct Adding<F> {
    top: u32,
    how: How,
    reader: HostReader<F>,
    progress: Progress,
}

/// Puts the next one of these entries, without what is below it.
fn add_entry<R: PromptFiles>(
    rt: &R,
    alloc: Global,
    volume: &mut Volume,
    entries: &[HostEntry],
    entry: &HostEntry,
    adding: &mut Adding<R::File>,
) -> Result<(), InFault>
where
    R::File: OwnedFile,
    requires { IsReady volume.old.image adding.old.top adding.old.progress }
    ensures target { OnOk result ((adding.new.top ≡ adding.old.top) × (adding.new.how ≡ adding.old.how)) }
    ensures put { OnOk result (Advances volume.old.image volume.new.image adding.new.progress) }
    ensures puts { OnOk result (PutsInTurn adding.old.how.moment adding.old.how.force volume.old volume.new) }
{
    let dir = adding.progress.directory(entry.parent, adding.top);
    let name = free_name(alloc, volume, dir, entry, entries, &adding.progress)?;
    let given = read_entry(rt, alloc, &mut adding.reader, entry, most_bytes(volume))?;
    let item = Item {
        path: entry.path.as_str(),
        dir,
        name,
        noted: given.noted,
    };
    let content = given.content(volume);
    put_item(
        alloc,
        volume,
        &item,
        content,
        adding.how,
        &mut adding.progress,
    )?;
    Ok(())
}

/// The name of an entry, under which none of these entries was put before it.
fn free_name(
    alloc: Global,
    volume: &mut Volume,
    dir: u32,
    entry: &HostEntry,
    entries: &[HostEntry],
    progress: &Progress,
) -> Result<Name, InFault>
    requires { HasDirectory volume.old.image dir }
    ensures { volume.new ≡ volume.old }
{
    let name = entry_name(alloc, entry)?;
    match progress.place_of(volume.child(dir, &name)) {
        Some(place) => Err(twins(alloc, entry, entries.get(place))),
        None => Ok(name),
    }
}

/// Refuses a file or directory whose name cannot be a name on a volume.
fn refuse_names(alloc: Global, entries: &[HostEntry]) -> Result<(), InFault> {
    for entry in entries {
        entry_name(alloc, entry)?;
    }
    Ok(())
}

/// The fault of a file or directory whose name another one, which was put before it, has on an Amiga. Error: 203.
fn twins(alloc: Global, entry: &HostEntry, other: Option<&HostEntry>) -> InFault {
    let Some(other) = other else {
        return refused(alloc, entry.path.as_str(), DosError::ObjectExists);
    };
    let path = String::from_str(alloc, entry.path.as_str());
    match (path, String::from_str(alloc, other.path.as_str())) {
        (Ok(path), Ok(other)) => InFault::Twins { path, other },
        _ => InFault::Memory,
    }
}

/// The most bytes read of a file: one more than the volume has, which is too many.
pub(crate) fn most_bytes(volume: &Volume) -> usize {
    volume.image().blocks() as usize * BLOCK_BYTES as usize + 1
}
