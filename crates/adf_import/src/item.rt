//! One file or directory of the host or of a bundle, put into a volume.

ghost use Rattle.std.specs.Prelude.{OnOk};
ghost use Rattle.adf_import.specs.Progress.{Advances, IsReady};
ghost use Rattle.adf_import.specs.Put.{PutsInTurn};

use crate::fault::{InFault, refused};
use crate::new_file::{NotPut, put_file};
use crate::progress::Progress;
use crate::put::{enter_directory, noted_file};
use adf_text::Uaem;
use ados_name::{Date3, Name};
use ados_volume::Volume;
use std::alloc::Global;

/// How files are put: whether existing ones are replaced, and the time stamp.
#[derive(Clone, Copy)]
pub(crate) struct How {
    pub force: bool,
    pub moment: Date3,
}

/// A file or directory: its path on the host, its directory on the volume, its name there, and its metadata.
#[derive(Clone, Copy)]
pub(crate) struct Item<'a> {
    pub path: &'a str,
    pub dir: u32,
    pub name: Name,
    pub noted: Uaem,
}

/// The bytes of a file, and the number of blocks for further bytes, which were not read.
#[derive(Clone, Copy)]
pub(crate) struct Content<'a> {
    pub bytes: &'a [u8],
    pub more: u64,
}

/// Puts a file with this content, or makes a directory, which has none. Returns false for a directory that was there: it is
/// used, and keeps its metadata.
pub(crate) fn put_item(
    alloc: Global,
    volume: &mut Volume,
    item: &Item<'_>,
    content: Option<Content<'_>>,
    how: How,
    progress: &mut Progress,
) -> Result<bool, InFault>
    requires { IsReady volume.old.image item.now.dir progress.old }
    ensures advances { OnOk result (Advances volume.old.image volume.new.image progress.new) }
    ensures puts { OnOk result (PutsInTurn how.moment how.force volume.old volume.new) }
{
    let Some(content) = content else {
        return put_directory(alloc, volume, item, how, progress);
    };
    let file = noted_file(content.bytes, &item.noted);
    match put_file(volume, item.dir, item.name, &file, how.force, how.moment) {
        Ok(key) => {
            progress.push(key, item.dir)?;
            Ok(true)
        }
        Err(fault) => Err(not_put(alloc, item.path, fault, content.more)),
    }
}

/// Makes a directory, or uses the existing one. Returns whether it is new.
fn put_directory(
    alloc: Global,
    volume: &mut Volume,
    item: &Item<'_>,
    how: How,
    progress: &mut Progress,
) -> Result<bool, InFault>
    requires { IsReady volume.old.image item.now.dir progress.old }
    ensures advances { OnOk result (Advances volume.old.image volume.new.image progress.new) }
    ensures puts { OnOk result (PutsInTurn how.moment how.force volume.old volume.new) }
{
    let entered = match enter_directory(volume, item.dir, item.name, how.force, how.moment) {
        Ok(entered) => entered,
        Err(fault) => return Err(not_put(alloc, item.path, fault, 0)),
    };
    if entered.is_new {
        progress.push_made(entered.key, item.noted)?;
        return Ok(true);
    }
    progress.push(entered.key, entered.key)?;
    Ok(false)
}

/// Why a file or directory was not put, with this path. `more` is the number of blocks for bytes that were not read.
pub(crate) fn not_put(alloc: Global, path: &str, fault: NotPut, more: u64) -> InFault {
    match fault {
        NotPut::Refused(error) => refused(alloc, path, error),
        NotPut::NoRoom { needed, free } => match String::from_str(alloc, path) {
            Ok(path) => InFault::NoRoom {
                path,
                needed: needed.saturating_add(more),
                free,
            },
            Err(_) => InFault::Memory,
        },
    }
}
