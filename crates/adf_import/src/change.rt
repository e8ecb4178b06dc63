//! The changes of a volume by commands.

ghost use Rattle.adf_import.specs.Commands.{ChangesVolume, IsInside, without_answer};

use crate::adding::add;
use crate::each::{Each, change_each, change_one};
use crate::fault::InFault;
use crate::item::How;
use crate::one_file::{StandardInput, Target, add_as};
use crate::paths::EntryChange;
use crate::single::{rename, set_bits, set_comment};
use adf_cli::Change;
use adf_host::{OwnedFile, PassedOver, PromptFiles};
use ados_name::Date3;
use ados_volume::Volume;
use std::alloc::Global;

/// Makes a change with this time stamp. For `add`, it returns what was skipped.
///
/// After a fault the volume may be changed in part, and its image must not be written.
pub fn change_volume<R: PromptFiles + StandardInput>(
    rt: &R,
    alloc: Global,
    volume: &mut Volume,
    change: &Change<'_>,
    moment: Date3,
) -> Result<Vec<PassedOver>, InFault>
where
    R::File: OwnedFile,
    ensures { ChangesVolume change.now moment volume.old volume.new (without_answer result) }
{
    match change {
        Change::Add { files, to, force } => {
            let how = How {
                force: *force,
                moment,
            };
            add(rt, alloc, volume, files.as_slice(), *to, how)
        }
        Change::AddAs {
            source,
            name,
            to,
            force,
        } => {
            let target = Target {
                to: *to,
                name: *name,
            };
            let how = How {
                force: *force,
                moment,
            };
            add_as(rt, alloc, volume, *source, target, how)?;
            Ok(Vec::new(alloc))
        }
        other => {
            change_entries(alloc, volume, other, moment)?;
            Ok(Vec::new(alloc))
        }
    }
}

/// Makes a change that reads nothing from the host.
fn change_entries(
    alloc: Global,
    volume: &mut Volume,
    change: &Change<'_>,
    moment: Date3,
) -> Result<(), InFault>
    requires { IsInside change.now }
    ensures { ChangesVolume change.now moment volume.old volume.new result }
{
    match change {
        Change::Add { .. } | Change::AddAs { .. } => unreachable!(),
        Change::MakeDirectories { paths, parents } => {
            let each = Each::Make { parents: *parents };
            change_each(alloc, volume, paths.as_slice(), each, moment)
        }
        Change::Delete { paths, all, force } => {
            let change = EntryChange::Delete {
                all: *all,
                force: *force,
            };
            let each = Each::Entry(change);
            change_each(alloc, volume, paths.as_slice(), each, moment)
        }
        Change::Rename { old, new } => rename(alloc, volume, *old, *new, moment),
        Change::Protect { path, letters } => set_bits(alloc, volume, *path, *letters, moment),
        Change::Date { path, date } => {
            let each = Each::Entry(EntryChange::Date(date.unwrap_or(moment)));
            change_one(alloc, volume, *path, each, moment)
        }
        Change::Comment { path, text } => set_comment(alloc, volume, *path, *text, moment),
        Change::Relabel { name } => change_one(alloc, volume, *name, Each::Relabel, moment),
    }
}
