//! Paths that are changed one after the other.

ghost use Rattle.std.specs.Prelude.{◌∷◌, [], map};
ghost use Rattle.std.specs.Str.{chars};
ghost use Rattle.adf_import.specs.Commands.{Does};
ghost use Rattle.adf_import.specs.Turns.{EndsAt, EndsInTurn, ReadsFirst};

use crate::fault::InFault;
use crate::fields::relabel;
use crate::paths::{EntryChange, change_at};
use crate::ways::{make_one, make_way};
use crate::words::{Word, words_of};
use ados_model::DosError;
use ados_name::Date3;
use ados_volume::Volume;
use std::alloc::Global;

/// The change at each path.
#[derive(Clone, Copy)]
pub(crate) enum Each<'a> {
    /// Make a directory; with `parents` each missing one on the way too.
    Make { parents: bool },
    /// Change the entry.
    Entry(EntryChange<'a>),
    /// Rename the volume: the path is its name.
    Relabel,
}

/// Changes the volume at each of these paths in turn, up to the first refusal.
pub(crate) fn change_each(
    alloc: Global,
    volume: &mut Volume,
    paths: &[&str],
    each: Each<'_>,
    moment: Date3,
) -> Result<(), InFault>
    ensures { let words = map (λ word. word.now) paths.now in ReadsFirst words (EndsInTurn (Does moment each.entry) words) volume.old volume.new result }
{
    let words = words_of(alloc, paths)?;
    for word in words.iter() {
        match change_word(alloc, volume, word, each, moment) {
            Ok(()) => {}
            Err(fault) => return Err(fault),
        }
        prove!(volume.image().blocks() >= 16);
    }
    Ok(())
}

/// Changes the volume at one path.
pub(crate) fn change_one(
    alloc: Global,
    volume: &mut Volume,
    path: &str,
    each: Each<'_>,
    moment: Date3,
) -> Result<(), InFault>
    ensures { ReadsFirst (path.now ∷ []) (EndsAt (Does moment each.entry (chars path.now)) path.now) volume.old volume.new result }
{
    let word = Word::new(alloc, path)?;
    change_word(alloc, volume, &word, each, moment)
}

/// Changes the volume at the path of an argument.
pub(crate) fn change_word(
    alloc: Global,
    volume: &mut Volume,
    word: &Word<'_>,
    each: Each<'_>,
    moment: Date3,
) -> Result<(), InFault>
    ensures { EndsAt (Does moment each.entry (chars word.now.text.now)) word.now.text.now volume.old volume.new result }
{
    match change_path(alloc, volume, word.bytes(), each, moment) {
        Ok(()) => Ok(()),
        Err(error) => Err(word.refused(alloc, error)),
    }
}

/// Changes the volume at a path.
fn change_path(
    alloc: Global,
    volume: &mut Volume,
    path: &[u8],
    each: Each<'_>,
    moment: Date3,
) -> Result<(), DosError>
    ensures { Does moment each.entry path.now volume.old volume.new result }
{
    match each {
        Each::Make { parents } => {
            if parents {
                return make_way(volume, path, moment);
            }
            make_one(volume, path, moment)
        }
        Each::Entry(change) => change_at(alloc, volume, path, change, moment),
        Each::Relabel => relabel(volume, path, moment),
    }
}
