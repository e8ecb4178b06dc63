//! Changes by two arguments.

ghost use Rattle.std.specs.Prelude.{◌∷◌, []};
ghost use Rattle.std.specs.Str.{chars};
ghost use Rattle.adf_import.specs.Commands.{Comments, EndsMove, EndsProtect};
ghost use Rattle.adf_import.specs.Turns.{EndsAt, ReadsFirst};

use crate::each::{Each, change_word};
use crate::fault::InFault;
use crate::paths::{EntryChange, MoveFault, move_at};
use crate::words::Word;
use ados_name::Date3;
use ados_volume::Volume;
use std::alloc::Global;

/// Moves the entry at a path to another place. An error has the path that it is about.
pub(crate) fn rename(
    alloc: Global,
    volume: &mut Volume,
    old: &str,
    new: &str,
    moment: Date3,
) -> Result<(), InFault>
    ensures { ReadsFirst (old.now ∷ new.now ∷ []) (EndsMove moment old.now new.now) volume.old volume.new result }
{
    let from = Word::new(alloc, old)?;
    let to = Word::new(alloc, new)?;
    match move_at(volume, from.bytes(), to.bytes(), moment) {
        Ok(()) => Ok(()),
        Err(MoveFault::Old(error)) => Err(from.refused(alloc, error)),
        Err(MoveFault::New(error)) => Err(to.refused(alloc, error)),
    }
}

/// Sets the low eight protection bits of the entry at a path by a word.
pub(crate) fn set_bits(
    alloc: Global,
    volume: &mut Volume,
    path: &str,
    letters: &str,
    moment: Date3,
) -> Result<(), InFault>
    ensures { ReadsFirst (path.now ∷ letters.now ∷ []) (EndsProtect moment path.now letters.now) volume.old volume.new result }
{
    let word = match Word::new(alloc, path) {
        Ok(word) => word,
        Err(fault) => return Err(fault),
    };
    let spelled = match Word::new(alloc, letters) {
        Ok(spelled) => spelled,
        Err(fault) => return Err(fault),
    };
    let bits = match spelled.protection(alloc) {
        Ok(bits) => bits,
        Err(fault) => return Err(fault),
    };
    let each = Each::Entry(EntryChange::Protect(bits));
    change_word(alloc, volume, &word, each, moment)
}

/// Sets the comment of the entry at a path.
pub(crate) fn set_comment(
    alloc: Global,
    volume: &mut Volume,
    path: &str,
    text: &str,
    moment: Date3,
) -> Result<(), InFault>
    ensures { ReadsFirst (path.now ∷ text.now ∷ []) (EndsAt (Comments moment (chars path.now) (chars text.now)) path.now) volume.old volume.new result }
{
    let word = Word::new(alloc, path)?;
    let comment = Word::new(alloc, text)?;
    let each = Each::Entry(EntryChange::Comment(comment.bytes()));
    change_word(alloc, volume, &word, each, moment)
}
