//! Tips for words that are no commands.
ghost use Rattle.std.specs.Prelude.{◌≡◌, ◌≢◌, IfOk, IfSome};
ghost use Rattle.adf_cli.specs.declared.group.Effect.TheVariants.{Removes};

use crate::fault::WordsFault;
use crate::group::Effect;
use crate::other_words::{OTHER_WORDS, OtherWords};
use crate::table::CommandRow;
use std::alloc::{AllocError, Global};
use strsim::osa_distance;

/// The fault of a command line whose first word is no command: with what stands here for that word of another tool, or
/// else with the command of these rows that it is most like.
pub(crate) fn no_command(alloc: Global, word: &str, rows: &[CommandRow]) -> WordsFault {
    if let Some(tip) = tip_of(word, &OTHER_WORDS) {
        return WordsFault::wrong(alloc, format_args!("error: no command '{word}': {tip}"));
    }
    match alike(alloc, word, rows) {
        Ok(Some(row)) => WordsFault::wrong(
            alloc,
            format_args!("error: no command '{word}': did you mean `{}`?", row.name),
        ),
        Ok(None) => WordsFault::wrong(alloc, format_args!("error: no command '{word}'")),
        Err(_) => WordsFault::Memory,
    }
}

/// What stands for a word in one of these rows. Upper and lower case are the same.
fn tip_of(word: &str, rows: &'static [OtherWords]) -> Option<&'static str> {
    for row in rows {
        if row
            .words
            .iter()
            .any(|other| word.eq_ignore_ascii_case(*other))
        {
            return Some(row.tip);
        }
    }
    None
}

/// The command that a word is like. A word that is like one that only reads is never taken for one that changes an image, and
/// none for one that may remove something of it.
fn alike(alloc: Global, word: &str, rows: &[CommandRow]) -> Result<Option<CommandRow>, AllocError>
    ensures { IfOk result (λ found. IfSome found (λ row. row.effect ≢ Removes)) }
{
    if word.len() < 3 {
        return Ok(None);
    }
    if let Some(row) = within(alloc, word, rows, Effect::Reads, 1)? {
        return Ok(Some(row));
    }
    if word.len() > 4 {
        if let Some(row) = within(alloc, word, rows, Effect::Reads, 2)? {
            return Ok(Some(row));
        }
    }
    within(alloc, word, rows, Effect::Changes, 1)
}

/// The first command with this effect that a word becomes by at most so many edits: a letter that comes, goes or is another,
/// or two neighbours that change places.
fn within(
    alloc: Global,
    word: &str,
    rows: &[CommandRow],
    effect: Effect,
    most: usize,
) -> Result<Option<CommandRow>, AllocError>
    ensures { IfOk result (λ found. IfSome found (λ row. row.effect ≡ effect)) }
{
    for row in rows {
        if row.effect == effect && osa_distance(alloc, word, row.name)? <= most {
            return Ok(Some(*row));
        }
    }
    Ok(None)
}
