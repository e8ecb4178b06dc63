//! Options with numbers.
ghost use Rattle.std.specs.Prelude.{◌≡◌, ◌<◌, ◌≤◌, ◌^◌, ℕ, IfOk, IfSome, Some, codes, decimal};
ghost use Rattle.clap.specs.Matches.{first_value, found_of};
ghost use Rattle.adf_cli.specs.Asked.{AreFirstBlocks, IsNumberOf};
ghost use Rattle.adf_cli.specs.When.{IsWhen};

use crate::arguments::Arguments;
use crate::dates::moment_word;
use crate::fault::WordsFault;
use crate::table::{BLOCKS, NumberRange, TIME_STAMP};
use adf_text::Grouped;
use ados_name::Date3;
use std::alloc::Global;

impl Arguments<'_, '_> {
    /// The time stamp of a command, if its date or one of its numbers is given; `None` also for the date `now`. If the
    /// numbers have defaults, they are given.
    pub(crate) fn moment(&self) -> Result<Option<Date3>, WordsFault>
        ensures { IfOk result (λ moment. IfSome (first_value (found_of self.now.words.now) (codes "date")) (λ text. IsWhen text moment)) }
    {
        match self.given("date") {
            Some(word) => moment_word(self.alloc, "--date <WHEN>", word),
            None => self.numbered_moment(),
        }
    }

    /// The time stamp with these numbers, if one of them is given. A missing one is 0.
    fn numbered_moment(&self) -> Result<Option<Date3>, WordsFault> {
        let days = self.number("days", &TIME_STAMP)?;
        let minutes = self.number("minutes", &TIME_STAMP)?;
        let ticks = self.number("ticks", &TIME_STAMP)?;
        match (days, minutes, ticks) {
            (None, None, None) => Ok(None),
            _ => Ok(Some(Date3 {
                days: days.unwrap_or(0),
                minutes: minutes.unwrap_or(0),
                ticks: ticks.unwrap_or(0),
            })),
        }
    }

    /// The number of blocks at the start of a file that are its image; `None` for all of the file.
    pub(crate) fn first_blocks(&self) -> Result<Option<u32>, WordsFault>
        ensures { IfOk result (AreFirstBlocks (found_of self.now.words.now)) }
    {
        self.number("blocks", &BLOCKS)
    }

    /// The value of an option with a number; `None` if it is missing.
    pub(crate) fn number(&self, id: &str, range: &NumberRange) -> Result<Option<u32>, WordsFault>
        ensures { IfOk result (IsNumberOf (found_of self.now.words.now) id.now range.now.least range.now.most) }
    {
        let Some(text) = self.given(id) else {
            return Ok(None);
        };
        match number_of(text) {
            Some(number) if range.least as u64 <= number && number <= range.most as u64 => {
                Ok(Some(number as u32))
            }
            _ => Err(self.wrong_number(id, range.least as u64, range.most as u64, text)),
        }
    }

    /// The number of tries of a client. The option has a default.
    pub(crate) fn turns(&self) -> Result<u64, WordsFault> {
        let text = self.given("turns").unwrap_or("0");
        match number_of(text) {
            Some(number) => Ok(number),
            None => Err(self.wrong_number("turns", 0, u64::MAX, text)),
        }
    }

    /// The fault of a value that is no number in the option's range.
    fn wrong_number(&self, id: &str, least: u64, most: u64, text: &str) -> WordsFault {
        let (least, most) = (Grouped(least), Grouped(most));
        WordsFault::wrong(
            self.alloc,
            format_args!(
                "error: invalid value '{text}' for '--{id} <N>': a decimal number from {least} to {most} is expected"
            ),
        )
    }
}

/// The number of a text, if it has only digits: a parse alone would accept a `+` before them.
fn number_of(text: &str) -> Option<u64>
    ensures { IfSome result (λ number. (n : ℕ) → n < 2 ^ 64 → text.now ≡ decimal n → number ≡ n) }
{
    match text.parse::<u64>() {
        Ok(number) if !text.starts_with('+') => Some(number),
        _ => None,
    }
}
