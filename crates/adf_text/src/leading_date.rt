//! Dates at the start of a text, in the form of `Date3::text`.
ghost use Rattle.std.specs.Prelude.{◌≡◌, ◌≢◌, ◌≤◌, ◌<◌, ◌^◌, ◌==◌, false, ℕ, List, ◌++◌, All, IfOk, IsTrue, ◌↔◌, IfNone, IfSome, MatchOption};
ghost use Rattle.std.specs.Fmt.{decimal};
ghost use Rattle.ados_name.specs.Date.{IsTextOf};
ghost use Rattle.adf_text.specs.Dated.{IsStamp, StandsApart, BeginsWithDate, HasNoDate, IsTextOfNone};
ghost use Rattle.adf_text.specs.steps.Finds.{FindsDate, FindsCivil, FindsDay, FindsNumbers, FindsNumber, pair};

use ados_name::Date3;
use jiff::civil;
use jiff::fmt::temporal;
use std::alloc::{AllocError, Global};
use std::str;

/// The date that has this text, in the form of `Date3::text`, or `None` if no date has it.
pub fn date_of_text(alloc: Global, text: &[u8]) -> Result<Option<Date3>, AllocError>
    ensures { IfOk result (λ found. MatchOption found (IsTextOfNone text.now) (λ date. IsTextOf date text.now)) }
{
    let found = leading_date(alloc, text)?;
    let Some((date, behind)) = found else {
        return Ok(None);
    };
    if !behind.is_empty() {
        return Ok(None);
    }
    Ok(Some(date))
}

/// The date at the start of the text and the rest after it, or `None`. The rest is empty or starts with a space.
pub(crate) fn leading_date(alloc: Global, text: &[u8]) -> Result<Option<(Date3, &[u8])>, AllocError>
    ensures found { IfOk result (λ found. MatchOption found (HasNoDate text.now) (λ f. BeginsWithDate text.now f.0 f.1.now)) }
    ensures stamp { IfOk result (λ found. IfSome found (λ f. IsStamp f.0)) }
{
    let Some(date) = found_date(text) else {
        return Ok(None);
    };
    let shown = date.text(alloc)?;
    match after_word(text, shown.as_bytes()) {
        Some(behind) => Ok(Some((date, behind))),
        None => Ok(None),
    }
}

// The rest of a text after a word at its start.
fn after_word<'a>(text: &'a [u8], word: &[u8]) -> Option<&'a [u8]>
    ensures none { IfNone result ((behind : List ℕ) → StandsApart behind → text.now ≢ word.now ++ behind) }
    ensures stands { IfSome result (λ behind. text.now ≡ word.now ++ behind.now) }
    ensures apart { IfSome result (λ behind. StandsApart behind.now) }
{
    let behind = text.strip_prefix(word)?;
    if !stands_apart(behind) {
        return None;
    }
    Some(behind)
}

fn stands_apart(behind: &[u8]) -> bool
    ensures { IsTrue result ↔ StandsApart behind.now }
{
    match behind {
        [] => true,
        [first, ..] => *first == b' ',
    }
}

// The date at the start of the text, if there is one.
fn found_date(text: &[u8]) -> Option<Date3>
    ensures { FindsDate text.now result }
{
    match text.strip_prefix(b"raw".as_slice()) {
        Some(numbers) => found_numbers(numbers),
        None => found_civil(text),
    }
}

fn found_numbers(text: &[u8]) -> Option<Date3>
    ensures { FindsNumbers text.now result }
{
    let (days, text) = found_number(text)?;
    let (minutes, text) = found_number(text)?;
    let (ticks, _) = found_number(text)?;
    Some(Date3 {
        days,
        minutes,
        ticks,
    })
}

// The number after a space, and the rest after it.
fn found_number(text: &[u8]) -> Option<(u32, &[u8])>
    ensures { FindsNumber text.now result }
{
    let (_, text) = text.split_first()?;
    let (word, behind) = first_word(text);
    Some((number(word)?, behind))
}

fn number(word: &[u8]) -> Option<u32>
    ensures { (n : ℕ) → n < 2 ^ 32 → word.now ≡ decimal n → result ≡ Some n }
{
    match str::from_utf8(word) {
        Ok(text) => text.parse().ok(),
        Err(_) => None,
    }
}

// The bytes before the first space, and the rest from there.
fn first_word(text: &[u8]) -> (&[u8], &[u8])
    ensures whole { text.now ≡ result.0.now ++ result.1.now }
    ensures word { All (λ c. (c == 32) ≡ false) result.0.now }
    ensures apart { StandsApart result.1.now }
{
    let place = text
        .iter()
        .position(|byte| *byte == b' ')
        .unwrap_or(text.len());
    text.split_at(place)
}

fn found_civil(text: &[u8]) -> Option<Date3>
    ensures { FindsCivil text.now result }
{
    let (day, time) = first_word(text);
    let [_, h1, h0, _, m1, m0, _, s1, s0, _, c1, c0, ..] = time else {
        return None;
    };
    Some(Date3 {
        days: found_day(day)?,
        minutes: 60 * pair(*h1, *h0) + pair(*m1, *m0),
        ticks: 50 * pair(*s1, *s0) + pair(*c1, *c0) / 2,
    })
}

fn pair(tens: u8, ones: u8) -> u32
    ensures value { result ≡ pair tens ones }
    ensures bound { result ≤ 2277 }
{
    10 * tens.saturating_sub(b'0') as u32 + ones.saturating_sub(b'0') as u32
}

// The number of days from 1 January 1978 to the day in the text.
fn found_day(text: &[u8]) -> Option<u32>
    ensures { FindsDay text.now result }
{
    let Ok(day) = temporal::parse_date(text) else {
        return None;
    };
    let first = civil::date(1978, 1, 1).to_plain();
    u32::try_from(first.until(day)).ok()
}
