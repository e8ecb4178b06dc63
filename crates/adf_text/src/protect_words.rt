//! Protection bits as a person writes them.
ghost use Rattle.std.specs.Prelude.{◌≡◌, count_by, option_map};
ghost use Rattle.adf_text.specs.ProtectionLetters.{has};
ghost use Rattle.adf_text.specs.ProtectWords.{are_same, bits_after, bits_showing, is_letter_set, protect_word, shows, signed, signed_word, spells};

use crate::protection::{bit, protection_letters};
use ados_name::Protect;

/// What a word does with the letters that an entry shows.
#[derive(Clone, Copy, PartialEq, Eq)]
pub enum Form {
    /// The entry shows these letters, and no others.
    Exactly,
    /// The entry shows these letters, and no others but `h` if it showed that.
    ButHold,
    /// The entry shows these letters too.
    Also,
    /// The entry no longer shows these letters.
    Without,
}

/// A word for protection bits: its letters of `hsparwed`, in lower or upper case and perhaps with dashes, and its form.
#[derive(Clone, Copy)]
pub struct ProtectWord<'a> {
    pub form: Form,
    pub letters: &'a [u8],
}

impl ProtectWord<'_> {
    /// The low eight bits of an entry after this word, by its bits before. All other bits are clear.
    pub fn after(&self, old: Protect) -> Protect
        ensures { result.0 ≡ bits_after self.now.form self.now.letters.now old.0 }
    {
        let shown = protection_letters(old);
        Protect(
            bit(self.shows(&shown, b'h'), 128)
                + bit(self.shows(&shown, b's'), 64)
                + bit(self.shows(&shown, b'p'), 32)
                + bit(self.shows(&shown, b'a'), 16)
                + bit(!self.shows(&shown, b'r'), 8)
                + bit(!self.shows(&shown, b'w'), 4)
                + bit(!self.shows(&shown, b'e'), 2)
                + bit(!self.shows(&shown, b'd'), 1),
        )
    }

    // Whether an entry shows a letter after this word, by the letters that it showed before.
    fn shows(&self, shown: &[u8], letter: u8) -> bool
        ensures { result ≡ shows self.now.form (spells self.now.letters.now) (has shown.now) letter }
    {
        let (spelled, was_shown) = (spells(self.letters, letter), shown.contains(&letter));
        match self.form {
            Form::Exactly => spelled,
            Form::ButHold => { if letter == b'h' { was_shown } else { spelled } }
            Form::Also => spelled || was_shown,
            Form::Without => was_shown && !spelled,
        }
    }
}

/// The word for protection bits in a text, in lower or upper case: `hsparwed` as eight places, each its letter or a dash; `sparwed` as
/// seven such places, as `list` prints them, which leave `h` as it is; some of these letters, each once, in any order; or such
/// letters after `+`, which adds them, `-`, which takes them away, or `=`. An entry shows `h`, `s`, `p` and `a` for set bits 7 to 4, and `r`, `w`, `e` and `d` for clear bits 3 to 0.
///
/// `None` for any other text, an empty one too.
pub fn protect_word(text: &[u8]) -> Option<ProtectWord<'_>>
    ensures { option_map (λ word. (word.form, word.letters.now)) result ≡ protect_word text.now }
{
    let shown = bits_showing(text);
    let form = if are_same(text, &protection_letters(shown)) {
        Form::Exactly
    } else if are_same(text, &shown.letters()) {
        Form::ButHold
    } else if is_letter_set(text) {
        Form::Exactly
    } else {
        return signed_word(text);
    };
    Some(ProtectWord {
        form,
        letters: text,
    })
}

// A sign and letters.
fn signed_word(text: &[u8]) -> Option<ProtectWord<'_>>
    ensures { option_map (λ word. (word.form, word.letters.now)) result ≡ signed_word text.now }
{
    let [sign, letters @ ..] = text else {
        return None;
    };
    if !is_letter_set(letters) {
        return None;
    }
    signed(*sign).map(|form| ProtectWord { form, letters })
}

fn signed(sign: u8) -> Option<Form>
    ensures { result ≡ signed sign }
{
    match sign {
        b'+' => Some(Form::Also),
        b'-' => Some(Form::Without),
        b'=' => Some(Form::Exactly),
        _ => None,
    }
}

// The same letters, in lower or upper case.
fn are_same(text: &[u8], other: &[u8]) -> bool
    ensures { result ≡ are_same text.now other.now }
{
    text.eq_ignore_ascii_case(other)
}

// The low eight bits of an entry that shows the letters of the text.
fn bits_showing(text: &[u8]) -> Protect
    ensures { result.0 ≡ bits_showing (spells text.now) }
{
    Protect(
        bit(spells(text, b'h'), 128)
            + bit(spells(text, b's'), 64)
            + bit(spells(text, b'p'), 32)
            + bit(spells(text, b'a'), 16)
            + bit(!spells(text, b'r'), 8)
            + bit(!spells(text, b'w'), 4)
            + bit(!spells(text, b'e'), 2)
            + bit(!spells(text, b'd'), 1),
    )
}

fn is_letter_set(text: &[u8]) -> bool
    ensures { result ≡ is_letter_set text.now }
{
    !text.is_empty() && spelled_count(b"hsparwed", text) == text.len()
}

// The number of these letters in the text.
fn spelled_count(letters: &[u8], text: &[u8]) -> usize
    ensures { result ≡ count_by (spells text.now) letters.now }
{
    letters
        .iter()
        .filter(|letter| spells(text, **letter))
        .count()
}

fn spells(text: &[u8], letter: u8) -> bool
    ensures { result ≡ spells text.now letter }
{
    text.iter().any(|c| c.to_ascii_lowercase() == letter)
}
