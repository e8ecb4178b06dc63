//! Arguments whose letters are an Amiga's bytes.
ghost use Rattle.std.specs.Prelude.{◌≡◌, IfErr, IfOk, IsSome, OnOk, All};
ghost use Rattle.std.specs.Str.{chars};
ghost use Rattle.adf_text.specs.Letters.{IsByte};
ghost use Rattle.adf_text.specs.ProtectWords.{protect_word};
ghost use Rattle.adf_cli.specs.Given.{TellsNoBits};

use crate::fault::WordsFault;
use adf_text::{LettersFault, letter_bytes, protect_word};
use std::alloc::Global;

/// This argument, if each of its letters is a byte. A letter past U+00FF makes the command line wrong.
pub(crate) fn letters_of<'a>(alloc: Global, word: &'a str) -> Result<&'a str, WordsFault>
    ensures same { IfOk result (λ text. text.now ≡ word.now) }
    ensures letters { OnOk result (All IsByte (chars word.now)) }
{
    match letter_bytes(alloc, word) {
        Ok(_) => Ok(word),
        Err(LettersFault::Memory) => Err(WordsFault::Memory),
        Err(LettersFault::NoByte { letter, .. }) => Err(WordsFault::wrong(
            alloc,
            format_args!(
                "error: the letter '{letter}' of '{word}' stands for no byte: names, paths and comments have letters up to U+00FF"
            ),
        )),
    }
}

/// This argument, if it is a word for protection bits. Any other makes the command line wrong.
pub(crate) fn protection_word<'a>(alloc: Global, word: &'a str) -> Result<&'a str, WordsFault>
    ensures same { IfOk result (λ text. text.now ≡ word.now) }
    ensures word { IfOk result (λ text. IsSome (protect_word text.now)) }
    ensures fault { IfErr result (TellsNoBits word.now) }
{
    match protect_word(word.as_bytes()) {
        Some(_) => Ok(word),
        None => Err(WordsFault::wrong(
            alloc,
            format_args!(
                "error: invalid value '{word}' for '<LETTERS>': expected letters of hsparwed, as rwed, ----rwed, +s or -w"
            ),
        )),
    }
}
