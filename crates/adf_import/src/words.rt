//! Arguments as bytes of an Amiga's text.

ghost use Rattle.std.specs.Prelude.{◌≡◌, IfErr, IfOk, Ok, Some, map};
ghost use Rattle.std.specs.Str.{chars};
ghost use Rattle.ados_model.specs.Keys.{HasDirectory};
ghost use Rattle.ados_model.specs.Stands.{Stands};
ghost use Rattle.ados_model.specs.Tree.{Tree};
ghost use Rattle.adf_text.specs.Letters.{letters};
ghost use Rattle.adf_text.specs.ProtectWords.{protect_word};
ghost use Rattle.adf_import.specs.Paths.{directory_at};
ghost use Rattle.adf_import.specs.Words.{IsBitsFault, IsLetterFault, IsLetterFaultIn, IsRefusal};

use crate::fault::{InFault, refused};
use crate::paths::directory_at;
use adf_text::{LettersFault, ProtectWord, letter_bytes, letters_come_back, protect_word};
use ados_model::DosError;
use ados_volume::Volume;
use std::alloc::Global;

/// An argument, and the bytes of its letters.
#[derive(Drop)]
pub(crate) struct Word<'a> {
    text: &'a str,
    bytes: Vec<u8>,
    ghost spelled: { letters bytes.items ≡ text.now },
}

impl<'a> Word<'a> {
    /// An argument without a letter past U+00FF.
    pub fn new(alloc: Global, text: &'a str) -> Result<Word<'a>, InFault>
        ensures same { IfOk result (λ word. word.text.now ≡ text.now) }
        ensures fault { IfErr result (IsLetterFault text.now) }
    {
        match letter_bytes(alloc, text) {
            Ok(bytes) => Ok(Word { text, bytes }),
            Err(LettersFault::NoByte { .. }) => {
                Err(InFault::Letter(String::from_str(alloc, text)?))
            }
            Err(LettersFault::Memory) => Err(InFault::Memory),
        }
    }

    /// The bytes of its letters.
    pub fn bytes(&self) -> &[u8]
        ensures { result.now ≡ chars self.now.text.now }
    {
        are_bytes_of(self.bytes.as_slice(), self.text);
        self.bytes.as_slice()
    }

    /// An error of AmigaDOS, with this argument.
    pub fn refused(&self, alloc: Global, error: DosError) -> InFault
        ensures { IsRefusal error self.now.text.now result }
    {
        refused(alloc, self.text, error)
    }

    /// The directory at this path.
    ///
    /// Errors: those of a walk (204, 205, 212), and 212 for a file.
    pub fn directory(&self, alloc: Global, volume: &mut Volume) -> Result<u32, InFault>
        ensures found { IfOk result (λ dir. (t : Tree) → Stands volume.old.image t → directory_at (chars self.now.text.now) t ≡ Ok dir) }
        ensures directory { IfOk result (HasDirectory volume.old.image) }
        ensures same { volume.new ≡ volume.old }
    {
        match directory_at(volume, self.bytes()) {
            Ok(dir) => Ok(dir),
            Err(error) => Err(self.refused(alloc, error)),
        }
    }

    /// The argument as a word for protection bits.
    pub fn protection(&self, alloc: Global) -> Result<ProtectWord<'_>, InFault>
        ensures word { IfOk result (λ word. protect_word (chars self.now.text.now) ≡ Some (word.form, word.letters.now)) }
        ensures fault { IfErr result (IsBitsFault self.now.text.now) }
    {
        match protect_word(self.bytes()) {
            Some(word) => Ok(word),
            None => Err(InFault::Bits(String::from_str(alloc, self.text)?)),
        }
    }
}

/// The bytes are those of the text's letters.
fn are_bytes_of(bytes: &[u8], text: &str)
    requires { letters bytes.now ≡ text.now }
    ensures { bytes.now ≡ chars text.now }
{
    letters_come_back();
}

/// Arguments without a letter past U+00FF.
pub(crate) fn words_of<'a>(alloc: Global, texts: &[&'a str]) -> Result<Vec<Word<'a>>, InFault>
    ensures texts { IfOk result (λ words. map (λ word. word.text.now) words.items ≡ map (λ text. text.now) texts.now) }
    ensures fault { IfErr result (IsLetterFaultIn (map (λ text. text.now) texts.now)) }
{
    let mut words = Vec::new(alloc);
    for text in texts {
        let word = match Word::new(alloc, *text) {
            Ok(word) => word,
            Err(fault) => return Err(fault),
        };
        words.push(word)?;
    }
    Ok(words)
}
