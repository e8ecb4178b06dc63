//! The arguments of a command, as `clap` parsed them.
ghost use Rattle.std.specs.Prelude.{◌≡◌, ◌≢◌, ◌<◌, Bool, IfOk, IsFalse, IsTrue, Some, codes, length, map, option_map};
ghost use Rattle.clap.specs.Matches.{first_value, found_of};
ghost use Rattle.adf_cli.specs.Asked.{IsFileOf, IsGiven, IsLeftOut, IsTargetOf, all_values};
ghost use Rattle.adf_cli.specs.Lists.{IsFlag};

use crate::change::Rewrite;
use crate::fault::WordsFault;
use crate::image_file::{ImageFile, STANDARD_STREAM};
use crate::letters::letters_of;
use clap::ArgMatches;
use std::alloc::Global;

/// The parsed arguments of a command, and the allocator for lists and for the texts of faults.
#[derive(Clone, Copy)]
pub(crate) struct Arguments<'a, 'b> {
    pub(crate) alloc: Global,
    pub(crate) words: &'b ArgMatches<'a>,
}

impl<'a, 'b> Arguments<'a, 'b> {
    /// Whether an option without a value is given.
    pub(crate) fn flag(&self, id: &str) -> bool
        ensures value { (given : Bool) → IsFlag (found_of self.now.words.now) id.now given → result ≡ given }
        ensures given { IsTrue result → IsGiven (found_of self.now.words.now) id.now }
        ensures left_out { IsFalse result → IsLeftOut (found_of self.now.words.now) id.now }
    {
        self.words.get_flag(id)
    }

    /// An optional argument.
    pub(crate) fn given(&self, id: &str) -> Option<&'a str>
        ensures { option_map (λ word. word.now) result ≡ first_value (found_of self.now.words.now) id.now }
    {
        self.words.get_str(id)
    }

    /// The list of blocks that could not be read.
    pub(crate) fn bad_list(&self) -> Option<&'a str>
        ensures { option_map (λ word. word.now) result ≡ first_value (found_of self.now.words.now) (codes "bad") }
    {
        self.given("bad")
    }

    /// A required argument.
    pub(crate) fn word(&self, id: &str) -> Result<&'a str, WordsFault>
        ensures { IfOk result (λ word. first_value (found_of self.now.words.now) id.now ≡ Some word.now) }
    {
        match self.given(id) {
            Some(word) => Ok(word),
            None => Err(self.missing(id)),
        }
    }

    /// The image file that a command reads, with the option for its first blocks.
    pub(crate) fn image(&self) -> Result<ImageFile<'a>, WordsFault>
        ensures { IfOk result (IsFileOf (found_of self.now.words.now)) }
    {
        Ok(ImageFile {
            path: self.word("IMAGE")?,
            blocks: self.first_blocks()?,
        })
    }

    /// The image that a command changes, and where the changed one goes. Standard input makes the command line wrong: only a
    /// file can be locked and replaced.
    pub(crate) fn target(&self) -> Result<Rewrite<'a>, WordsFault>
        ensures { IfOk result (IsTargetOf (found_of self.now.words.now)) }
    {
        let image = self.image()?;
        if image.path == STANDARD_STREAM {
            return Err(WordsFault::wrong(
                self.alloc,
                format_args!(
                    "error: IMAGE '-' is standard input, and this command changes a file: './-' is one of that name"
                ),
            ));
        }
        Ok(Rewrite {
            image,
            out: self.given("out"),
            over: self.flag("over"),
        })
    }

    /// The file of `--out`, for a command that prints lines. Standard output, where they go, makes the command line wrong.
    pub(crate) fn out_file(&self) -> Result<Option<&'a str>, WordsFault>
        ensures given { IfOk result (λ out. first_value (found_of self.now.words.now) (codes "out") ≡ option_map (λ word. word.now) out) }
        ensures file { IfOk result (λ out. first_value (found_of self.now.words.now) (codes "out") ≢ Some (codes "-")) }
    {
        let Some(out) = self.given("out") else {
            return Ok(None);
        };
        if out == STANDARD_STREAM {
            return Err(WordsFault::wrong(
                self.alloc,
                format_args!(
                    "error: '--out -' is standard output, where this command prints its lines: './-' is a file of that name"
                ),
            ));
        }
        Ok(Some(out))
    }

    /// The fault of a missing argument.
    pub(crate) fn missing(&self, id: &str) -> WordsFault {
        WordsFault::wrong(self.alloc, format_args!("error: <{id}> is missing"))
    }

    /// The values of an argument that can have many.
    pub(crate) fn words(&self, id: &str) -> &'b [&'a str]
        ensures { map (λ word. word.now) result.now ≡ all_values (found_of self.now.words.now) id.now }
    {
        self.words.get_strs(id).unwrap_or(&[])
    }

    /// The values of an argument that has at least one.
    pub(crate) fn some_words(&self, id: &str) -> Result<&'b [&'a str], WordsFault>
        ensures words { IfOk result (λ words. map (λ word. word.now) words.now ≡ all_values (found_of self.now.words.now) id.now) }
        ensures some { IfOk result (λ words. 0 < length words.now) }
    {
        let words = self.words(id);
        if words.is_empty() {
            return Err(self.missing(id));
        }
        Ok(words)
    }

    /// A required argument whose letters are bytes.
    pub(crate) fn letters(&self, id: &str) -> Result<&'a str, WordsFault>
        ensures { IfOk result (λ word. first_value (found_of self.now.words.now) id.now ≡ Some word.now) }
    {
        letters_of(self.alloc, self.word(id)?)
    }

    /// The paths of a command.
    pub(crate) fn paths(&self) -> Result<Vec<&'a str>, WordsFault>
        ensures { IfOk result (λ words. map (λ word. word.now) words.items ≡ all_values (found_of self.now.words.now) (codes "PATH")) }
    {
        let paths = self.words("PATH");
        for path in paths {
            letters_of(self.alloc, *path)?;
        }
        Ok(Vec::from_slice(self.alloc, paths)?)
    }
}
