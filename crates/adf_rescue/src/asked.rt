//! The paths that arguments name, for a look-up of the paths of entries.
ghost use Rattle.std.specs.Prelude.{◌≡◌, ℕ, List, [], IfErr, IfOk, map};
ghost use Rattle.std.specs.BTreeSet.{contains_text};
ghost use Rattle.std.specs.List.{list_any};
ghost use Rattle.std.specs.Str.{bytes_eq};
ghost use Rattle.std.specs.String.{string_bytes};
ghost use Rattle.ados_name.specs.Name.{steps};
ghost use Rattle.adf_text.specs.Letters.{letters};
ghost use Rattle.adf_rescue.specs.Undelete.{IsUndeleteFault, is_named, key_of, key_text, names_along, slashed};
ghost use Rattle.adf_rescue.specs.steps.Asking.{AreAsked};

use crate::undelete_fault::UndeleteFault;
use adf_text::{LettersFault, letter_bytes, letter_text, letters_come_back};
use ados_name::{PathSteps, Step, upper};
use std::alloc::{AllocError, Global};
use std::collections::BTreeSet;

/// The paths that arguments name.
#[derive(Drop)]
pub(crate) struct Asked {
    /// The paths as they are looked up, in upper case.
    keys: BTreeSet<String>,
    /// Whether everything in the root is asked for.
    pub(crate) root: bool,
}

impl Asked {
    /// The paths that these arguments name.
    pub(crate) fn of(alloc: Global, words: &[&str]) -> Result<Asked, UndeleteFault>
        ensures asked { IfOk result (AreAsked (map (λ word. key_of word.now) words.now)) }
        ensures fault { IfErr result (λ fault. (image : List ℕ) → IsUndeleteFault image fault) }
    {
        let keys = keys_of(alloc, words)?;
        let root = words.is_empty() || keys.contains("");
        Ok(Asked { keys, root })
    }

    /// Whether an argument names this path.
    pub(crate) fn names(&self, alloc: Global, path: &[u8]) -> Result<bool, AllocError>
        ensures { IfOk result (λ named. (keys : List (List ℕ)) → AreAsked keys self.now → named ≡ is_named keys path.now) }
    {
        let key = key_text(alloc, path)?;
        Ok(self.keys.contains(key.as_str()))
    }
}

/// The paths that these arguments name.
fn keys_of(alloc: Global, words: &[&str]) -> Result<BTreeSet<String>, UndeleteFault>
    ensures fault { IfErr result (λ fault. (image : List ℕ) → IsUndeleteFault image fault) }
    ensures keys { IfOk result (λ keys. (text : List ℕ) → contains_text keys text ≡ list_any (λ word. bytes_eq (key_of word.now) text) words.now) }
{
    let mut keys = BTreeSet::new(alloc);
    for word in words {
        let key = key_of(alloc, word)?;
        let Ok(_) = keys.insert(key) else {
            return Err(UndeleteFault::Memory);
        };
    }
    Ok(keys)
}

/// The path that an argument names. It names nothing if a letter of it is no byte.
pub(crate) fn key_of(alloc: Global, word: &str) -> Result<String, UndeleteFault>
    ensures key { IfOk result (λ key. string_bytes key ≡ key_of word.now) }
    ensures fault { IfErr result (λ fault. (image : List ℕ) → IsUndeleteFault image fault) }
{
    match letter_bytes(alloc, word) {
        Ok(path) => Ok(key_of_bytes(alloc, &path, word)?),
        Err(LettersFault::NoByte { .. }) => {
            Err(UndeleteFault::NothingDeleted(String::from_str(alloc, word)?))
        }
        Err(LettersFault::Memory) => Err(UndeleteFault::Memory),
    }
}

/// The path that an argument with these bytes names.
fn key_of_bytes(alloc: Global, path: &[u8], word: &str) -> Result<String, AllocError>
    requires { letters path.now ≡ word.now }
    ensures { IfOk result (λ key. string_bytes key ≡ key_of word.now) }
{
    letters_come_back();
    let names = names_along(alloc, path)?;
    key_text(alloc, &slashed(alloc, &names)?)
}

/// The names from the root that a path leads along.
fn names_along(alloc: Global, path: &[u8]) -> Result<Vec<Vec<u8>>, AllocError>
    ensures { IfOk result (λ names. map (λ name. name.items) names.items ≡ names_along [] (steps path.now)) }
{
    let mut names = Vec::new(alloc);
    let mut steps = PathSteps::of(path);
    while let Some(step) = steps.next() {
        match step {
            Step::Parent => {
                names.pop();
            }
            Step::Child(name) => names.push(Vec::from_slice(alloc, name)?)?,
        }
    }
    Ok(names)
}

/// A slash before each name.
fn slashed(alloc: Global, names: &[Vec<u8>]) -> Result<Vec<u8>, AllocError>
    ensures { IfOk result (λ path. path.items ≡ slashed (map (λ name. name.items) names.now)) }
{
    let mut path = Vec::new(alloc);
    for name in names {
        path.push(b'/')?;
        path.extend_from_slice(name)?;
    }
    Ok(path)
}

/// A path as it is looked up: in upper case.
pub(crate) fn key_text(alloc: Global, path: &[u8]) -> Result<String, AllocError>
    ensures { IfOk result (λ text. string_bytes text ≡ key_text path.now) }
{
    let upper_case: Vec<u8> = path.iter().map(|byte| upper(*byte)).collect(alloc)?;
    letter_text(alloc, &upper_case)
}
