//! Path arguments of a command, and their objects.
ghost use Rattle.std.specs.Prelude.{◌≡◌, IfOk, IfErr, All, map};
ghost use Rattle.ados_model.specs.Tree.{Tree};
ghost use Rattle.ados_model.specs.Stands.{Stands};
ghost use Rattle.ados_model.specs.Keys.{HasKey};
ghost use Rattle.adf_text.specs.Letters.{letters};
ghost use Rattle.adf_export.specs.Words.{AreAsked, LeadsTo, LeadTo, IsWordFault, IsFaultOfSome, IsLetterFault, IsRefusal};

use crate::fault::OutFault;
use adf_cli::Refused;
use adf_text::{LettersFault, letter_bytes, letters_come_back};
use ados_model::DosError;
use ados_volume::{Volume, locate};
use std::alloc::Global;

/// The object of a path argument, from the root. The bytes of the path are those of the argument's letters.
///
/// Errors: 204 if a directory of the path does not exist; 205 if the object does not, or for the parent of the root;
/// 212 for a file in place of a directory.
pub fn locate_word(alloc: Global, volume: &mut Volume, word: &str) -> Result<u32, OutFault>
    ensures leads { IfOk result (λ key. (t : Tree) → Stands volume.old.image t → LeadsTo t word.now key) }
    ensures fault { IfErr result (λ fault. (t : Tree) → Stands volume.old.image t → IsWordFault t word.now fault) }
    ensures key { IfOk result (λ key. HasKey volume.old.image key) }
    ensures same { volume.new ≡ volume.old }
{
    let path = match path_bytes(alloc, word) {
        Ok(path) => path,
        Err(fault) => return Err(fault),
    };
    locate_path(alloc, volume, &path, word)
}

/// The object at these bytes of an argument's letters.
fn locate_path(alloc: Global, volume: &mut Volume, path: &[u8], word: &str) -> Result<u32, OutFault>
    requires { letters path.now ≡ word.now }
    ensures leads { IfOk result (λ key. (t : Tree) → Stands volume.old.image t → LeadsTo t word.now key) }
    ensures fault { IfErr result (λ fault. (t : Tree) → Stands volume.old.image t → IsWordFault t word.now fault) }
    ensures key { IfOk result (λ key. HasKey volume.old.image key) }
    ensures same { volume.new ≡ volume.old }
{
    letters_come_back();
    match locate(volume, path) {
        Ok(key) => Ok(key),
        Err(stopped) => Err(refused(alloc, stopped.error, word)),
    }
}

/// The objects of a command's path arguments; the root if there are none.
pub(crate) fn asked_objects(
    alloc: Global,
    volume: &mut Volume,
    words: &[&str],
) -> Result<Vec<u32>, OutFault>
    ensures asked { IfOk result (λ keys. (t : Tree) → Stands volume.old.image t → AreAsked t (map (λ word. word.now) words.now) keys.items) }
    ensures fault { IfErr result (λ fault. (t : Tree) → Stands volume.old.image t → IsFaultOfSome t (map (λ word. word.now) words.now) fault) }
    ensures keys { IfOk result (λ keys. All (HasKey volume.old.image) keys.items) }
    ensures same { volume.new ≡ volume.old }
{
    if words.is_empty() {
        return Ok(vec![in alloc; volume.root(); 1]?);
    }
    locate_words(alloc, volume, words)
}

/// The objects of these path arguments.
fn locate_words(alloc: Global, volume: &mut Volume, words: &[&str]) -> Result<Vec<u32>, OutFault>
    ensures lead { IfOk result (λ keys. (t : Tree) → Stands volume.old.image t → LeadTo t (map (λ word. word.now) words.now) keys.items) }
    ensures fault { IfErr result (λ fault. (t : Tree) → Stands volume.old.image t → IsFaultOfSome t (map (λ word. word.now) words.now) fault) }
    ensures keys { IfOk result (λ keys. All (HasKey volume.old.image) keys.items) }
    ensures same { volume.new ≡ volume.old }
{
    let mut keys = Vec::new(alloc);
    for word in words {
        let key = match locate_word(alloc, volume, word) {
            Ok(key) => key,
            Err(fault) => return Err(fault),
        };
        let Ok(()) = keys.push(key) else {
            return Err(OutFault::Memory);
        };
    }
    Ok(keys)
}

/// The bytes of an argument's letters.
fn path_bytes(alloc: Global, word: &str) -> Result<Vec<u8>, OutFault>
    ensures ok { IfOk result (λ path. letters path.items ≡ word.now) }
    ensures fault { IfErr result (IsLetterFault word.now) }
{
    match letter_bytes(alloc, word) {
        Ok(path) => Ok(path),
        Err(LettersFault::NoByte { .. }) => Err(OutFault::Letter(String::from_str(alloc, word)?)),
        Err(LettersFault::Memory) => Err(OutFault::Memory),
    }
}

/// The refusal of an argument; out of memory if there is none for the argument.
pub(crate) fn refused(alloc: Global, error: DosError, word: &str) -> OutFault
    ensures { IsRefusal error word.now result }
{
    match String::from_str(alloc, word) {
        Ok(path) => OutFault::Refused(Refused { error, path }),
        Err(_) => OutFault::Memory,
    }
}
