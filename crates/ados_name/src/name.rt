//! Names of files and directories.
ghost use Rattle.std.specs.Prelude.{◌≡◌, ◌↔◌, ◌<◌, IsTrue, IsOk, IfOk, IfErr, Some, List, ℕ};
ghost use Rattle.ados_name.specs.Name.{hash, slot, upper as upper_of, Same, IsName};
ghost use Rattle.ados_name.specs.Fault.{first_fault};
ghost use Rattle.ados_name.specs.Path.{SameNameSameSlot};

use crate::NameFault;
use crate::short_text::ShortText;
use bstr::ByteSlice;
use std::marker::Model;

/// A name of 1 to 30 bytes without `/` and `:`.
///
/// `==` compares the bytes. `same` compares names as AmigaDOS does.
#[derive(Clone, Copy, PartialEq, Eq)]
pub struct Name {
    text: ShortText<30>,
}

impl Model for Name {
    ghost use Rattle.std.specs.Prelude.{ℕ, List};
    ghost use Rattle.ados_name.specs.Name.{IsName};

    ghost Value = { List ℕ };

    ghost view = { λ s. s.text };

    ghost invariant = { λ s. IsName s.text };

    ghost inverse = { λ bytes. record { text = bytes } };
}

impl Name {
    /// The most bytes of a name.
    pub const MAX_LEN: usize = 30;

    /// The name that these bytes spell, or their first fault in the order of `NameFault`.
    pub fn new(text: &[u8]) -> Result<Name, NameFault>
        ensures ok { IfOk result (λ name. name ≡ text.now) }
        ensures fault { IfErr result (λ fault. first_fault text.now ≡ Some fault) }
        ensures valid { IsOk result ↔ IsName text.now }

        // A text that is not a name equals no name.
        ensures foreign { IfErr result (λ _. (name : List ℕ) → IsName name → ¬ (Same name text.now)) }
    {
        if text.is_empty() {
            return Err(NameFault::Empty);
        }
        if text.len() > Name::MAX_LEN {
            return Err(NameFault::TooLong);
        }
        if text.find_byteset(b"/:").is_some() {
            return Err(NameFault::Separator);
        }
        Ok(Name {
            text: ShortText::new(text),
        })
    }

    /// The bytes as given.
    pub fn bytes(&self) -> &[u8]
        ensures value { result.now ≡ self.now }
        ensures valid { IsName self.now }
    {
        self.text.bytes()
    }

    /// The hash of the AmigaDOS Technical Reference. It starts with the length. Each byte, in upper case, turns `h`
    /// into `(13 h + byte) mod 2048`.
    #[tactic(auto, unfolding(crate::specs::Name::hash))]
    pub fn hash(&self) -> u32
        ensures { result ≡ hash self.now }
    {
        let bytes = self.bytes();
        let mut h = bytes.len() as u32;
        for byte in bytes {
            h = (13 * h + upper(*byte) as u32) % 2048;
        }
        h
    }

    /// The slot in a directory's hash table, 0 to 71: an entry of this name is in that slot's hash chain.
    pub fn slot(&self) -> u32
        ensures value { result ≡ slot self.now }
        ensures small { result < 72 }
    {
        self.hash() % 72
    }

    /// Whether two names are equal in upper case.
    pub fn same(&self, other: &Name) -> bool
        ensures { IsTrue result ↔ Same self.now other.now }
    {
        self.bytes().eq_ignore_ascii_case(other.bytes())
    }
}

/// Upper case of the letters a to z. All other bytes stay as they are, international letters included.
pub fn upper(byte: u8) -> u8
    ensures { result ≡ upper_of byte }
{
    byte.to_ascii_uppercase()
}

/// Names that are the same have the same slot.
pub fn same_name_same_slot()
    ensures { SameNameSameSlot }
{}
