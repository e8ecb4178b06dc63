//! The name of a root or entry, valid or not.
ghost use Rattle.std.specs.Prelude.{◌≡◌, ◌↔◌, ◌<◌, ◌≤◌, ℕ, IfSome, IsTrue, MatchOption, false, is_some, length, slice_index};
ghost use Rattle.adf_block.specs.Image.{block_count};
ghost use Rattle.adf_block.specs.Whole.{IsImage};
ghost use Rattle.ados_name.specs.Name.{hash, is_separator};
ghost use Rattle.ados_model.specs.Faults.{HasShortName};
ghost use Rattle.ados_check.specs.Evidence.{IsFirstSeparator, IsNameEvidence};
ghost use Rattle.ados_check.specs.PlacesTold.{TellsAll};
ghost use Rattle.ados_check.specs.Rules.{HasWrongLength, HasWrongName, IsOfOtherSlot};
ghost use Rattle.ados_check.specs.Entries.{upper_name};

use crate::evidence::Evidence;
use crate::source::Source;
use adf_block::layout::{NAME_BYTE, TABLE_LONGS};
use ados_name::{Name, upper};

/// The bytes of a name in the form for comparison: its length, and room for the longest name.
pub const UPPER_BYTES: usize = Name::MAX_LEN + 1;

/// Whether the length of the name is at most 30.
pub fn has_short_name(source: &Source<'_>, block: u32) -> bool
    requires inside { block < block_count source.now.bytes }
    requires told { TellsAll source.now block }
    ensures { IsTrue result ↔ HasShortName source.now.bytes block }
{
    usize::from(source.byte(block, NAME_BYTE)) <= Name::MAX_LEN
}

/// The name of an entry in the form for comparison: its length, its bytes in upper case, then zeros.
pub fn upper_name(source: &Source<'_>, block: u32) -> [u8; UPPER_BYTES]
    requires image { IsImage source.now.bytes }
    requires inside { block < block_count source.now.bytes }
    requires short { HasShortName source.now.bytes block }
    requires told { TellsAll source.now block }
    ensures { result ≡ upper_name source.now.bytes block }
{
    let len = source.byte(block, NAME_BYTE);
    let mut name = [0; UPPER_BYTES];
    name[0] = len;
    for i in 0..u32::from(len) {
        name[i as usize + 1] = upper(source.byte(block, NAME_BYTE + 1 + i));
    }
    name
}

/// The long with the length of the name, if that is 0 or more than 30; else the one with its first slash or colon.
pub(crate) fn name_evidence(source: &Source<'_>, block: u32) -> Option<Evidence>
    requires inside { block < block_count source.now.bytes }
    requires told { TellsAll source.now block }
    ensures broken { IsTrue (is_some result) ↔ HasWrongName source.now.bytes block }
    ensures evidence { IfSome result (IsNameEvidence source.now.bytes block) }
{
    if has_wrong_length(source, block) {
        return Some(Evidence::of(source, block, NAME_BYTE / 4, None));
    }
    match first_separator(source.short_text(block)) {
        Some(place) => {
            let at = (NAME_BYTE + 1 + place) / 4;
            Some(Evidence::of(source, block, at, None))
        }
        None => None,
    }
}

/// Whether the name is empty, or longer than a name may be.
fn has_wrong_length(source: &Source<'_>, block: u32) -> bool
    requires inside { block < block_count source.now.bytes }
    requires told { TellsAll source.now block }
    ensures { IsTrue result ↔ HasWrongLength source.now.bytes block }
{
    source.byte(block, NAME_BYTE) == 0 || !has_short_name(source, block)
}

/// The place of the first slash or colon of a text.
fn first_separator(text: &[u8]) -> Option<u32>
    requires { length text.now ≤ Name.MAX_LEN }
    ensures { MatchOption result ((k : ℕ) → k < length text.now → is_separator (slice_index text.now k) ≡ false) (IsFirstSeparator text.now) }
{
    for place in 0..text.len() as u32 {
        if matches!(text[place as usize], b'/' | b':') {
            return Some(place);
        }
    }
    None
}

/// Whether the entry is in the hash chain of another slot than its name's.
pub(crate) fn is_of_other_slot(source: &Source<'_>, block: u32, chain: u32) -> bool
    requires inside { block < block_count source.now.bytes }
    requires told { TellsAll source.now block }
    ensures { IsTrue result ↔ IsOfOtherSlot source.now.bytes block chain }
{
    has_short_name(source, block) && hash_of(source.short_text(block)) % TABLE_LONGS != chain
}

/// The hash of a name, valid or not.
#[tactic(auto, unfolding(ados_name::specs::Name::hash))]
fn hash_of(text: &[u8]) -> u32
    requires { length text.now ≤ Name.MAX_LEN }
    ensures { result ≡ hash text.now }
{
    let mut hash = text.len() as u32;
    for byte in text {
        hash = (13 * hash + upper(*byte) as u32) % 2048;
    }
    hash
}
