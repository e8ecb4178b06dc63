//! Reads of a directory: an entry by its name, and the entries in order.

ghost use Rattle.std.specs.Prelude.{◌≡◌, ◌<◌, ◌≤◌, ◌-◌, ◌↔◌, ◌∷◌, [], ℕ, List, Some, IsTrue, Contains};
ghost use Rattle.ados_name.specs.Name.{slot};
ghost use Rattle.ados_chain.specs.Chains.{HasChains, InChains, LawfulChains, chains_from, entries_of};
ghost use Rattle.ados_model.specs.Tree.{behind};
ghost use Rattle.ados_chain.specs.Look.{FindsNamed, FindsSlot, first_left};

use crate::entry::{has_name, name_of, slot_of};
use crate::link::link_to;
use adf_block::Image;
use adf_block::layout::{BOOT_BLOCKS, FIRST_SLOT, NEXT_IN_CHAIN, TABLE_LONGS};
use ados_name::Name;

/// What follows a key in the order of a directory.
#[derive(Clone, Copy, PartialEq, Eq)]
pub enum Next {
    /// The next entry.
    Entry(u32),
    /// Nothing: the key was the last entry.
    End,
    /// The key is neither the directory nor one of its entries.
    NotAnEntry,
}

/// The first entry with the same name, a to z in upper case; or `None`. Only the hash chain of the name's slot is
/// searched.
pub fn find(image: &Image, dir: u32, name: &Name) -> Option<u32>
    requires { HasChains image.now dir }
    ensures { (chains : ℕ → List ℕ) → LawfulChains image.now dir chains → FindsNamed image.now name.now (chains (slot name.now)) result }
{
    let mut key = image.long(dir, FIRST_SLOT + name.slot());
    while key != 0 {
        if has_name(image, key, name) {
            return Some(key);
        }
        key = image.long(key, NEXT_IN_CHAIN);
    }
    None
}

/// What follows `key` in the order of the directory: by slot from 0 to 71, then along each hash chain.
///
/// The directory's own key asks for the first entry. `key` may be any number. A number that is not a block, or a block
/// without a valid name, is `NotAnEntry`.
pub fn after(image: &Image, dir: u32, key: u32) -> Next
    requires { HasChains image.now dir }
    ensures { (chains : ℕ → List ℕ) → LawfulChains image.now dir chains → result ≡ first_left (behind key (dir ∷ entries_of chains)) }
{
    if key == dir {
        return first_from(image, dir, 0);
    }
    let Some(slot) = slot_with(image, dir, key) else {
        return Next::NotAnEntry;
    };
    behind_entry(image, dir, slot, key)
}

/// What follows an entry in the order of the directory. It does not read the hash chain before the entry.
pub fn after_entry(image: &Image, dir: u32, key: u32) -> Next
    requires chains { HasChains image.now dir }
    requires entry { (chains : ℕ → List ℕ) → LawfulChains image.now dir chains → InChains chains key }
    ensures { (chains : ℕ → List ℕ) → LawfulChains image.now dir chains → result ≡ first_left (behind key (dir ∷ entries_of chains)) }
{
    let slot = slot_of(image, key);
    behind_entry(image, dir, slot, key)
}

/// What follows an entry of this slot in the order of the directory.
fn behind_entry(image: &Image, dir: u32, slot: u32, key: u32) -> Next
    requires chains { HasChains image.now dir }
    requires entry { (chains : ℕ → List ℕ) → LawfulChains image.now dir chains → (slot < TABLE_LONGS) × Contains (chains slot) key }
    ensures { (chains : ℕ → List ℕ) → LawfulChains image.now dir chains → result ≡ first_left (behind key (dir ∷ entries_of chains)) }
{
    let next = image.long(key, NEXT_IN_CHAIN);
    if next == 0 {
        first_from(image, dir, slot + 1)
    } else {
        Next::Entry(next)
    }
}

/// Whether the directory has no entries.
pub fn is_empty(image: &Image, dir: u32) -> bool
    requires { HasChains image.now dir }
    ensures { (chains : ℕ → List ℕ) → LawfulChains image.now dir chains → (IsTrue result ↔ (entries_of chains ≡ [])) }
{
    matches!(first_from(image, dir, 0), Next::End)
}

/// The first entry in the slots from `slot` to 71.
fn first_from(image: &Image, dir: u32, slot: u32) -> Next
    requires chains { HasChains image.now dir }
    requires slot { slot ≤ TABLE_LONGS }
    ensures { (chains : ℕ → List ℕ) → LawfulChains image.now dir chains → result ≡ first_left (Some (chains_from chains slot (TABLE_LONGS - slot))) }
{
    for s in slot..TABLE_LONGS {
        let key = image.long(dir, FIRST_SLOT + s);
        if key != 0 {
            return Next::Entry(key);
        }
    }
    Next::End
}

/// The slot whose hash chain has the key, or `None`.
pub fn slot_with(image: &Image, dir: u32, key: u32) -> Option<u32>
    requires { HasChains image.now dir }
    ensures { (chains : ℕ → List ℕ) → LawfulChains image.now dir chains → FindsSlot chains key result }
{
    if key < BOOT_BLOCKS || key >= image.blocks() {
        return None;
    }
    let slot = name_of(image, key)?.slot();
    let link = link_to(image, dir, slot, key);
    if image.long(link.block, link.long) == key {
        Some(slot)
    } else {
        None
    }
}
