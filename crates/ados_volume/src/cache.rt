//! A cache of entries by their directories and names.

ghost use Rattle.std.specs.Prelude.{◌≡◌, ◌<◌, ◌+◌, ◌*◌, IfNone, IfSome, IsTrue, List, ℕ, []};
ghost use Rattle.ados_model.specs.Keys.{HasDirectory, HasTree};
ghost use Rattle.ados_volume.specs.steps.Cache.{AreChildren, AreWhole, Enters, HasMark, HasPair, IsUnknown, Puts, Seeks, TakesOut};

use crate::examine::name_in;
use adf_block::Image;
use adf_block::layout::{FIRST_SLOT, NEXT_IN_CHAIN, TABLE_LONGS};
use ados_name::Name;
use std::alloc::Global;
use std::collections::{BTreeMap, BTreeSet};

/// A directory, and the name to find in it, in upper case.
#[derive(Clone, Copy, PartialEq, Eq, PartialOrd, Ord)]
pub struct Sought {
    dir: u32,
    length: u8,
    letters: [u8; 30],
}

/// The keys of entries. Each is one of the volume's entries, so there are never more than these.
///
/// It is ordered, and not hashed, because the names come from a stranger.
#[derive(Drop)]
pub struct NameCache {
    pairs: BTreeMap<Sought, u32>,
    /// The hash slots whose entries are all in the cache, by their numbers.
    whole: BTreeSet<u64>,
}

impl NameCache {
    /// An empty cache.
    pub fn new(alloc: Global) -> NameCache
        ensures pairs { result.pairs.entries ≡ [] }
        ensures whole { result.whole.keys ≡ [] }
    {
        NameCache {
            pairs: BTreeMap::new(alloc),
            whole: BTreeSet::new(alloc),
        }
    }

    /// The entry cached under this name, or under one that is the same.
    pub fn get(&self, dir: u32, name: &Name) -> Option<u32>
        ensures found { IfSome result (λ key. HasPair self.now.pairs dir name.now key) }
        ensures none { IfNone result (IsUnknown self.now.pairs dir name.now) }
    {
        self.pairs.get(&seek(dir, name)).copied()
    }

    /// Whether all entries of a hash slot are in the cache.
    pub fn is_whole(&self, dir: u32, slot: u32) -> bool
        ensures { IsTrue result → HasMark self.now.whole dir slot }
    {
        self.whole.contains(&slot_number(dir, slot))
    }

    /// Caches the entries of a hash slot of a directory. If memory runs out, only some of them.
    pub fn hold(&mut self, image: &Image, dir: u32, slot: u32)
        requires tree { HasTree image.now }
        requires dir { HasDirectory image.now dir }
        requires slot { slot < TABLE_LONGS }
        requires children { AreChildren image.now self.old.pairs }
        requires whole { AreWhole image.now self.old.pairs self.old.whole }
        ensures children { AreChildren image.now self.new.pairs }
        ensures whole { AreWhole image.now self.new.pairs self.new.whole }
    {
        let mut key = image.long(dir, FIRST_SLOT + slot);
        while key != 0 {
            if !self.put(dir, &name_in(image, key), key) {
                return;
            }
            key = image.long(key, NEXT_IN_CHAIN);
        }
        let _ = self.whole.insert(slot_number(dir, slot));
    }

    /// Caches a new entry. If memory runs out, it is not cached, and no hash slot counts as whole.
    pub fn enter(&mut self, dir: u32, name: &Name, key: u32)
        ensures { Enters self.old.pairs self.old.whole dir name.now key self.new.pairs self.new.whole }
    {
        if !self.put(dir, name, key) {
            self.whole.clear();
        }
    }

    /// Removes the entry with this name, or with one that is the same. No hash slot counts as whole any more.
    pub fn take_out(&mut self, dir: u32, name: &Name)
        ensures pairs { TakesOut self.old.pairs dir name.now self.new.pairs }
        ensures whole { self.new.whole.keys ≡ [] }
    {
        self.whole.clear();
        let _ = self.pairs.remove(&seek(dir, name));
    }

    /// Forgets which hash slots are whole.
    pub fn forget_whole(&mut self)
        ensures pairs { self.new.pairs ≡ self.old.pairs }
        ensures whole { self.new.whole.keys ≡ [] }
    {
        self.whole.clear();
    }

    /// Caches an entry, and returns whether memory sufficed.
    fn put(&mut self, dir: u32, name: &Name, key: u32) -> bool
        ensures pairs { Puts self.old.pairs dir name.now key self.new.pairs result }
        ensures whole { self.new.whole ≡ self.old.whole }
    {
        self.pairs.insert(seek(dir, name), key).is_ok()
    }
}

/// The key of the cache for a name in a directory.
fn seek(dir: u32, name: &Name) -> Sought
    ensures { Seeks result dir name.now }
{
    let bytes = name.bytes();
    let mut letters = [0; 30];
    letters[..bytes.len()].copy_from_slice(bytes);
    letters.make_ascii_uppercase();
    Sought {
        dir,
        length: bytes.len() as u8,
        letters,
    }
}

/// The number of a hash slot among those of all directories.
fn slot_number(dir: u32, slot: u32) -> u64
    ensures { result ≡ TABLE_LONGS * dir + slot }
{
    TABLE_LONGS as u64 * dir as u64 + slot as u64
}
