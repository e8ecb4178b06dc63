//! A cache of the entries listed or made last, so that the next call need not search a hash chain.

ghost use Rattle.std.specs.Prelude.{◌≡◌, IfOk, IfSome, IsTrue, List, ℕ, Contains, []};
ghost use Rattle.ados_volume.specs.steps.Listed.{AreListed, IsListed};

use lru::LruCache;
use std::alloc::{AllocError, Global};
use std::num::NonZeroUsize;

/// The number of directories in the cache (this project's own choice).
const KEPT_LISTED: usize = 64;

/// The entry listed or made last, by its directory's key.
#[derive(Drop)]
pub struct ListedCache {
    entries: LruCache<u32, u32>,
}

impl ListedCache {
    /// An empty cache.
    pub fn new(alloc: Global) -> Result<ListedCache, AllocError>
        ensures { IfOk result (λ cache. cache.entries.entries ≡ []) }
    {
        let entries = LruCache::new(alloc, NonZeroUsize::new(KEPT_LISTED).unwrap())?;
        Ok(ListedCache { entries })
    }

    /// The entry of the directory that was listed or made last.
    pub fn last(&self, dir: u32) -> Option<u32>
        ensures { IfSome result (λ key. Contains self.now.entries.entries (dir, key)) }
    {
        self.entries.peek(&dir).copied()
    }

    /// Whether this entry is that one.
    pub fn is_last(&self, dir: u32, key: u32) -> bool
        ensures { IsTrue result → Contains self.now.entries.entries (dir, key) }
    {
        match self.last(dir) {
            Some(last) => last == key,
            None => false,
        }
    }

    /// Caches an entry of a directory. If memory runs out, it is not cached.
    pub fn keep(&mut self, dir: u32, key: u32)
        ensures { (image : List ℕ) → IsListed image dir key → AreListed image self.old.entries.entries → AreListed image self.new.entries.entries }
    {
        let _ = self.entries.put(dir, key);
    }

    /// Removes all entries.
    pub fn clear(&mut self)
        ensures { self.new.entries.entries ≡ [] }
    {
        self.entries.clear();
    }
}
