//! A cache of positions in files, so that the next call need not walk from the header.

ghost use Rattle.std.specs.Prelude.{◌≡◌, IfOk, List, ℕ, []};
ghost use Rattle.ados_data.specs.Place.{IsPlace};
ghost use Rattle.ados_model.specs.Keys.{HasFileKey, HasTree};
ghost use Rattle.ados_volume.specs.steps.Places.{AreKnown, Drops};

use adf_block::Image;
use ados_data::{Place, place_at};
use lru::LruCache;
use std::alloc::{AllocError, Global};
use std::num::NonZeroUsize;

/// The number of files in the cache (this project's own choice).
const KEPT_PLACES: usize = 64;

/// The positions in the files read and written most recently, by the file's key.
#[derive(Drop)]
pub struct PlaceCache {
    places: LruCache<u32, Place>,
}

impl PlaceCache {
    /// An empty cache.
    pub fn new(alloc: Global) -> Result<PlaceCache, AllocError>
        ensures { IfOk result (λ cache. cache.places.entries ≡ []) }
    {
        let places = LruCache::new(alloc, NonZeroUsize::new(KEPT_PLACES).unwrap())?;
        Ok(PlaceCache { places })
    }

    /// The cached place in a file, or its header.
    pub fn of(&self, file: u32) -> Place
        ensures { (image : List ℕ) → AreKnown image self.now.places.entries → IsPlace image file result }
    {
        match self.places.peek(&file).copied() {
            Some(place) => place,
            None => Place::header(file),
        }
    }

    /// The place at byte `pos` of a file. It is cached, unless memory runs out.
    pub fn at(&mut self, image: &Image, file: u32, pos: u64) -> Place
        requires tree { HasTree image.now }
        requires file { HasFileKey image.now file }
        requires known { AreKnown image.now self.old.places.entries }
        ensures place { IsPlace image.now file result }
        ensures known { AreKnown image.now self.new.places.entries }
    {
        let place = place_at(image, file, self.of(file), pos);
        let _ = self.places.put(file, place);
        place
    }

    /// Removes the place in a file, if there is one.
    pub fn drop_of(&mut self, file: u32)
        ensures { Drops self.old.places.entries file self.new.places.entries }
    {
        prove!(self.places.len() < usize::MAX);
        let _ = self.places.pop(&file);
    }

    /// Removes all places.
    pub fn clear(&mut self)
        ensures { self.new.places.entries ≡ [] }
    {
        self.places.clear();
    }
}
