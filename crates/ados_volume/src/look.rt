//! Reads of directories and files.

ghost use Rattle.std.specs.Prelude.{◌≡◌, ◌++◌, ◌-◌, IsTrue, min, take, drop, length};
ghost use Rattle.std.specs.Bool.{IsFalse};
ghost use Rattle.ados_model.specs.Tree.{Tree, bytes_of, root};
ghost use Rattle.ados_model.specs.Stands.{Stands};
ghost use Rattle.ados_model.specs.Change.{child_of, is_file, entries_after};
ghost use Rattle.ados_model.specs.Keys.{HasDirectory, HasFileKey, HasKey, HasTree};
ghost use Rattle.ados_chain.specs.Look.{first_left};
ghost use Rattle.ados_volume.specs.Order.{IsPlaceIn};
ghost use Rattle.ados_volume.specs.steps.Listed.{AreListed};

use crate::listed_cache::ListedCache;
use crate::volume::Volume;
use adf_block::Image;
use adf_block::layout::{FILE_TYPE, SECONDARY_TYPE};
use ados_chain::{Next, after, after_entry, find};
use ados_data::read_near;
use ados_name::{Name, same_name_same_slot};

impl Volume {
    /// The key of the root.
    pub fn root(&self) -> u32
        ensures root { (t : Tree) → Stands self.now.image t → result ≡ root t }
        ensures directory { HasDirectory self.now.image result }
        ensures key { HasKey self.now.image result }
    {
        self.image().root()
    }

    /// The entry of a directory with the same name, a to z in upper case. Only the first call for a hash slot searches
    /// its chain: the entries of the slot are then cached, as long as memory suffices and no entry is removed or moved.
    pub fn child(&mut self, dir: u32, name: &Name) -> Option<u32>
        requires { HasDirectory self.old.image dir }
        ensures child { (t : Tree) → Stands self.old.image t → result ≡ child_of t dir name.now }
        ensures same { self.new ≡ self.old }
    {
        if let Some(key) = self.names.get(dir, name) {
            return Some(key);
        }
        let slot = name.slot();
        if self.names.is_whole(dir, slot) {
            same_name_same_slot();
            return None;
        }
        self.names.hold(&self.image, dir, slot);
        child_in(&self.image, dir, name)
    }

    /// Whether the object of a key is a file. Otherwise it is a directory.
    pub fn is_file(&self, key: u32) -> bool
        requires { HasKey self.now.image key }
        ensures file { (t : Tree) → Stands self.now.image t → result ≡ is_file t key }
        ensures file_key { IsTrue result → HasFileKey self.now.image key }
        ensures directory { IsFalse result → HasDirectory self.now.image key }
    {
        is_file_in(self.image(), key)
    }

    /// What follows a key in the order of a directory: by slot from 0 to 71, then along each hash chain.
    ///
    /// The directory's own key asks for the first entry. `key` may be any number.
    pub fn next(&self, dir: u32, key: u32) -> Next
        requires { HasDirectory self.now.image dir }
        ensures { (t : Tree) → Stands self.now.image t → result ≡ first_left (entries_after t dir key) }
    {
        after(self.image(), dir, key)
    }

    /// `next` for a key that is the directory's own or an entry's. It does not search a hash chain for that entry.
    pub fn next_from(&self, dir: u32, key: u32) -> Next
        requires dir { HasDirectory self.now.image dir }
        requires place { IsPlaceIn self.now.image dir key }
        ensures { (t : Tree) → Stands self.now.image t → result ≡ first_left (entries_after t dir key) }
    {
        next_at(self.image(), dir, key)
    }

    /// `next` with a cache: for some directories the volume remembers the last entry returned, and does not search a
    /// hash chain for it.
    pub fn tell_next(&mut self, dir: u32, key: u32) -> Next
        requires { HasDirectory self.old.image dir }
        ensures next { (t : Tree) → Stands self.old.image t → result ≡ first_left (entries_after t dir key) }
        ensures same { self.new ≡ self.old }
    {
        let next = next_in(&self.image, &self.listed, dir, key);
        if let Next::Entry(entry) = next {
            self.listed.keep(dir, entry);
        }
        next
    }

    /// Copies bytes of a file from byte `pos` into the buffer, as many as exist and fit. It returns their number. The
    /// rest of the buffer is unchanged.
    pub fn read(&self, key: u32, pos: u64, buffer: &mut [u8]) -> usize
        requires { HasFileKey self.now.image key }
        ensures count { (t : Tree) → Stands self.now.image t → result ≡ min (length buffer.old) (length (bytes_of t key) - pos) }
        ensures bytes { (t : Tree) → Stands self.now.image t → buffer.new ≡ take result (drop pos (bytes_of t key)) ++ drop result buffer.old }
    {
        read_near(&self.image, key, self.places.of(key), pos, buffer)
    }

    /// `read` with a cache: the position in the file is remembered, and a call for later bytes starts there.
    pub fn read_on(&mut self, key: u32, pos: u64, buffer: &mut [u8]) -> usize
        requires { HasFileKey self.old.image key }
        ensures count { (t : Tree) → Stands self.old.image t → result ≡ min (length buffer.old) (length (bytes_of t key) - pos) }
        ensures bytes { (t : Tree) → Stands self.old.image t → buffer.new ≡ take result (drop pos (bytes_of t key)) ++ drop result buffer.old }
        ensures same { self.new ≡ self.old }
    {
        let place = self.places.at(&self.image, key, pos);
        read_near(&self.image, key, place, pos, buffer)
    }
}

/// What follows a key in the order of a directory. The cache has known entries of some directories.
fn next_in(image: &Image, listed: &ListedCache, dir: u32, key: u32) -> Next
    requires tree { HasTree image.now }
    requires dir { HasDirectory image.now dir }
    requires listed { AreListed image.now listed.now.entries.entries }
    ensures { (t : Tree) → Stands image.now t → result ≡ first_left (entries_after t dir key) }
{
    if listed.is_last(dir, key) {
        next_at(image, dir, key)
    } else {
        after(image, dir, key)
    }
}

/// What follows a key that is the directory's own or an entry's.
fn next_at(image: &Image, dir: u32, key: u32) -> Next
    requires tree { HasTree image.now }
    requires dir { HasDirectory image.now dir }
    requires place { IsPlaceIn image.now dir key }
    ensures { (t : Tree) → Stands image.now t → result ≡ first_left (entries_after t dir key) }
{
    if key == dir {
        after(image, dir, dir)
    } else {
        after_entry(image, dir, key)
    }
}

/// The entry of a directory with the same name.
fn child_in(image: &Image, dir: u32, name: &Name) -> Option<u32>
    requires tree { HasTree image.now }
    requires dir { HasDirectory image.now dir }
    ensures { (t : Tree) → Stands image.now t → result ≡ child_of t dir name.now }
{
    same_name_same_slot();
    find(image, dir, name)
}

/// Whether the key is that of a file.
pub fn is_file_in(image: &Image, key: u32) -> bool
    requires tree { HasTree image.now }
    requires key { HasKey image.now key }
    ensures { (t : Tree) → Stands image.now t → result ≡ is_file t key }
{
    image.long(key, SECONDARY_TYPE) == FILE_TYPE
}
