//! Changes of a directory's entries.

ghost use Rattle.std.specs.Prelude.{◌≡◌, [], MatchResult};
ghost use Rattle.ados_name.specs.Name.{slot};
ghost use Rattle.ados_chain.specs.Links.{IsNear};
ghost use Rattle.ados_model.specs.Tree.{Tree};
ghost use Rattle.ados_model.specs.Stands.{Stands, in_slot};
ghost use Rattle.ados_model.specs.Keys.{HasKey, HasTree};
ghost use Rattle.ados_change.specs.NewBlocks.{KeepsBlock, KeepsRest, TakesNone};
ghost use Rattle.ados_model.specs.Change.{removed, renamed};
ghost use Rattle.ados_change.specs.AfterName.{KeepsAfterName};
ghost use Rattle.ados_change.specs.Conditions.{CanMake, CanRemove, CanRename};
ghost use Rattle.ados_change.specs.Kinds.{Makes};
ghost use Rattle.ados_volume.specs.Refused.{RefusesEntry};
ghost use Rattle.ados_volume.specs.steps.Cache.{Forgets};
ghost use Rattle.ados_volume.specs.steps.Listed.{AreListed};

use crate::cache::NameCache;
use crate::examine::name_in;
use crate::listed_cache::ListedCache;
use crate::volume::Volume;
use crate::walk::parent_in;
use adf_block::Image;
use adf_block::layout::BOOT_BLOCKS;
use ados_change::{NodeKind, Starts, create, remove, rename};
use ados_model::Full;
use ados_name::{Date3, Name};

impl Volume {
    /// Makes an empty file or directory and returns its key, the lowest free block. No other entry of the directory
    /// may have the name.
    ///
    /// The dates of the entry, of its directory and of the disk become `moment`. `Full` (DOS error 221) means that no
    /// block is free; then nothing changes.
    pub fn create(
        &mut self,
        dir: u32,
        name: Name,
        kind: NodeKind,
        moment: Date3,
    ) -> Result<u32, Full>
        requires { (t : Tree) → Stands self.old.image t → CanMake t dir name }
        ensures done { MatchResult result (λ key. Makes moment dir name kind key self.old.image self.new.image) (λ _. RefusesEntry self.old self.new) }
        ensures keeps { KeepsRest self.old.image self.new.image }
        ensures validated { self.new.was_validated ≡ self.old.was_validated }
    {
        self.places.clear();
        let starts = Starts {
            near: near(&self.image, &self.listed, dir, &name),
            free_from: self.free_from,
        };
        let key = create(&mut self.image, dir, &name, kind, moment, starts)?;
        self.names.enter(dir, &name, key);
        self.listed.keep(dir, key);
        self.free_from = key;
        Ok(key)
    }

    /// Removes a file, or a directory without entries. The bytes of freed blocks are unchanged, those of the entry's
    /// own block too.
    ///
    /// The date of the directory and the disk date become `moment`.
    pub fn remove(&mut self, key: u32, moment: Date3)
        requires { (t : Tree) → Stands self.old.image t → CanRemove t key }
        ensures stands { (t : Tree) → Stands self.old.image t → Stands self.new.image (removed moment key t) }
        ensures keeps { KeepsRest self.old.image self.new.image }
        ensures none { TakesNone self.old.image self.new.image }
        ensures dead { KeepsBlock key self.old.image self.new.image }
        ensures validated { self.new.was_validated ≡ self.old.was_validated }
    {
        forget(&mut self.names, &mut self.listed, &self.image, key);
        self.places.clear();
        remove(&mut self.image, key, moment);
        self.free_from = BOOT_BLOCKS;
    }

    /// Moves an entry into a directory, possibly its own, under a name. Bytes of a longer old name after the new one
    /// are unchanged.
    ///
    /// The dates of both directories and the disk date become `moment`. The entry keeps its date.
    pub fn rename(&mut self, key: u32, dir: u32, name: Name, moment: Date3)
        requires { (t : Tree) → Stands self.old.image t → CanRename t key dir name }
        ensures stands { (t : Tree) → Stands self.old.image t → Stands self.new.image (renamed moment key dir name t) }
        ensures keeps { KeepsRest self.old.image self.new.image }
        ensures none { TakesNone self.old.image self.new.image }
        ensures behind { KeepsAfterName key name self.old.image self.new.image }
        ensures validated { self.new.was_validated ≡ self.old.was_validated }
    {
        forget(&mut self.names, &mut self.listed, &self.image, key);
        self.places.clear();
        rename(&mut self.image, key, dir, &name, moment);
    }
}

/// Where the search for the end of a name's hash chain starts: at the entry of the directory that was listed or made last, if it is in
/// the chain, and else at the directory.
fn near(image: &Image, listed: &ListedCache, dir: u32, name: &Name) -> u32
    requires tree { HasTree image.now }
    requires listed { AreListed image.now listed.now.entries.entries }
    ensures { (t : Tree) → Stands image.now t → IsNear dir (in_slot t dir (slot name.now)) result }
{
    let Some(last) = listed.last(dir) else {
        return dir;
    };
    if name_in(image, last).slot() == name.slot() {
        last
    } else {
        dir
    }
}

/// Removes an object from the cache of names, whose hash slots do not count as whole any more, and clears the cache of
/// listed entries.
fn forget(names: &mut NameCache, listed: &mut ListedCache, image: &Image, key: u32)
    requires tree { HasTree image.now }
    requires key { HasKey image.now key }
    ensures names { Forgets image.now key names.old.pairs names.new.pairs }
    ensures whole { names.new.whole.keys ≡ [] }
    ensures listed { listed.new.entries.entries ≡ [] }
{
    listed.clear();
    names.forget_whole();
    if let Some(dir) = parent_in(image, key) {
        names.take_out(dir, &name_in(image, key));
    }
}
