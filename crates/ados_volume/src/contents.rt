//! Changes of a file's bytes.

ghost use Rattle.std.specs.Prelude.{◌≡◌, ◌<◌, ◌≤◌, []};
ghost use Rattle.ados_model.specs.Tree.{Tree, size_of};
ghost use Rattle.ados_model.specs.Stands.{Stands};
ghost use Rattle.ados_model.specs.Keys.{HasFileKey};
ghost use Rattle.ados_model.specs.Edits.{shortened};
ghost use Rattle.ados_change.specs.NewBlocks.{KeepsRest, TakesNone};
ghost use Rattle.ados_volume.specs.Refused.{GrowsOrRefuses, WritesOrRefuses};

use crate::volume::Volume;
use adf_block::layout::BOOT_BLOCKS;
use ados_change::{cut, grow, write};
use ados_model::Full;
use ados_name::Date3;

impl Volume {
    /// Writes bytes into a file from byte `pos`, at most its size. The file grows if they reach past its end. No bytes
    /// change nothing.
    ///
    /// The file's date and the disk date become `moment`, and the file's archive bit is cleared. `Full` (DOS error
    /// 221) means that too few blocks are free; then nothing changes.
    pub fn write(&mut self, key: u32, pos: u64, bytes: &[u8], moment: Date3) -> Result<(), Full>
        requires file { HasFileKey self.old.image key }
        requires start { (t : Tree) → Stands self.old.image t → pos ≤ size_of t key }
        ensures done { WritesOrRefuses moment key pos bytes.now self.old self.new result }
        ensures keeps { KeepsRest self.old.image self.new.image }
        ensures none { bytes.now ≡ [] → self.new ≡ self.old }
        ensures validated { self.new.was_validated ≡ self.old.was_validated }
    {
        if bytes.is_empty() {
            return Ok(());
        }
        let place = self.places.at(&self.image, key, pos);
        self.free_from = write(
            &mut self.image,
            key,
            place,
            pos,
            bytes,
            moment,
            self.free_from,
        )?;
        Ok(())
    }

    /// Cuts a file to `size` bytes. The bytes of freed blocks are unchanged.
    ///
    /// The file's date and the disk date become `moment`, and the file's archive bit is cleared.
    pub fn cut(&mut self, key: u32, size: u32, moment: Date3)
        requires file { HasFileKey self.old.image key }
        requires shorter { (t : Tree) → Stands self.old.image t → size ≤ size_of t key }
        ensures stands { (t : Tree) → Stands self.old.image t → Stands self.new.image (shortened moment key size t) }
        ensures keeps { KeepsRest self.old.image self.new.image }
        ensures none { TakesNone self.old.image self.new.image }
        ensures validated { self.new.was_validated ≡ self.old.was_validated }
    {
        self.places.drop_of(key);
        cut(&mut self.image, key, size, moment);
        self.free_from = BOOT_BLOCKS;
    }

    /// Appends zeros to a file, up to `size` bytes.
    ///
    /// The file's date and the disk date become `moment`, and the file's archive bit is cleared. `Full` (DOS error
    /// 221) means that too few blocks are free; then nothing changes.
    pub fn grow(&mut self, key: u32, size: u32, moment: Date3) -> Result<(), Full>
        requires file { HasFileKey self.old.image key }
        requires longer { (t : Tree) → Stands self.old.image t → size_of t key < size }
        ensures done { GrowsOrRefuses moment key size self.old self.new result }
        ensures keeps { KeepsRest self.old.image self.new.image }
        ensures validated { self.new.was_validated ≡ self.old.was_validated }
    {
        let place = self.places.at(&self.image, key, size as u64);
        self.free_from = grow(&mut self.image, key, place, size, moment, self.free_from)?;
        Ok(())
    }
}
