//! Changes of an object's metadata, and of the volume's name.

ghost use Rattle.std.specs.Prelude.{◌≡◌, ◌+◌, length};
ghost use Rattle.adf_block.specs.declared.layout.TheConstants.{PROTECTION, COMMENT_BYTE, DATE, NAME_BYTE};
ghost use Rattle.adf_block.specs.Frame.{long_byte};
ghost use Rattle.ados_model.specs.Tree.{Tree};
ghost use Rattle.ados_model.specs.Stands.{Stands};
ghost use Rattle.ados_model.specs.Keys.{HasEntryKey};
ghost use Rattle.ados_model.specs.Faults.{root_of};
ghost use Rattle.ados_change.specs.NewBlocks.{KeepsRest};
ghost use Rattle.ados_model.specs.Edits.{disk_renamed, with_comment, with_date, with_protection};
ghost use Rattle.ados_change.specs.Places.{OnlyRestamped};

use crate::volume::Volume;
use ados_change::{rename_disk, set_comment, set_date, set_protection};
use ados_name::{Comment, Date3, Name, Protect};

impl Volume {
    /// Sets the protection bits of a directory or file. The disk date becomes `moment`. Only these fields and the
    /// checksums of both blocks change.
    pub fn set_protect(&mut self, key: u32, bits: Protect, moment: Date3)
        requires { HasEntryKey self.old.image key }
        ensures stands { (t : Tree) → Stands self.old.image t → Stands self.new.image (with_protection moment key bits.0 t) }
        ensures keeps { KeepsRest self.old.image self.new.image }
        ensures rest { OnlyRestamped key (long_byte PROTECTION) (long_byte (PROTECTION + 1)) self.old.image self.new.image }
        ensures validated { self.new.was_validated ≡ self.old.was_validated }
    {
        set_protection(&mut self.image, key, bits, moment);
    }

    /// Sets the comment of a directory or file. The disk date becomes `moment`. Only these fields and the checksums of
    /// both blocks change. Bytes of a longer old comment after the new one stay.
    pub fn set_comment(&mut self, key: u32, comment: Comment, moment: Date3)
        requires { HasEntryKey self.old.image key }
        ensures stands { (t : Tree) → Stands self.old.image t → Stands self.new.image (with_comment moment key comment t) }
        ensures keeps { KeepsRest self.old.image self.new.image }
        ensures rest { OnlyRestamped key COMMENT_BYTE (COMMENT_BYTE + 1 + length comment) self.old.image self.new.image }
        ensures validated { self.new.was_validated ≡ self.old.was_validated }
    {
        set_comment(&mut self.image, key, &comment, moment);
    }

    /// Sets the date of a directory or file. The disk date becomes `moment`. Only these fields and the checksums of
    /// both blocks change.
    pub fn set_date(&mut self, key: u32, date: Date3, moment: Date3)
        requires { HasEntryKey self.old.image key }
        ensures stands { (t : Tree) → Stands self.old.image t → Stands self.new.image (with_date moment key date t) }
        ensures keeps { KeepsRest self.old.image self.new.image }
        ensures rest { OnlyRestamped key (long_byte DATE) (long_byte (DATE + 3)) self.old.image self.new.image }
        ensures validated { self.new.was_validated ≡ self.old.was_validated }
    {
        set_date(&mut self.image, key, date, moment);
    }

    /// Sets the volume's name. The disk date becomes `moment`. Only these fields and the root's checksum change. Bytes
    /// of a longer old name after the new one stay.
    pub fn rename_disk(&mut self, name: Name, moment: Date3)
        ensures stands { (t : Tree) → Stands self.old.image t → Stands self.new.image (disk_renamed moment name t) }
        ensures keeps { KeepsRest self.old.image self.new.image }
        ensures rest { OnlyRestamped (root_of self.old.image) NAME_BYTE (NAME_BYTE + 1 + length name) self.old.image self.new.image }
        ensures validated { self.new.was_validated ≡ self.old.was_validated }
    {
        rename_disk(&mut self.image, &name, moment);
    }
}
