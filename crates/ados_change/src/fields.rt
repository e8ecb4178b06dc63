//! The changes of one node's fields by packets. Each sets the disk date as well.

ghost use Rattle.std.specs.Prelude.{◌+◌, length};
ghost use Rattle.adf_block.specs.declared.layout.TheConstants.{PROTECTION, COMMENT_BYTE, DATE, NAME_BYTE};
ghost use Rattle.adf_block.specs.Frame.{long_byte};
ghost use Rattle.ados_model.specs.Tree.{Tree};
ghost use Rattle.ados_model.specs.Stands.{Stands};
ghost use Rattle.ados_model.specs.Keys.{HasEntryKey, HasTree};
ghost use Rattle.ados_model.specs.Faults.{root_of};
ghost use Rattle.ados_change.specs.NewBlocks.{KeepsRest};
ghost use Rattle.ados_model.specs.Edits.{disk_renamed, with_comment, with_date, with_protection};
ghost use Rattle.ados_change.specs.Places.{OnlyRestamped};

use crate::node::{put_comment, put_disk_name, put_protection, stamp_disk, touch};
use adf_block::Image;
use ados_name::{Comment, Date3, Name, Protect};

/// Sets the protection bits of a directory or file.
pub fn set_protection(image: &mut Image, key: u32, bits: Protect, moment: Date3)
    requires tree { HasTree image.old }
    requires key { HasEntryKey image.old key }
    ensures stands { (t : Tree) → Stands image.old t → Stands image.new (with_protection moment key bits.0 t) }
    ensures keeps { KeepsRest image.old image.new }
    ensures rest { OnlyRestamped key (long_byte PROTECTION) (long_byte (PROTECTION + 1)) image.old image.new }
{
    put_protection(image, key, bits);
    stamp_disk(image, moment);
}

/// Sets the comment of a directory or file.
pub fn set_comment(image: &mut Image, key: u32, comment: &Comment, moment: Date3)
    requires tree { HasTree image.old }
    requires key { HasEntryKey image.old key }
    ensures stands { (t : Tree) → Stands image.old t → Stands image.new (with_comment moment key comment.now t) }
    ensures keeps { KeepsRest image.old image.new }
    ensures rest { OnlyRestamped key COMMENT_BYTE (COMMENT_BYTE + 1 + length comment.now) image.old image.new }
{
    put_comment(image, key, comment);
    stamp_disk(image, moment);
}

/// Sets the date of a directory or file. It may differ from `moment`, which is the new disk date.
pub fn set_date(image: &mut Image, key: u32, date: Date3, moment: Date3)
    requires tree { HasTree image.old }
    requires key { HasEntryKey image.old key }
    ensures stands { (t : Tree) → Stands image.old t → Stands image.new (with_date moment key date t) }
    ensures keeps { KeepsRest image.old image.new }
    ensures rest { OnlyRestamped key (long_byte DATE) (long_byte (DATE + 3)) image.old image.new }
{
    touch(image, key, date);
    stamp_disk(image, moment);
}

/// Sets the volume's name.
pub fn rename_disk(image: &mut Image, name: &Name, moment: Date3)
    requires { HasTree image.old }
    ensures stands { (t : Tree) → Stands image.old t → Stands image.new (disk_renamed moment name.now t) }
    ensures keeps { KeepsRest image.old image.new }
    ensures rest { OnlyRestamped (root_of image.old) NAME_BYTE (NAME_BYTE + 1 + length name.now) image.old image.new }
{
    put_disk_name(image, name);
    stamp_disk(image, moment);
}
