//! One field of one node, and the disk date.

ghost use Rattle.std.specs.Prelude.{◌+◌, length};
ghost use Rattle.adf_block.specs.Frame.{SameBut, long_byte};
ghost use Rattle.adf_block.specs.Whole.{IsImage};
ghost use Rattle.ados_model.specs.Tree.{Tree};
ghost use Rattle.ados_model.specs.Stands.{Stands};
ghost use Rattle.ados_model.specs.Keys.{HasEntryKey, HasKey, HasTree};
ghost use Rattle.ados_model.specs.Faults.{root_of};
ghost use Rattle.ados_model.specs.Change.{stamped};
ghost use Rattle.ados_change.specs.Places.{Summed};
ghost use Rattle.ados_change.specs.FieldTold.{commented, dated, named, protected};

use crate::settled::{settle_date, settle_text};
use adf_block::Image;
use adf_block::beside::CHECKSUM;
use adf_block::layout::{COMMENT_BYTE, DATE, DISK_DATE, NAME_BYTE, PROTECTION};
use ados_name::{Comment, Date3, Name, Protect};

/// Sets the protection bits of a directory or file.
pub fn put_protection(image: &mut Image, key: u32, bits: Protect)
    requires tree { HasTree image.old }
    requires key { HasEntryKey image.old key }
    ensures stands { (t : Tree) → Stands image.old t → Stands image.new (protected key bits.0 t) }
    ensures rest { SameBut (Summed key (long_byte PROTECTION) (long_byte (PROTECTION + 1))) image.old image.new }
{
    image.set_summed(key, PROTECTION, bits.bits(), CHECKSUM);
}

/// Sets the comment of a directory or file. Bytes of a longer old comment after the new one are unchanged (this
/// project's own choice).
pub fn put_comment(image: &mut Image, key: u32, comment: &Comment)
    requires tree { HasTree image.old }
    requires key { HasEntryKey image.old key }
    ensures stands { (t : Tree) → Stands image.old t → Stands image.new (commented key comment.now t) }
    ensures rest { SameBut (Summed key COMMENT_BYTE (COMMENT_BYTE + 1 + length comment.now)) image.old image.new }
{
    settle_text(image, key, COMMENT_BYTE as usize, comment.bytes());
}

/// Sets the date of a directory, a file or the root.
pub fn touch(image: &mut Image, key: u32, date: Date3)
    requires tree { HasTree image.old }
    requires key { HasKey image.old key }
    ensures stands { (t : Tree) → Stands image.old t → Stands image.new (dated key date t) }
    ensures rest { SameBut (Summed key (long_byte DATE) (long_byte (DATE + 3))) image.old image.new }
{
    settle_date(image, key, DATE, date);
}

/// Sets the volume's name. Bytes of a longer old name after the new one are unchanged (this project's own choice).
pub fn put_disk_name(image: &mut Image, name: &Name)
    requires { HasTree image.old }
    ensures stands { (t : Tree) → Stands image.old t → Stands image.new (named name.now t) }
    ensures rest { SameBut (Summed (root_of image.old) NAME_BYTE (NAME_BYTE + 1 + length name.now)) image.old image.new }
{
    prove!(image.blocks() >= 16);
    let root = image.root();
    settle_text(image, root, NAME_BYTE as usize, name.bytes());
}

/// Sets the disk date.
pub fn stamp_disk(image: &mut Image, moment: Date3)
    requires { HasTree image.old }
    ensures stands { (t : Tree) → Stands image.old t → Stands image.new (stamped moment t) }
    ensures rest { SameBut (Summed (root_of image.old) (long_byte DISK_DATE) (long_byte (DISK_DATE + 3))) image.old image.new }
    ensures image { IsImage image.new }
{
    prove!(image.blocks() >= 16);
    let root = image.root();
    settle_date(image, root, DISK_DATE, moment);
}
