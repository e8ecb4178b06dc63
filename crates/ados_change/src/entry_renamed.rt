//! An entry that moves.

ghost use Rattle.std.specs.Prelude.{ℕ};
ghost use Rattle.adf_block.specs.Whole.{HasFreeBit};
ghost use Rattle.ados_model.specs.Change.{renamed};
ghost use Rattle.ados_model.specs.Faults.{InImage};
ghost use Rattle.ados_change.specs.NewBlocks.{KeepsRest, TakesNone};
ghost use Rattle.ados_model.specs.Stands.{Stands};
ghost use Rattle.ados_model.specs.Tree.{Tree};
ghost use Rattle.ados_change.specs.AfterName.{KeepsAfterName};
ghost use Rattle.ados_change.specs.Conditions.{CanRename};

use crate::block::{put_title, stamp, touch};
use adf_block::Image;
use adf_block::layout::PARENT;
use ados_chain::{insert_last, unlink};
use ados_name::{Date3, Name};

/// Moves an entry into a directory, possibly its own, under a name. It becomes the last entry in the hash chain of
/// that name.
///
/// Bytes of a longer old name after the new one are unchanged. No block is freed.
pub fn rename(image: &mut Image, key: u32, dir: u32, name: &Name, moment: Date3)
    requires tree { (t : Tree) × Stands image.old t }
    requires can { (t : Tree) → Stands image.old t → CanRename t key dir name.now }
    ensures stands { (t : Tree) → Stands image.old t → Stands image.new (renamed moment key dir name.now t) }
    ensures keeps { KeepsRest image.old image.new }
    ensures none { TakesNone image.old image.new }
    ensures gives_none { (block : ℕ) → InImage image.old block → HasFreeBit image.new block → HasFreeBit image.old block }
    ensures behind { KeepsAfterName key name.now image.old image.new }
{
    let from = image.long(key, PARENT);
    unlink(image, from, key);
    touch(image, from, moment);
    put_title(image, key, dir, name);
    insert_last(image, dir, key);
    touch(image, dir, moment);
    stamp(image, moment);
}
