//! An entry is removed.

ghost use Rattle.std.specs.Prelude.{◌≡◌};
ghost use Rattle.adf_block.specs.Frame.{SameBut};
ghost use Rattle.ados_model.specs.Change.{removed};
ghost use Rattle.ados_change.specs.NewBlocks.{KeepsBlock, KeepsRest, TakesNone};
ghost use Rattle.ados_model.specs.Stands.{Stands};
ghost use Rattle.ados_model.specs.Tree.{Tree, size_of};
ghost use Rattle.ados_change.specs.Untold.{KeepsUntold};
ghost use Rattle.ados_change.specs.Conditions.{CanRemove};
ghost use Rattle.ados_change.specs.steps.Emptied.{Empties, GivesBack, WritesOnlyEntry};
ghost use Rattle.ados_change.specs.steps.Footprint.{IsChanged};

use crate::block::{stamp, touch};
use crate::content::cut;
use adf_block::Image;
use adf_block::layout::{BLOCK_BYTES, FILE_TYPE, PARENT, SECONDARY_TYPE};
use ados_chain::unlink;
use ados_map::give_back;
use ados_name::Date3;

/// Removes an entry: a directory without entries, or a file. Its blocks are freed, and their bytes are unchanged: the
/// entry's own block keeps its name, size, counts and pointers, as AmigaDOS leaves it.
pub fn remove(image: &mut Image, key: u32, moment: Date3)
    requires tree { (t : Tree) × Stands image.old t }
    requires can { (t : Tree) → Stands image.old t → CanRemove t key }
    ensures stands { (t : Tree) → Stands image.old t → Stands image.new (removed moment key t) }
    ensures keeps { KeepsRest image.old image.new }
    ensures none { TakesNone image.old image.new }
    ensures dead { KeepsBlock key image.old image.new }
{
    let mut header = [0; BLOCK_BYTES as usize];
    header.copy_from_slice(image.block(key));
    empty(image, key, moment);
    remove_empty(image, key, moment);
    image.put_bytes(key, 0, &header);
    prove!(image.blocks() >= 16);
}

/// Frees the blocks of a file's data. A directory that can be removed has none.
fn empty(image: &mut Image, key: u32, moment: Date3)
    requires tree { (t : Tree) × Stands image.old t }
    requires can { (t : Tree) → Stands image.old t → CanRemove t key }
    ensures empties { Empties moment key image.old image.new }
    ensures keeps { KeepsRest image.old image.new }
    ensures none { TakesNone image.old image.new }
    ensures only { WritesOnlyEntry key image.old image.new }
{
    if image.long(key, SECONDARY_TYPE) != FILE_TYPE {
        return;
    }
    cut(image, key, 0, moment);
}

/// Removes an entry without contents: a directory without entries, or a file without bytes. It writes bitmap blocks
/// and fields only.
fn remove_empty(image: &mut Image, key: u32, moment: Date3)
    requires tree { (t : Tree) × Stands image.old t }
    requires can { (t : Tree) → Stands image.old t → CanRemove t key }
    requires empty { (t : Tree) → Stands image.old t → size_of t key ≡ 0 }
    ensures stands { (t : Tree) → Stands image.old t → Stands image.new (removed moment key t) }
    ensures changed { (t : Tree) (st : Stands image.old t) → SameBut (IsChanged image.old t st image.new) image.old image.new }
    ensures gives { GivesBack key image.old image.new }
    ensures untold { KeepsUntold image.old image.new }
{
    let dir = image.long(key, PARENT);
    unlink(image, dir, key);
    touch(image, dir, moment);
    give_back(image, key);
    stamp(image, moment);
}
