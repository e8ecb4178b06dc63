//! A new entry.

ghost use Rattle.std.specs.Prelude.{◌≡◌, IfErr, IfOk};
ghost use Rattle.ados_name.specs.Name.{slot};
ghost use Rattle.ados_chain.specs.Links.{IsNear};
ghost use Rattle.ados_map.specs.Pages.{IsLowestFree, NoneFree, NoneFreeBelow};
ghost use Rattle.ados_model.specs.Change.{made};
ghost use Rattle.ados_change.specs.NewBlocks.{KeepsRest};
ghost use Rattle.ados_model.specs.Stands.{Stands, in_slot};
ghost use Rattle.ados_model.specs.Tree.{Tree};
ghost use Rattle.ados_change.specs.Conditions.{CanMake};
ghost use Rattle.ados_change.specs.Kinds.{content_of};

use crate::block::{make_entry, stamp, touch};
use crate::node_kind::NodeKind;
use adf_block::Image;
use ados_chain::insert_last_near;
use ados_map::take_first_from;
use ados_model::Full;
use ados_name::{Date3, Name};

/// Where the searches for the place of a new entry start.
#[derive(Clone, Copy)]
pub struct Starts {
    /// The directory, or one of its entries in the hash slot of the new name.
    pub near: u32,
    /// No block below this one is free.
    pub free_from: u32,
}

/// Makes an entry without contents, at the end of its name's hash chain, and returns its key. The key is the lowest
/// free block.
pub fn create(
    image: &mut Image,
    dir: u32,
    name: &Name,
    kind: NodeKind,
    moment: Date3,
    starts: Starts,
) -> Result<u32, Full>
    requires tree { (t : Tree) × Stands image.old t }
    requires can { (t : Tree) → Stands image.old t → CanMake t dir name.now }
    requires near { (t : Tree) → Stands image.old t → IsNear dir (in_slot t dir (slot name.now)) starts.near }
    requires below { NoneFreeBelow image.old starts.free_from }
    ensures key { IfOk result (λ key. IsLowestFree image.old key) }
    ensures stands { IfOk result (λ key. (t : Tree) → Stands image.old t → Stands image.new (made moment dir key name.now (content_of kind) t)) }
    ensures keeps { KeepsRest image.old image.new }
    ensures below { IfOk result (λ key. NoneFreeBelow image.new key) }
    ensures full { IfErr result (λ full. NoneFree image.old × (image.new ≡ image.old)) }
{
    let Some(key) = take_first_from(image, starts.free_from) else {
        return Err(Full);
    };
    make_entry(image, key, dir, name, kind, moment);
    insert_last_near(image, dir, key, starts.near);
    touch(image, dir, moment);
    stamp(image, moment);
    Ok(key)
}
