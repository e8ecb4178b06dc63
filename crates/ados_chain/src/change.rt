//! Insertion of an entry into a directory, and its removal.

ghost use Rattle.std.specs.Prelude.{ℕ, List};
ghost use Rattle.adf_block.specs.Whole.{IsImage};
ghost use Rattle.ados_chain.specs.Chains.{LawfulChains, slot_at};
ghost use Rattle.ados_chain.specs.Links.{IsNear};
ghost use Rattle.ados_chain.specs.Relinks.{CanInsert, CanUnlink, InsertsLast, Unlinks};

use crate::entry::slot_of;
use crate::link::{end_of, link_to, relink};
use adf_block::Image;
use adf_block::layout::NEXT_IN_CHAIN;

/// Inserts the block `key` at the end of its name's hash chain (the end is this project's own choice).
///
/// It writes two longs: the link that ended the chain, in the directory or in its last entry, and the next-in-chain
/// long of `key`, which becomes 0. It sets the checksums of these two blocks. No other byte changes.
pub fn insert_last(image: &mut Image, dir: u32, key: u32)
    requires { CanInsert image.old dir key }
    ensures inserts { (chains : ℕ → List ℕ) → LawfulChains image.old dir chains → InsertsLast dir key chains image.old image.new }
    ensures image { IsImage image.new }
{
    insert_last_near(image, dir, key, dir);
}

/// [`insert_last`], with the search for the end of the chain from `near` on: the directory, or an entry of the chain.
pub fn insert_last_near(image: &mut Image, dir: u32, key: u32, near: u32)
    requires can { CanInsert image.old dir key }
    requires near { (chains : ℕ → List ℕ) → LawfulChains image.old dir chains → IsNear dir (chains (slot_at image.old key)) near }
    ensures inserts { (chains : ℕ → List ℕ) → LawfulChains image.old dir chains → InsertsLast dir key chains image.old image.new }
    ensures image { IsImage image.new }
{
    let slot = slot_of(image, key);
    let end = end_of(image, dir, slot, near);
    relink(image, end, key, key);
}

/// Removes the entry `key` from its hash chain. The order of the others stays the same.
///
/// It writes two longs: the link to `key`, in the directory or in the entry before it, and the next-in-chain long of
/// `key`. That long becomes 0, so a block outside all chains names no other (this project's own choice). It sets the
/// checksums of these two blocks. No other byte changes.
pub fn unlink(image: &mut Image, dir: u32, key: u32)
    requires { CanUnlink image.old dir key }
    ensures unlinks { (chains : ℕ → List ℕ) → LawfulChains image.old dir chains → Unlinks dir key chains image.old image.new }
    ensures image { IsImage image.new }
{
    let slot = slot_of(image, key);
    let link = link_to(image, dir, slot, key);
    let next = image.long(key, NEXT_IN_CHAIN);
    relink(image, link, next, key);
}
