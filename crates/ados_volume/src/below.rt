//! Everything below a directory.

ghost use Rattle.std.specs.Prelude.{◌≡◌, ◌≢◌, ◌++◌, None, IfOk, OnOk, AllPairs, map};
ghost use Rattle.ados_model.specs.Tree.{Tree, entries};
ghost use Rattle.ados_model.specs.Stands.{Stands};
ghost use Rattle.ados_model.specs.Keys.{HasKey};
ghost use Rattle.ados_volume.specs.Below.{AreBelow, HasGrown};
ghost use Rattle.ados_volume.specs.steps.Stack.{stacked};

use crate::volume::Volume;
use ados_chain::Next;
use std::alloc::{AllocError, Global};

/// An entry in a list of everything below a directory. It has no path, so that the list of a deep volume is short.
#[derive(Clone, Copy)]
pub struct Below {
    /// The entry's key.
    pub key: u32,
    /// The position of its directory in the list, which is before it. `None`: the directory is not in the list.
    pub above: Option<usize>,
}

/// All entries below a directory, each once: a directory before its entries, these in its order. A file has none.
pub fn entries_below(alloc: Global, volume: &Volume, top: u32) -> Result<Vec<Below>, AllocError>
    requires { HasKey volume.now.image top }
    ensures below { IfOk result (λ found. (t : Tree) → Stands volume.now.image t → AreBelow t None 0 (entries t top) found.items) }
    ensures once { IfOk result (λ found. AllPairs (λ j k. j ≢ k) (map (λ below. below.key) found.items)) }
{
    prove!(volume.image().blocks() >= 16);
    let mut found = Vec::new(alloc);
    push_below(alloc, volume, None, top, &mut found)?;
    Ok(found)
}

/// Appends all entries below a directory to a list, each once: a directory before its entries, these in its order. The
/// directory itself is at the position `above` of the list, if it is there. A file has none.
pub fn push_below(
    alloc: Global,
    volume: &Volume,
    above: Option<usize>,
    top: u32,
    found: &mut Vec<Below>,
) -> Result<(), AllocError>
    requires { HasKey volume.now.image top }
    ensures { OnOk result ((t : Tree) → Stands volume.now.image t → HasGrown t above top found.old.items found.new.items) }
{
    prove!(volume.image().blocks() >= 16);
    let mut waiting = Vec::new(alloc);
    push_entries(alloc, volume, above, top, &mut waiting)?;
    while let Some(entry) = waiting.pop() {
        push_entries(alloc, volume, Some(found.len()), entry.key, &mut waiting)?;
        found.push(entry)?;
    }
    Ok(())
}

/// Pushes the entries of a directory at a position on the stack, the first on top.
fn push_entries(
    alloc: Global,
    volume: &Volume,
    above: Option<usize>,
    dir: u32,
    waiting: &mut Vec<Below>,
) -> Result<(), AllocError>
    requires { HasKey volume.now.image dir }
    ensures { OnOk result ((t : Tree) → Stands volume.now.image t → waiting.new.items ≡ waiting.old.items ++ stacked t above dir) }
{
    let mut keys = keys_in(alloc, volume, dir)?;
    while let Some(key) = keys.pop() {
        waiting.push(Below { key, above })?;
    }
    Ok(())
}

/// The keys of a directory's entries, in its order. A file has none.
fn keys_in(alloc: Global, volume: &Volume, dir: u32) -> Result<Vec<u32>, AllocError>
    requires { HasKey volume.now.image dir }
    ensures { IfOk result (λ keys. (t : Tree) → Stands volume.now.image t → keys.items ≡ entries t dir) }
{
    prove!(volume.image().blocks() >= 16);
    let mut keys = Vec::new(alloc);
    if volume.is_file(dir) {
        return Ok(keys);
    }
    let mut last = dir;
    while let Next::Entry(key) = volume.next_from(dir, last) {
        keys.push(key)?;
        last = key;
    }
    Ok(keys)
}
