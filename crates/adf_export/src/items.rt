//! The host files and directories for some objects.
ghost use Rattle.std.specs.Prelude.{◌≡◌, ◌++◌, ◌<◌, List, None, All, flat_map, length, map, IfErr, IfOk, IfSome, OnOk};
ghost use Rattle.ados_model.specs.Keys.{HasKey};
ghost use Rattle.ados_model.specs.Stands.{Stands};
ghost use Rattle.ados_model.specs.Tree.{Tree};
ghost use Rattle.ados_volume.specs.Below.{AreBelow};
ghost use Rattle.ados_volume.specs.declared.below.Below.{Below as Found};
ghost use Rattle.adf_export.specs.Items.{AllGoOut, AreOutgoing, EachGoesOut, HasSource, sources_of, tops};
ghost use Rattle.adf_export.specs.Words.{IsFaultOfSome};

use crate::entry::Outgoing;
use crate::fault::OutFault;
use crate::words::asked_objects;
use ados_volume::{Below, Volume, push_below};
use std::alloc::{AllocError, Global};

/// The host files and directories for these path arguments: each entry with everything below it; for the root, or
/// without arguments, all entries of the root. With `meta`, each entry is followed by its note.
pub fn outgoing(
    alloc: Global,
    volume: &mut Volume,
    words: &[&str],
    meta: bool,
) -> Result<Outgoing, OutFault>
    ensures ok { IfOk result (λ out. (t : Tree) → Stands volume.old.image t → AreOutgoing t meta (map (λ word. word.now) words.now) out) }
    ensures sources { IfOk result (λ out. All (HasSource volume.old.image) out.sources.items) }
    ensures fault { IfErr result (λ fault. (t : Tree) → Stands volume.old.image t → IsFaultOfSome t (map (λ word. word.now) words.now) fault) }
    ensures same { volume.new ≡ volume.old }
{
    let keys = match asked_objects(alloc, volume, words) {
        Ok(keys) => keys,
        Err(fault) => return Err(fault),
    };
    match all_outgoing(alloc, volume, &keys, meta) {
        Ok(out) => Ok(out),
        Err(_) => Err(OutFault::Memory),
    }
}

/// The host files and directories for these objects: each entry with everything below it, and for the root all its
/// entries. With `meta`, each entry is followed by its note.
fn all_outgoing(
    alloc: Global,
    volume: &Volume,
    keys: &[u32],
    meta: bool,
) -> Result<Outgoing, AllocError>
    requires { All (HasKey volume.now.image) keys.now }
    ensures items { IfOk result (λ out. (t : Tree) → Stands volume.now.image t → AllGoOut t meta keys.now out) }
    ensures sources { IfOk result (λ out. All (HasSource volume.now.image) out.sources.items) }
{
    prove!(volume.image().blocks() >= 16);
    let found = entries_of(alloc, volume, keys)?;
    items_of(alloc, volume, &found, meta)
}

/// The entries for these objects: each with everything below it, of the root only what is below it.
fn entries_of(alloc: Global, volume: &Volume, keys: &[u32]) -> Result<Vec<Below>, AllocError>
    requires { All (HasKey volume.now.image) keys.now }
    ensures { IfOk result (λ found. (t : Tree) → Stands volume.now.image t → AreBelow t None 0 (flat_map (tops t) keys.now) found.items) }
{
    let mut found = Vec::new(alloc);
    for key in keys {
        push_object(alloc, volume, *key, &mut found)?;
    }
    Ok(found)
}

/// Appends the entries for an object.
fn push_object(
    alloc: Global,
    volume: &Volume,
    key: u32,
    found: &mut Vec<Below>,
) -> Result<(), AllocError>
    requires { HasKey volume.now.image key }
    ensures { OnOk result ((t : Tree) → Stands volume.now.image t
        → (more : List Found) × (found.new.items ≡ found.old.items ++ more) × AreBelow t None (length found.old.items) (tops t key) more) }
{
    if key == volume.root() {
        push_below(alloc, volume, None, key, found)?;
        return Ok(());
    }
    let place = found.len();
    found.push(Below { key, above: None })?;
    push_below(alloc, volume, Some(place), key, found)?;
    Ok(())
}

/// The host files and directories for these entries, in their order.
fn items_of(
    alloc: Global,
    volume: &Volume,
    found: &[Below],
    meta: bool,
) -> Result<Outgoing, AllocError>
    requires keys { All (λ e. HasKey volume.now.image e.key) found.now }
    requires places { All (λ e. IfSome e.above (λ at. at < length found.now)) found.now }
    ensures items { IfOk result (λ out. (t : Tree) → Stands volume.now.image t → EachGoesOut t meta found.now out.items.items) }
    ensures sources { IfOk result (λ out. out.sources.items ≡ flat_map (sources_of meta) found.now) }
{
    let mut out = Outgoing {
        items: Vec::new(alloc),
        sources: Vec::new(alloc),
    };
    for entry in found {
        out.push_entry(alloc, volume, entry, meta)?;
    }
    Ok(out)
}
