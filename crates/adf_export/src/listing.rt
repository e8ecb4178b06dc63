//! The list of a file, or of everything below a directory.
ghost use Rattle.std.specs.Prelude.{◌≡◌, ◌+◌, ◌<◌, ◌∷◌, ℕ, [], All, List, IfNone, IfOk, IfSome, OnErr, OnOk, OnSome, drop, length, slice_index};
ghost use Rattle.ados_model.specs.Keys.{HasKey};
ghost use Rattle.ados_model.specs.Stands.{Stands};
ghost use Rattle.ados_model.specs.Tree.{Tree};
ghost use Rattle.adf_io.specs.Prefix.{Writes, WritesFrontOf};
ghost use Rattle.ados_volume.specs.Located.{Located};
ghost use Rattle.adf_export.specs.Listing.{BeginsList, IsList};
ghost use Rattle.adf_export.specs.steps.Levels.{HaveKeys, IsSoFar, first_keys, first_path, to_list};
ghost use Rattle.adf_export.specs.steps.Going.{GoesOn, Starts};

use crate::head::head_text;
use crate::keys::{describe, is_directory};
use crate::lines::push_entry;
use crate::order::ordered_keys;
use crate::paths::{front_above, front_of};
use adf_cli::{ListForm, ListOrder};
use adf_io::{PrintFault, write_text, write_when_long};
use ados_volume::Volume;
use std::alloc::{AllocError, Global};
use std::io::Write;

/// A directory being listed: the keys of its entries, the number of those that were listed, and the length of its path.
#[derive(Drop)]
pub struct Level {
    keys: Vec<u32>,
    next: usize,
    path: usize,
}

/// The directories from the first down to the current one, the path of the entry listed last, and the text not written
/// yet.
#[derive(Drop)]
pub struct Listing {
    levels: Vec<Level>,
    path: Vec<u8>,
    text: Vec<u8>,
}

/// The key of the next entry of a directory.
fn next_key(level: &Level) -> Option<u32>
    ensures next { IfSome result (λ key. to_list level.now ≡ key ∷ drop (level.now.next + 1) level.now.keys.items) }
    ensures inside { OnSome result (level.now.next < length level.now.keys.items) }
    ensures here { IfSome result (λ key. slice_index level.now.keys.items level.now.next ≡ key) }
    ensures none { IfNone result (to_list level.now ≡ []) }
{
    if level.next >= level.keys.len() {
        return None;
    }
    Some(level.keys[level.next])
}

/// Writes the list of a file or directory: the file itself, or each entry below the directory. The entries of each
/// directory are in the order. A path starts at the root, and a directory comes directly before its contents. A line for
/// the volume comes first, except before JSON objects.
///
/// If the writer fails or memory runs out, it has written a prefix of that text.
pub fn write_list<W: Write>(
    alloc: Global,
    volume: &Volume,
    key: u32,
    form: ListForm,
    order: ListOrder,
    writer: &mut W,
) -> Result<(), PrintFault>
    requires { HasKey volume.now.image key }
    ensures ok { OnOk result ((t : Tree) → Stands volume.now.image t → Writes (W.contents writer.old) (W.contents writer.new) (IsList t order key form)) }
    ensures front { OnErr result ((t : Tree) → Stands volume.now.image t
        → WritesFrontOf (W.contents writer.old) (W.contents writer.new) (BeginsList t order key form)) }
{
    let mut listing = Listing::start(alloc, volume, key, form, order)?;
    for _ in 0..2 * volume.image().blocks() as u64 {
        if !listing.go_on(alloc, volume, form, order)? {
            break;
        }
        write_when_long(&mut listing.text, writer)?;
    }
    write_text(listing.text.as_slice(), writer)
}

/// The path before the names of the first entries in a list.
fn first_path(alloc: Global, volume: &Volume, key: u32) -> Result<Vec<u8>, AllocError>
    requires { HasKey volume.now.image key }
    ensures { IfOk result (λ path. (t : Tree) → Stands volume.now.image t → path.items ≡ first_path t key) }
{
    if volume.is_file(key) {
        return front_above(alloc, volume, key);
    }
    front_of(alloc, volume, key)
}

/// The keys of the first entries in a list: a file itself, or the entries of a directory.
fn first_keys(
    alloc: Global,
    volume: &Volume,
    key: u32,
    order: ListOrder,
) -> Result<Vec<u32>, AllocError>
    requires { HasKey volume.now.image key }
    ensures keys { IfOk result (λ keys. All (HasKey volume.now.image) keys.items) }
    ensures first { IfOk result (λ keys. (t : Tree) → Stands volume.now.image t → keys.items ≡ first_keys t order key) }
{
    if volume.is_file(key) {
        return vec![in alloc; key; 1];
    }
    ordered_keys(alloc, volume, key, order)
}

impl Listing {
    /// The text before the first entry in the list of a file or directory.
    fn start(
        alloc: Global,
        volume: &Volume,
        key: u32,
        form: ListForm,
        order: ListOrder,
    ) -> Result<Listing, AllocError>
        requires { HasKey volume.now.image key }
        ensures keys { IfOk result (λ made. HaveKeys volume.now.image made.levels.items) }
        ensures starts { IfOk result (λ made. (t : Tree) → Stands volume.now.image t → Starts t order key form made) }
    {
        let text = head_text(alloc, volume, form)?;
        let path = first_path(alloc, volume, key)?;
        let keys = first_keys(alloc, volume, key, order)?;
        let mut levels = Vec::new(alloc);
        levels.push(Level {
            keys,
            next: 0,
            path: path.len(),
        })?;
        Ok(Listing { levels, path, text })
    }

    /// Moves on to the next entry of the current directory, or back to the directory above it. The result is false if
    /// no directory is left.
    fn go_on(
        &mut self,
        alloc: Global,
        volume: &Volume,
        form: ListForm,
        order: ListOrder,
    ) -> Result<bool, AllocError>
        requires { HaveKeys volume.now.image self.old.levels.items }
        ensures keys { OnOk result (HaveKeys volume.now.image self.new.levels.items) }
        ensures goes { IfOk result (λ goes. (t : Tree) (dir : ℕ) → Stands volume.now.image t → (first left : List Located)
            → IsSoFar t order dir self.old.levels.items self.old.path.items first left → GoesOn t order dir form self.old self.new first left goes) }
    {
        let Some(level) = self.levels.pop() else {
            return Ok(false);
        };
        let Some(key) = next_key(&level) else {
            return Ok(true);
        };
        let (next, path) = (level.next + 1, level.path);
        self.levels.push(Level { next, ..level })?;
        let info = describe(volume, key);
        self.path.truncate(path);
        self.path.extend_from_slice(info.name.bytes())?;
        push_entry(alloc, &mut self.text, &info, self.path.as_slice(), form)?;
        if is_directory(&info) {
            self.path.push(b'/')?;
            let keys = ordered_keys(alloc, volume, key, order)?;
            self.levels.push(Level {
                keys,
                next: 0,
                path: self.path.len(),
            })?;
        }
        Ok(true)
    }
}
