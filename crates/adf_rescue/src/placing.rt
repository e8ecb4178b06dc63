//! The paths of deleted entries and of the directories above them, and which of them are asked for.
ghost use Rattle.std.specs.Prelude.{◌≡◌, ℕ, List, None, IfOk, length, map, option_map, slice_get};
ghost use Rattle.std.specs.Option.{option_map_or};
ghost use Rattle.adf_rescue.specs.Undelete.{asked_in, path_in, place_after, places_of, seen_place};
ghost use Rattle.adf_rescue.specs.steps.Asking.{AreAsked};

use crate::asked::Asked;
use ados_salvage::Salvaged;
use std::alloc::{AllocError, Global};

/// The most bytes of a path, a slash before each name. So all paths together take no more than so many for each entry, however
/// deep the directories of a disk are.
pub const MOST_PATH_BYTES: usize = 256;

/// An entry below the root.
#[derive(Drop)]
pub struct Placed {
    /// Its path, a slash before each name; `None` if it is too long.
    pub path: Option<Vec<u8>>,
    /// Whether an argument chooses it.
    pub asked: bool,
}

impl Placed {
    /// Its path.
    pub(crate) fn path(&self) -> Option<&[u8]>
        ensures { option_map (λ path. path.now) result ≡ (seen_place self.now).path }
    {
        match &self.path {
            Some(path) => Some(path.as_slice()),
            None => None,
        }
    }
}

/// What is known of the entry at a position.
pub(crate) fn place_at(places: &[Placed], position: usize) -> Option<&Placed>
    ensures { option_map (λ place. seen_place place.now) result ≡ slice_get (map seen_place places.now) position }
{
    places.get(position)
}

/// What is known of entries. A directory comes before its entries, so one walk is enough.
pub(crate) fn placed_entries(
    alloc: Global,
    asked: &Asked,
    entries: &[Salvaged],
) -> Result<Vec<Placed>, AllocError>
    ensures count { IfOk result (λ places. length places.items ≡ length entries.now) }
    ensures places { IfOk result (λ places. (keys : List (List ℕ)) → AreAsked keys asked.now → map seen_place places.items ≡ places_of keys entries.now) }
{
    let mut places = Vec::new(alloc);
    for entry in entries {
        let placed = place_after(alloc, asked, &places, entry)?;
        places.push(placed)?;
    }
    Ok(places)
}

/// What is known of an entry after those before it.
fn place_after(
    alloc: Global,
    asked: &Asked,
    before: &[Placed],
    entry: &Salvaged,
) -> Result<Placed, AllocError>
    ensures { IfOk result (λ placed. (keys : List (List ℕ)) → AreAsked keys asked.now → seen_place placed ≡ place_after keys (map seen_place before.now) entry.now) }
{
    let name = entry.own_name(alloc)?;
    let root = Placed {
        path: Some(Vec::new(alloc)),
        asked: asked.root,
    };
    let dir = match entry.above {
        None => Some(&root),
        Some(dir) => place_at(before, dir),
    };
    let path = path_in(alloc, dir, &name)?;
    let asked = is_asked(alloc, asked, dir, &path)?;
    Ok(Placed { path, asked })
}

/// The path of an entry with this name in a directory.
fn path_in(alloc: Global, dir: Option<&Placed>, name: &[u8]) -> Result<Option<Vec<u8>>, AllocError>
    ensures { IfOk result (λ path. option_map (λ path. path.items) path ≡ path_in (option_map (λ dir. seen_place dir.now) dir.entry) name.now) }
{
    let Some(front) = front_of(dir) else {
        return Ok(None);
    };
    let mut path = Vec::from_slice(alloc, front)?;
    path.push(b'/')?;
    path.extend_from_slice(name)?;
    if path.len() > MOST_PATH_BYTES {
        return Ok(None);
    }
    Ok(Some(path))
}

/// The path of a directory.
fn front_of(dir: Option<&Placed>) -> Option<&[u8]>
    ensures { option_map (λ path. path.now) result ≡ option_map_or (λ dir. dir.path) (option_map (λ dir. seen_place dir.now) dir.entry) None }
{
    dir?.path()
}

/// Whether an entry with this path in a directory is asked for.
fn is_asked(
    alloc: Global,
    asked: &Asked,
    dir: Option<&Placed>,
    path: &Option<Vec<u8>>,
) -> Result<bool, AllocError>
    ensures { IfOk result (λ is. (keys : List (List ℕ)) → AreAsked keys asked.now
        → is ≡ asked_in keys (option_map (λ dir. seen_place dir.now) dir.entry) (option_map (λ path. path.items) path.now)) }
{
    if let Some(dir) = dir {
        if dir.asked {
            return Ok(true);
        }
    }
    match path {
        Some(path) => asked.names(alloc, path),
        None => Ok(false),
    }
}
