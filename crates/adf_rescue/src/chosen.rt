//! The deleted entries that arguments choose.
ghost use Rattle.std.specs.Prelude.{◌≡◌, ◌++◌, ◌<◌, All, IfOk, OnOk, length, map};
ghost use Rattle.adf_rescue.specs.Undelete.{chosen_at, chosen_of, is_file_saved, position_of, seen_place};

use crate::placing::{Placed, place_at};
use ados_salvage::{Deleted, Recovery};
use std::alloc::{AllocError, Global};

/// A deleted entry that an argument chooses.
#[derive(Clone, Copy)]
pub struct Chosen {
    pub deleted: Deleted,
    /// Its position among the entries.
    pub position: usize,
}

impl Chosen {
    /// Whether the file is written: all its blocks are free, or it is forced. A directory is no file.
    pub(crate) fn is_file_saved(&self, force: bool) -> bool
        ensures { result ≡ is_file_saved force self.now.deleted.recovery }
    {
        match self.deleted.recovery {
            Recovery::Directory => false,
            Recovery::Free { .. } => true,
            Recovery::Used { .. } | Recovery::Shared { .. } | Recovery::NotIntact => force,
        }
    }
}

/// The deleted entries that are chosen, in their order. `positions` has for each block the position of its entry.
pub(crate) fn chosen_entries(
    alloc: Global,
    positions: &[Option<usize>],
    places: &[Placed],
    deleted: &[Deleted],
) -> Result<Vec<Chosen>, AllocError>
    ensures chosen { IfOk result (λ chosen. chosen.items ≡ chosen_of positions.now (map seen_place places.now) deleted.now) }
    ensures inside { IfOk result (λ chosen. All (λ one. one.position < length places.now) chosen.items) }
{
    let mut chosen = Vec::new(alloc);
    for entry in deleted {
        push_chosen(
            &mut chosen,
            *entry,
            position_of(positions, entry.header),
            places,
        )?;
    }
    Ok(chosen)
}

/// The position of the entry with this header.
pub(crate) fn position_of(positions: &[Option<usize>], header: u32) -> Option<usize>
    ensures { result ≡ position_of positions.now header }
{
    *positions.get(header as usize)?
}

/// Appends the deleted entry at this position, if it is chosen.
fn push_chosen(
    chosen: &mut Vec<Chosen>,
    deleted: Deleted,
    position: Option<usize>,
    places: &[Placed],
) -> Result<(), AllocError>
    requires inside { All (λ one. one.position < length places.now) chosen.old.items }
    ensures inside { OnOk result (All (λ one. one.position < length places.now) chosen.new.items) }
    ensures chosen { OnOk result (chosen.new.items ≡ chosen.old.items ++ chosen_at (map seen_place places.now) deleted position) }
{
    let Some(position) = position else {
        return Ok(());
    };
    match place_at(places, position) {
        Some(place) if place.asked => {
            chosen.push(Chosen { deleted, position })?;
            Ok(())
        }
        _ => Ok(()),
    }
}
