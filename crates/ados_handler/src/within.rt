//! Handles that may not be past the end of their file.

ghost use Rattle.std.specs.Prelude.{◌≡◌, map};
ghost use Rattle.std.specs.FinMap as numbered;
ghost use Rattle.ados_model.specs.Phrases.{within};
ghost use Rattle.ados_handler.specs.steps.Positions.{IsMovedAt, MovesEach};

use crate::table::Table;
use ados_model::HandleHold;
use slab::Slab;

impl Table<HandleHold> {
    /// Moves each handle of the file with a larger position to this size.
    pub(crate) fn keep_within(&mut self, key: u32, size: u32)
        ensures held { self.new.held ≡ numbered.from_entries (map (λ e. (e.0, within key size e.1)) (numbered.entries self.old.held)) }
        ensures ready { self.new.ready ≡ self.old.ready }
    {
        keep_all_within(&mut self.slab, key, size);
    }
}

/// Moves each handle of the file with a larger position to this size. All keys and all room stay.
fn keep_all_within(holds: &mut Slab<HandleHold>, key: u32, size: u32)
    ensures { MovesEach (within key size) holds.old holds.new }
{
    for place in 0..holds.capacity() {
        keep_one_within(holds, place, key, size);
    }
}

/// Moves the handle under a key of the slab, if it is one of the file with a larger position, to this size.
fn keep_one_within(holds: &mut Slab<HandleHold>, place: usize, key: u32, size: u32)
    ensures { IsMovedAt (within key size) place holds.old holds.new }
{
    if let Some(hold) = holds.get_mut(place) {
        if hold.key == key && hold.position > size {
            hold.position = size;
        }
    }
}
