//! The positions of file handles.

ghost use Rattle.std.specs.Prelude.{◌≡◌};
ghost use Rattle.ados_handler.specs.steps.Positions.{positioned};

use crate::table::Table;
use ados_model::HandleHold;

impl Table<HandleHold> {
    /// Sets the position of a handle, in bytes. If no handle has the number, nothing changes.
    pub fn set_position(&mut self, number: u32, position: u32)
        ensures held { self.new.held ≡ positioned self.old.held number position }
        ensures ready { self.new.ready ≡ self.old.ready }
    {
        let slab = &mut self.slab;
        if number == 0 {
            return;
        }
        if let Some(hold) = slab.get_mut(number as usize - 1) {
            hold.position = position;
        }
    }
}
