//! Laws about the definitions. Each is the contract of a function that does nothing.
ghost use Rattle.ados_handler.specs.Keeps.{MeaningKeepsProper, UnderIsTold};
ghost use Rattle.ados_handler.specs.Closing.{ClosingIsDead, DeadStays};
ghost use Rattle.ados_handler.specs.FreedPlace.{FreedPlaceServes};

/// The meaning of a packet keeps tree and session proper.
pub fn meaning_keeps_proper()
    ensures { MeaningKeepsProper }
{}

/// A dead handler stays dead.
pub fn dead_stays()
    ensures { DeadStays }
{}

/// Only a dead handler gives a reply that closes.
pub fn closing_is_dead()
    ensures { ClosingIsDead }
{}

/// A lock after a freed lock, and a handle after an ended one, is not refused for lack of memory.
pub fn freed_place_serves()
    ensures { FreedPlaceServes }
{}

/// `is_under` searches far enough up the tree.
pub fn under_is_told()
    ensures { UnderIsTold }
{}
