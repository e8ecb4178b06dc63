//! Laws about the changes of a tree. Each is the contract of a function that does nothing.
ghost use Rattle.ados_change.specs.Laws.{MadeIsProper, RemovedIsProper, RenamedIsProper, SameRestSameBytes};

/// A proper tree with one more entry, which is empty, is proper.
pub fn made_is_proper()
    ensures { MadeIsProper }
{}

/// A proper tree without one of its entries is proper.
pub fn removed_is_proper()
    ensures { RemovedIsProper }
{}

/// A proper tree with one entry moved is proper.
pub fn renamed_is_proper()
    ensures { RenamedIsProper }
{}

/// An image and the changed tree determine the new image, byte for byte, if the change keeps the rest.
pub fn same_rest_same_bytes()
    ensures { SameRestSameBytes }
{}
