//! Laws about the definitions. Each is the contract of a function that does nothing.
ghost use Rattle.ados_model.specs.Laws.{OneTree, FaultsHaveNoTree, BlankStands, HasBlankImage, FreeBitsCount};

/// An image represents at most one tree.
pub fn one_tree()
    ensures { OneTree }
{}

/// An image with a fault represents no tree.
pub fn faults_have_no_tree()
    ensures { FaultsHaveNoTree }
{}

/// A blank image represents the tree of an empty root.
pub fn blank_stands()
    ensures { BlankStands }
{}

/// A blank image exists.
pub fn has_blank_image()
    ensures { HasBlankImage }
{}

/// The number of blocks marked free in an image is the number of blocks that its tree does not use.
pub fn free_bits_count()
    ensures { FreeBitsCount }
{}
