//! Laws about the definitions. Each is the contract of a function that does nothing.
ghost use Rattle.ados_salvage.specs.LostBlocks.{LostBlocksByOwner};

/// The lost blocks of an image that stands for a tree are those that no part of the tree owns.
pub fn lost_blocks_by_owner()
    ensures { LostBlocksByOwner }
{}
