//! The census of a floppy image: every long that would name a block if its own block were reached, by the blocks that they
//! name; the blocks that are reached, and the places that name a block. It goes over any image, damaged or not, and depends on
//! no verdict on it.
#![tactic(auto)]

// The namings of a block, and what it is by itself.
mod census;
mod class;
mod counting;
mod filler;
mod laws;
mod naming;

// What is reached, and the places of reached blocks.
mod place;
mod places;
mod reached;

pub use census::{Census, take_census};
pub use class::{
    BLOCK_KINDS, BlockClass, BlockKind, WrongLong, class_as, class_of, is_sound_as, looks_like,
};
pub use filler::{Filler, holds_filler, is_filler};
pub use laws::places_are_namings;
pub use place::{Place, PlaceKind};
pub use places::places_of;
pub use reached::{Reached, reached_blocks};
