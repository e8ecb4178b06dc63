//! The account of an image: its blocks that are used and belong to nothing that a salvage tells. And what each block is that a
//! salvage tells of.

mod accounted;
mod blocks;
mod extensions;
mod part;
mod unaccounted;

pub(crate) use accounted::{mark, no_marks};
pub use blocks::told_blocks;
pub use part::{Part, Told};
pub use unaccounted::unaccounted_blocks;
