//! The data blocks and extension blocks of files. Each call is an operation on a file's bytes.
#![tactic(auto)]

mod attach;
mod blocks;
mod cost;
mod edit;
mod fields;
mod grow;
mod place;
mod read;
mod resize;
mod shorten;
mod write;

pub use cost::blocks_of;
pub use fields::format_of;
pub use place::{Place, place_at};
pub use read::{read_at, read_near};
pub use shorten::cut;
pub use write::{extend, extend_near, write_at, write_near};
