//! Every fault that an image shows, where the check of a volume stops at the first; and a fault as text: where the
//! block is, what was found there and what is expected.
//!
//! The walk visits blocks in roles, from the root, and goes on after a fault. It takes so few roles of each block that
//! its time is linear in the size of the image, and these show whatever the block shows in any role.
//!
//! Then the entries of each directory are compared by their names, and the blocks of each file are checked at their
//! places. Directories and files of a damaged image may share most of their blocks. So a directory whose chains all start
//! among the entries of the one before it is passed over, and a file is followed up to a chain of extension blocks that is
//! known from other files. Memory is linear: tables of a few bytes a block.
#![tactic(auto)]

// The list of faults.
mod bits;
mod blocks;
mod data_summary;
mod entries;
mod files;
mod header_list;
mod header_table;
mod kinds;
mod listing;
mod longs;
mod looks;
mod names;
mod notes;
mod pieces;
mod roles;
mod search;
mod tail;
mod typed;
mod walk;

// What shows them, and their texts.
mod data_places;
mod explained;
mod marked;
mod path;
mod places;
mod same_name;
mod texts;
mod values;

pub use ados_check::{Evidence, Mark};
pub use explained::explain;
pub use listing::{AllFaults, DiskFaults, all_faults, faults_of_any_disk};
pub use path::place_of;
pub use places::second_places;
pub use values::values_of;
