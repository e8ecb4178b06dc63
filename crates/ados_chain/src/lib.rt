//! The hash chains of a directory, which is a root or a directory block (AmigaDOS Technical Reference). A hash table
//! of 72 longs has the first entry of each slot's hash chain, and a long of each entry has the next one. The hash of
//! an entry's name selects its chain.
//!
//! A key is a block number. The calls require a directory with lawful chains, and allocate nothing.
#![tactic(auto)]

mod change;
mod entry;
mod link;
mod read;

pub use change::{insert_last, insert_last_near, unlink};
pub use read::{Next, after, after_entry, find, is_empty};
