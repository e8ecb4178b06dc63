//! The AmigaDOS handler: locks and handles, refusals, and the meaning of each packet.
#![tactic(auto)]

mod attributes;
mod bytes;
mod changing;
mod describing;
mod entries;
mod files;
mod free_block;
mod handle_file;
pub mod handler;
mod held;
pub mod laws;
mod locks;
mod moves;
mod objects;
mod outputs;
mod positions;
mod serve;
mod set_size;
mod table;
mod target;
mod within;

pub use ados_model::{Action, Answer, Body, HandleHold, LockHold, Packet};
pub use handler::Handler;
