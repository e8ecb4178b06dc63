//! The meaning of a volume and its handler: packets and answers, the tree of directories and files, when an image
//! represents a tree and which faults it shows, and the effect of each packet on the tree. The crates above implement
//! it.
#![tactic(auto)]

// Packets and answers.
pub mod action;
pub mod answer;
pub mod buffer;
pub mod dos_error;
mod error_number;
pub mod packet;
pub mod results;
pub mod text;

// The tree, and the faults of an image.
mod fault;
mod full;
mod laws;
mod role;
mod witness;

// Locks and handles.
mod holds;

pub use action::Action;
pub use answer::{Answer, Body, DiskInfo, FileInfo};
pub use buffer::Buffer;
pub use dos_error::{DosError, PlaceFault, WalkFault};
pub use fault::{FaultKind, VolumeFault};
pub use full::Full;
pub use holds::{HandleHold, LockHold};
pub use laws::{blank_stands, faults_have_no_tree, free_bits_count, has_blank_image, one_tree};
pub use packet::{NO_LOCK, Packet};
pub use results::Results;
pub use role::Role;
pub use text::Text;
pub use witness::{ffs_image_stands, ofs_image_stands};
