//! An AmigaDOS handler for programs in C and C++: the functions that `bindings/c/jiponuwha.h` declares as
//! `jip_lib_..`.
//!
//! Each is a thin layer over the crates below, with their contracts. The header's inline functions check what cannot
//! be a reference, such as null pointers and lengths beyond memory, and then call these.
#![tactic(auto)]

pub mod blocks;
pub mod boot;
pub mod changed;
pub mod desk;
pub mod faults;
pub mod handle;
pub mod image;
pub mod label;
pub mod laws;
pub mod loose;
pub mod map;
pub mod names;
pub mod notes;
pub mod open;
pub mod packet;
pub mod read_only;
pub mod salvage;
pub mod serve;
pub mod texts;
pub mod values;

pub use desk::Desk;
pub use handle::{JipHandle, JipSalvage};
pub use packet::JipPacket;
pub use values::{
    JipAnswer, JipBoot, JipDate, JipDisk, JipEntry, JipFault, JipFinding, JipOwner, JipSalvaged,
    JipTold, Refusal,
};
