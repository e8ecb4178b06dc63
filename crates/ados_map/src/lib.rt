//! The bitmap of a floppy image: which blocks are free.
//!
//! Each block after the boot blocks has a bit, lowest first in each long of a bitmap block. A set bit means free. The
//! root has the numbers of the bitmap blocks (AmigaDOS Technical Reference). Bits past the volume's end are not read
//! (this project's choice).
#![tactic(auto)]

mod bits;
mod changes;
mod reading;
mod rebuilding;

pub use changes::{give_back, take_first, take_first_from};
pub use reading::{count_free, has_free, is_free};
pub use rebuilding::rebuild;
