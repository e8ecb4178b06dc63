//! An OFS or FFS volume on an image: the tree of directories and files that the image represents.
#![tactic(auto)]

mod below;
mod blank_volume;
mod cache;
mod checking;
mod contents;
mod entries;
mod examine;
mod info;
mod laws;
mod listed_cache;
mod look;
mod owned;
mod owner;
mod paths;
mod places;
mod refusals;
mod stamp;
mod volume;
mod walk;
mod whole_file;

pub use ados_chain::Next;
pub use ados_change::NodeKind;
pub use ados_check::Rejected;
pub use ados_model::{DiskInfo, FaultKind, FileInfo, Full, PlaceFault, VolumeFault, WalkFault};
pub use below::{Below, entries_below, push_below};
pub use blank_volume::blank;
pub use checking::check;
pub use info::free_blocks;
pub use laws::check_decides;
pub use owned::owners;
pub use owner::Owner;
pub use paths::{Stopped, locate, place};
pub use refusals::{is_denied, move_refusal, remove_refusal};
pub use volume::Volume;
pub use whole_file::read_file;
