//! Files and directories of the host: walked, and written below a directory.

mod dates;
mod faults;
mod items;
mod names;
mod notes;
mod order;
mod reading;
mod standing;
mod walk;
mod way;
mod writing;

pub use dates::{date_of_time, dates_come_back, host_time, moment_of};
pub use faults::{WriteFault, WriteWhy};
pub use items::{Contents, HostItem, ItemKind};
pub use names::HostName;
pub use notes::{note_name, noted_name};
pub use reading::HostReader;
pub use walk::{HostEntry, HostKind, HostTree, PassedOver, PassedWhy, WalkFault, host_tree};
pub use writing::write_tree;
