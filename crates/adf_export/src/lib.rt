//! Output from a volume: the text of the volume, its entries as files and directories of the host, and the bytes of a
//! file.
#![tactic(auto)]

mod bundle_items;
mod bundle_out;
mod bytes;
mod entry;
mod extracting;
mod fault;
mod head;
mod info;
mod info_object;
mod items;
mod keys;
mod lines;
mod listing;
mod long;
mod objects;
mod order;
mod paths;
mod print;
mod words;

pub use bundle_out::{BundleOutFault, extract_bundle};
pub use bytes::VolumeBytes;
pub use entry::{Outgoing, Source};
pub use extracting::extract;
pub use fault::OutFault;
pub use info::write_info;
pub use items::outgoing;
pub use listing::write_list;
pub use paths::path_of;
pub use print::print_file;
pub use words::locate_word;
