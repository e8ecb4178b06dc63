//! Files of the host: replaced whole, and locked; trees of files and directories, walked and written. An image file is read
//! whole, or piece by piece for its sketch.
#![tactic(auto)]

mod beside;
mod busy;
mod directory;
mod held;
mod held_tree;
mod holder;
mod host_words;
mod image_file;
mod letters;
mod limit;
mod limited;
mod names;
mod new_bytes;
mod opening;
mod owned;
mod prompt;
mod replacing;
mod sketched;
mod standard;
mod temporary;
mod trees;
mod unreadable;
mod unwritable;

pub use beside::beside_path;
pub use busy::{is_held, is_held_below};
pub use directory::{FileNumber, HeldDirectory};
pub use held::{HeldFile, HoldFault, hold, hold_target};
pub use held_tree::HeldTree;
pub use holder::Holder;
pub use host_words::HostWords;
pub use image_file::{open_below, read_filled_file, read_image_below, read_image_file, size_fault};
pub use limit::{LengthLimit, refuse_length};
pub use limited::{LimitedInput, LimitedOutput};
pub use names::read_names;
pub use opening::{OpenFault, may_follow_at};
pub use owned::OwnedFile;
pub use prompt::{Machine, PromptFiles};
pub use replacing::{ReplaceFault, replace_file, replace_found};
pub use sketched::{read_sketch, sketch_image_below, sketch_image_file};
pub use standard::{Stream, input_path};
pub use trees::{
    Contents, HostEntry, HostItem, HostKind, HostName, HostReader, HostTree, ItemKind, PassedOver,
    PassedWhy, WalkFault, WriteFault, WriteWhy, date_of_time, dates_come_back, host_time,
    host_tree, moment_of, note_name, noted_name, write_tree,
};
pub use unreadable::{ReadReason, why_no_image, why_no_image_below, why_unreadable};
pub use unwritable::WriteReason;
