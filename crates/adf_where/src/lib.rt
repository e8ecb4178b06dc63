//! Who owns a block, and which blocks an entry has: of a volume, and every place that names a block of an image that is refused.
//! The map of either, a letter for each block.
#![tactic(auto)]

// The map of a disk.
mod block_map;
mod block_mark;
mod faulty_map;
mod map_lines;
mod map_object;

// Blocks that are asked for.
mod asking;
mod faulty;
mod faulty_lines;
mod faulty_objects;
mod faulty_text;
mod faulty_where;
mod forms;
mod own_blocks;
mod own_object;
mod owned;
mod places;
mod refused;
mod short_path;
mod unread;
mod where_blocks;
mod where_fault;
mod where_lines;
mod where_objects;

pub use asking::Asking;
pub use block_map::map_text;
pub use faulty_map::faulty_map_text;
pub use faulty_where::write_faulty_where;
pub use own_blocks::where_path_text;
pub use refused::{FaultReason, dos_refused_text, refused_text};
pub use where_blocks::write_where;
pub use where_fault::WhereFault;
