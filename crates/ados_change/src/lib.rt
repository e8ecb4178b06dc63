//! Changes of an image that represents a tree: the fields of one node ([`set_comment`] and similar calls), the bytes
//! of a file ([`write`], [`cut`], [`grow`]), and the entries of a directory ([`create`], [`remove`], [`rename`]). Each
//! also changes the tree that the image represents. No call allocates memory.
//!
//! Keys are block numbers, and sizes and positions are in bytes. Each change sets the disk date to `moment`. A change
//! of bytes or entries also sets the date of the file or the directories, and one of bytes clears the file's archive
//! bit.
#![tactic(auto)]

// The fields of a node.
mod edit;
mod fields;
mod node;
mod settled;

// The bytes of a file.
mod content;
mod space;
mod stamp;

// The entries of a directory.
mod block;
mod entry_made;
mod entry_removed;
mod entry_renamed;
mod laws;
mod node_kind;

pub use ados_model::Full;
pub use content::{cut, grow, write};
pub use edit::{put_date, put_text};
pub use entry_made::{Starts, create};
pub use entry_removed::remove;
pub use entry_renamed::rename;
pub use fields::{rename_disk, set_comment, set_date, set_protection};
pub use laws::{made_is_proper, removed_is_proper, renamed_is_proper, same_rest_same_bytes};
pub use node_kind::NodeKind;
