//! Names, comments, paths, protection bits and dates of an AmigaDOS volume.
#![tactic(auto)]

mod comment;
mod date;
mod name;
mod path;
mod protect;
mod short_text;
mod stamp;

pub use comment::{Comment, CommentTooLong};
pub use name::{Name, same_name_same_slot, upper};
pub use path::{PathSteps, PathText, PathTooLong, Step, from_root, split_last};
pub use protect::Protect;
pub use stamp::Date3;

/// Why a text is not a name.
#[derive(Clone, Copy, Debug, PartialEq, Eq)]
pub enum NameFault {
    Empty,
    /// More than 30 bytes.
    TooLong,
    /// A `/` or a `:` in it.
    Separator,
}
