//! The kinds of entries.

ghost use Rattle.std.specs.Prelude.{◌≡◌};
ghost use Rattle.ados_model.specs.Stands.{type_of};
ghost use Rattle.ados_change.specs.Kinds.{content_of};

use adf_block::layout::{DIRECTORY_TYPE, FILE_TYPE};

/// A directory or a file.
#[derive(Clone, Copy, PartialEq, Eq)]
pub enum NodeKind {
    Directory,
    File,
}

impl NodeKind {
    /// The secondary type of its block: 2 for a directory, -3 for a file.
    pub(crate) fn secondary_type(self) -> u32
        ensures { result ≡ type_of (content_of self) }
    {
        match self {
            NodeKind::Directory => DIRECTORY_TYPE,
            NodeKind::File => FILE_TYPE,
        }
    }
}
