//! The use of a block.

/// The role of a block that is reached from the root. Directories and files are given by their block numbers.
#[derive(Clone, Copy, PartialEq, Eq)]
pub enum Role {
    Root,
    /// A bitmap block.
    Page,
    /// A directory or file: an entry of this directory, in the hash chain of this slot.
    Entry(u32, u32),
    /// A data block of this file.
    Data(u32),
    /// An extension block of this file.
    Extension(u32),
}
