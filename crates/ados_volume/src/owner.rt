//! The owner of a block.

/// Who owns a block of a volume. Files are given by the block numbers of their headers.
#[derive(Clone, Copy)]
pub enum Owner {
    /// A boot block.
    Boot,
    /// The root.
    Root,
    /// A bitmap block, by its position among them, from 0.
    Page(u32),
    /// A directory other than the root.
    Directory,
    /// The header of a file.
    File,
    /// A data block of this file, by its position in the file, from 0.
    Data(u32, u32),
    /// An extension block of this file, by its position among them, from 0.
    Extension(u32, u32),
    /// Nothing, but the block is marked used.
    Lost,
    /// Nothing, and the block is marked free.
    Free,
}
