//! What blocks are.

/// What a block of an image is.
#[derive(Clone, Copy)]
pub enum Part {
    /// A boot block.
    Boot,
    /// The root.
    Root,
    /// A bitmap block, by its position among them, from 0.
    Page(u32),
    /// A data block of a file: the header of the file, the position of the block among its data blocks, from 0, and the block with
    /// the pointer to it, which is 0 for a file that is not whole.
    Data(u32, u32, u32),
    /// An extension block of a file that is not whole, by the header that it names.
    Extension(u32),
    /// A used block that belongs to nothing.
    Unaccounted,
    /// The header of a deleted entry.
    Deleted,
}

/// A block with what it is.
#[derive(Clone, Copy)]
pub struct Told {
    pub block: u32,
    pub part: Part,
}
