//! A volume as a value that has no block numbers.
use adf_block::Format;
use ados_name::{Comment, Date3, Name, Protect};

/// Everything of a volume but its block numbers, its lost blocks and the bytes of its files.
#[derive(Drop)]
pub struct Bundle {
    pub head: BundleHead,
    /// The bytes of the boot blocks.
    pub boot: Vec<u8>,
    /// All files and directories in the order of the disk, each directory directly before what is in it.
    pub entries: Vec<BundleEntry>,
}

/// What is told of the volume itself.
#[derive(Clone, Copy)]
pub struct BundleHead {
    pub format: Format,
    pub blocks: u32,
    pub label: Name,
    /// When the volume was made.
    pub created: Date3,
    /// When something on it was last changed.
    pub changed: Date3,
    /// The date of the root itself.
    pub root_date: Date3,
}

/// A file or a directory.
#[derive(Clone, Copy)]
pub struct BundleEntry {
    /// The position of its directory in the list, which is before it. `None`: the root.
    pub above: Option<usize>,
    pub name: Name,
    /// The size of a file in bytes. A directory has none.
    pub size: Option<u32>,
    /// All 32 protection bits.
    pub protection: Protect,
    pub date: Date3,
    pub comment: Comment,
}
