//! What may be lost with the old bitmap.

use adf_record::Grouped;
use thiserror::Error;

/// The most bits of a bitmap block with a wrong checksum that a new one changes without a question.
pub const MOST_CHANGED_BITS: u32 = 64;

/// What a bitmap block looks like, by its types.
#[derive(Clone, Copy, Debug, PartialEq, Eq, Error)]
pub enum Look {
    /// The root, or the header of a directory or file.
    #[error("the header of a directory or file")]
    Header,
    #[error("an extension block of a file")]
    Extension,
    /// An OFS data block.
    #[error("a data block of a file")]
    Data,
}

/// Why a bitmap is not written anew unless that is forced.
#[derive(Clone, Copy, Debug, PartialEq, Eq, Error)]
pub enum Caution {
    /// A bitmap block looks like another block.
    #[error("block {0} is a bitmap block, but looks like {1}")]
    LooksLike(u32, Look),
    /// A bitmap block has a wrong checksum, and differs from the new one in so many bits.
    #[error("block {} is a bitmap block with a wrong checksum, and {} of its bits would change", .0, Grouped(u64::from(*.1)))]
    Differs(u32, u32),
    /// A block that is marked used and that nothing names is the sound header of a directory or file.
    #[error("block {0} is marked used, and is the header of a directory or file, but nothing names it")]
    LostHeader(u32),
}
