//! What is asked of blocks.
use adf_cli::BlockWord;

/// The blocks that are asked for, and how they are told.
#[derive(Clone, Copy)]
pub struct Asking<'a> {
    /// The arguments that name them.
    pub words: &'a [BlockWord],
    /// Whether each block of the image could not be read; empty if that is not asked.
    pub unread: &'a [bool],
    /// Whether the output is JSON.
    pub json: bool,
}
