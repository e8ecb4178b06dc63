//! Image files, as the arguments of a command name them.

/// The argument that is a standard stream and no file: input as an image that is read, output as a file that is written.
pub const STANDARD_STREAM: &str = "-";

/// An image file: its path, and which of its bytes are the image.
#[derive(Clone, Copy)]
pub struct ImageFile<'a> {
    pub path: &'a str,
    /// The number of blocks at the start of the file that are the image; by default all of the file is.
    pub blocks: Option<u32>,
}
