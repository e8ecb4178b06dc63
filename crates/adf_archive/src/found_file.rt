//! A file to check, as it was found.
use adf_cli::ImageFile;

/// A file to check: an argument of a command, or found in the directory that an argument names.
#[derive(Clone, Copy)]
pub struct FoundFile<'a> {
    pub file: ImageFile<'a>,
    /// The number of bytes of its path that are the argument's directory; `None` for an argument.
    pub top: Option<usize>,
}

impl<'a> FoundFile<'a> {
    /// The file that an argument names.
    pub fn named(file: ImageFile<'a>) -> FoundFile<'a> {
        FoundFile { file, top: None }
    }

    /// The path of the argument's directory, and the path of the file below it; `None` for an argument.
    pub fn parts(self) -> Option<(&'a str, &'a str)> {
        let (path, top) = (self.file.path, self.top?);
        Some((path.get(..top)?, path.get(top..)?))
    }
}
