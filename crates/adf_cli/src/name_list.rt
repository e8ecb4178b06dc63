//! Lists of names, as the arguments of a command name them.

/// A list with the names of files.
#[derive(Clone, Copy)]
pub struct NameList<'a> {
    /// The file of the list, or standard input.
    pub file: &'a str,
    /// Whether a zero byte ends each name; otherwise the end of a line does.
    pub null: bool,
}
