//! How a client's script ends.

/// How the script of a client at a running port ended.
#[derive(Clone, Copy, PartialEq, Eq)]
pub enum ClientEnding {
    /// All lines were run, or the port was closed.
    Done,
    /// A line of the script is faulty, or the script is too long. The last line of the text has the number.
    Script,
    /// A packet found no room, or a reply did not come, within the number of tries.
    Tries,
}
