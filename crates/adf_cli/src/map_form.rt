//! The forms of a map.

/// The form of a map.
#[derive(Clone, Copy)]
pub enum MapForm {
    /// Text. A floppy has a column for each cylinder, any other disk the lines of `Tracks`.
    Cylinders,
    /// Text. A floppy of double density has a line for each track, any other disk lines of 22 blocks.
    Tracks,
    /// A JSON object.
    Json,
}
