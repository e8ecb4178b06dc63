//! The mark of a reached block.
use ados_model::Role;

/// The role of a reached block, and the long that names it.
#[derive(Clone, Copy, PartialEq, Eq)]
pub struct Mark {
    pub role: Role,
    /// The block with this long; 0 for the root.
    pub holder: u32,
    /// The index of the long in that block; 0 for the root.
    pub long: u32,
}
