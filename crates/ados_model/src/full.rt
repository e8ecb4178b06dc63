//! A full volume.

/// Fewer blocks are free than needed. DOS error 221.
#[derive(Clone, Copy, PartialEq, Eq)]
pub struct Full;
