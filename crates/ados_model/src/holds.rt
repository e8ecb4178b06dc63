//! Locks and handles.

/// A lock: a hold on an object, shared or exclusive.
#[derive(Clone, Copy, PartialEq, Eq)]
pub struct LockHold {
    pub key: u32,
    pub exclusive: bool,
}

/// A file handle: a hold on a file, with a position.
#[derive(Clone, Copy, PartialEq, Eq)]
pub struct HandleHold {
    pub key: u32,
    pub position: u32, // In bytes from the start of the file.
    pub exclusive: bool,
}
