//! The faults of an image.
ghost use Rattle.std.specs.Prelude.{◌≡◌};
ghost use Rattle.ados_model.specs.Faults.{dos_number};

use crate::dos_error::DosError;

/// The kind of a fault.
#[derive(Clone, Copy, Debug, PartialEq, Eq)]
pub enum FaultKind {
    /// The first three bytes are not `DOS`. DOS error 225.
    NotADosDisk,
    /// The first three bytes are `DOS`, but the fourth is neither 0 (OFS) nor 1 (FFS).
    UnsupportedKind,
    /// The checksum of a block is wrong.
    BadSum,
    BadType,
    /// A block's own number in its header is wrong.
    BadOwnKey,
    /// A block names another directory or file than the one that holds it.
    BadParent,
    /// A block number is outside the volume; or, in OFS, the link from one data block to the next is wrong.
    BadPointer,
    BlockUsedTwice,
    /// An entry is in another hash chain than that of its name.
    WrongChain,
    BadName,
    DuplicateName,
    BadComment,
    /// A count or a size does not match the blocks of the file.
    BadCount,
    /// The sequence number of an OFS data block is wrong.
    BadSequence,
    /// The entry is a hard or soft link.
    LinkEntry,
    /// A block in use is marked free in the bitmap.
    MarkedFree,
    /// The check ran out of memory. The image may be valid. DOS error 103.
    NoMemory,
}

/// A fault, and the block that shows it. Faults of the boot blocks, and out of memory, have block 0.
#[derive(Clone, Copy, Debug, PartialEq, Eq)]
pub struct VolumeFault {
    pub kind: FaultKind,
    pub block: u32,
}

impl VolumeFault {
    /// The number of the AmigaDOS error for a fault: 225 for a disk without a file system, 103 for out of memory, or
    /// none.
    pub fn dos_error(&self) -> Option<i32>
        ensures { result ≡ dos_number self.now.kind }
    {
        match self.kind {
            FaultKind::NotADosDisk => Some(DosError::NotADosDisk.number()),
            FaultKind::NoMemory => Some(DosError::NoFreeStore.number()),
            _ => None,
        }
    }
}
