//! The faults of an image for C.

ghost use Rattle.std.specs.Prelude.{◌≡◌, pos};
ghost use Rattle.adf_c.specs.Faults.{fault_number, size_fault_number};

use adf_block::SizeFault;
use ados_model::{FaultKind, VolumeFault};

/// Why bytes are no image, and the block that shows it.
#[repr(C)]
#[derive(Clone, Copy)]
pub struct JipFault {
    /// 1 to 17 as in the header; 101 to 103 for a length that no image has.
    pub kind: i32,
    pub block: u32,
}

impl JipFault {
    /// The fault of a length.
    pub fn of_size(fault: SizeFault) -> JipFault
        ensures { result ≡ record { kind = pos (size_fault_number fault); block = 0 } }
    {
        let kind = match fault {
            SizeFault::NotWholeBlocks => 101,
            SizeFault::TooFewBlocks => 102,
            SizeFault::TooManyBlocks => 103,
        };
        JipFault { kind, block: 0 }
    }

    /// A fault of an image.
    pub fn of_volume(fault: VolumeFault) -> JipFault
        ensures { result ≡ record { kind = pos (fault_number fault.kind); block = fault.block } }
    {
        let kind = match fault.kind {
            FaultKind::NotADosDisk => 1,
            FaultKind::UnsupportedKind => 2,
            FaultKind::BadSum => 3,
            FaultKind::BadType => 4,
            FaultKind::BadOwnKey => 5,
            FaultKind::BadParent => 6,
            FaultKind::BadPointer => 7,
            FaultKind::BlockUsedTwice => 8,
            FaultKind::WrongChain => 9,
            FaultKind::BadName => 10,
            FaultKind::DuplicateName => 11,
            FaultKind::BadComment => 12,
            FaultKind::BadCount => 13,
            FaultKind::BadSequence => 14,
            FaultKind::LinkEntry => 15,
            FaultKind::MarkedFree => 17,
            FaultKind::NoMemory => 19,
        };
        JipFault {
            kind,
            block: fault.block,
        }
    }
}
