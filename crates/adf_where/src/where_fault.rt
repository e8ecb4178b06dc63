//! Why nothing is told of blocks.
use adf_cli::BlockWord;
use adf_io::PrintFault;
use std::alloc::AllocError;

/// Why nothing is told of blocks.
#[derive(Clone, Copy)]
pub enum WhereFault {
    /// The first argument that names no block of the volume.
    NoBlock(BlockWord),
    /// Out of memory.
    Memory,
    /// The output cannot be written.
    Output,
}

impl From<AllocError> for WhereFault {
    ghost use Rattle.std.specs.Prelude.{◌≡◌};
    ghost use Rattle.adf_where.specs.declared.where_fault.WhereFault.TheVariants.{Memory};

    ghost from_gives = { λ _ fault. fault ≡ Memory };

    fn from(_error: AllocError) -> WhereFault {
        WhereFault::Memory
    }
}

impl From<PrintFault> for WhereFault {
    ghost use Rattle.std.specs.Prelude.{◌≡◌};
    ghost use Rattle.adf_where.specs.steps.Parts.{where_fault};

    ghost from_gives = { λ fault given. given ≡ where_fault fault };

    fn from(fault: PrintFault) -> WhereFault {
        match fault {
            PrintFault::Memory => WhereFault::Memory,
            PrintFault::Write => WhereFault::Output,
        }
    }
}
