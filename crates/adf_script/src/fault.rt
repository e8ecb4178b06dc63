//! The faults of a script's run.
use adf_io::InputFault;
use std::alloc::AllocError;

/// Why a script's run failed.
#[derive(Clone, Copy, PartialEq, Eq)]
pub enum TryFault {
    /// A line of the script is faulty, or the script is too long. The last line of the written text has the number.
    Script,
    /// The reader failed.
    Read,
    /// The writer failed, or wrote nothing.
    Write,
    /// Out of memory.
    Memory,
    /// The reader did not end within 2,097,152 reads.
    TurnLimit,
}

impl From<AllocError> for TryFault {
    ghost use Rattle.std.specs.Prelude.{◌≡◌};
    ghost use Rattle.adf_script.specs.declared.fault.TryFault.TheVariants.{Memory};

    ghost from_gives = { λ _ fault. fault ≡ Memory };

    fn from(_: AllocError) -> Self {
        TryFault::Memory
    }
}

impl From<InputFault> for TryFault {
    ghost use Rattle.std.specs.Prelude.{◌≡◌};
    ghost use Rattle.adf_script.specs.Streams.{input_fault};

    ghost from_gives = { λ fault told. told ≡ input_fault fault };

    fn from(fault: InputFault) -> Self
        ensures { result ≡ input_fault fault }
    {
        match fault {
            InputFault::Read => TryFault::Read,
            InputFault::Memory => TryFault::Memory,
            InputFault::TurnLimit => TryFault::TurnLimit,
        }
    }
}
