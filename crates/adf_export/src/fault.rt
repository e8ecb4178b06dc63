//! Why output from a volume failed.

use adf_cli::Refused;
use adf_host::WriteFault;
use std::alloc::AllocError;
use thiserror::Error;

/// Why output from a volume failed.
#[derive(Debug, Drop, Error)]
pub enum OutFault {
    /// A path leads to no object, or to one of the wrong type.
    #[error("{0}")]
    Refused(Refused),
    /// An argument with a letter past U+00FF.
    #[error("'{0}' has a letter that no byte stands for")]
    Letter(String),
    #[error("{0}")]
    Host(WriteFault),
    #[error("the output cannot be written")]
    Output,
    #[error("there is not enough memory")]
    Memory,
}

impl From<AllocError> for OutFault {
    ghost use Rattle.std.specs.Prelude.{◌≡◌};
    ghost use Rattle.adf_export.specs.declared.fault.OutFault.TheVariants.{Memory};

    ghost from_gives = { λ _ fault. fault ≡ Memory };

    fn from(_error: AllocError) -> OutFault {
        OutFault::Memory
    }
}
