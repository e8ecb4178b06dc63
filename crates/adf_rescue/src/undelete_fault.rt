//! Why deleted entries are neither told nor written.
use adf_host::WriteFault;
use std::alloc::AllocError;
use thiserror::Error;

/// Why deleted entries are neither told nor written.
#[derive(Debug, Drop, Error)]
pub enum UndeleteFault {
    /// The bitmap cannot be trusted, so it is not known what was deleted.
    #[error("the bitmap cannot be trusted, so nothing says what was deleted")]
    NoTrustedBitmap,
    /// An argument that chooses no deleted entry.
    #[error("nothing that was deleted is at '{0}' or below it")]
    NothingDeleted(String),
    #[error("{0}")]
    Host(WriteFault),
    #[error("there is not enough memory")]
    Memory,
}

impl From<AllocError> for UndeleteFault {
    ghost use Rattle.std.specs.Prelude.{◌≡◌};
    ghost use Rattle.adf_rescue.specs.declared.undelete_fault.UndeleteFault.TheVariants.{Memory};

    ghost from_gives = { λ _ fault. fault ≡ Memory };

    fn from(_error: AllocError) -> UndeleteFault {
        UndeleteFault::Memory
    }
}
