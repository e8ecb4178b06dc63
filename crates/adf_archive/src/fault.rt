//! Why the check of an archive fails.
use std::alloc::AllocError;
use thiserror::Error;

/// Why not all images of an archive are accepted or reported.
#[derive(Clone, Copy, Debug, PartialEq, Eq, Error)]
pub enum ArchiveFault {
    /// All images were read, and one is refused.
    #[error("an image is refused")]
    Refused,
    /// An image was not read, or could not be checked.
    #[error("an image is not checked")]
    NotChecked,
    /// There is a list of blocks that could not be read, and there may be more than one image.
    #[error("--bad lists the blocks of one image, and FILE is a directory")]
    OneImage,
    #[error("the output cannot be written")]
    Output,
    #[error("there is not enough memory")]
    Memory,
}

impl From<AllocError> for ArchiveFault {
    ghost use Rattle.std.specs.Prelude.{◌≡◌};
    ghost use Rattle.adf_archive.specs.declared.fault.ArchiveFault.TheVariants.{Memory};

    ghost from_gives = { λ _ fault. fault ≡ Memory };

    fn from(_error: AllocError) -> ArchiveFault {
        ArchiveFault::Memory
    }
}
