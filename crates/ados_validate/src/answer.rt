//! The answers of `validate`.

use crate::caution::Caution;
use adf_block::Image;
use ados_model::VolumeFault;
use thiserror::Error;

/// An image with a new bitmap.
#[derive(Drop)]
pub struct Validated {
    pub image: Image,
    /// The number of blocks that were marked free and are in use.
    pub were_free: u32,
    /// The number of blocks that were marked used and belong to nothing.
    pub were_used: u32,
}

/// Why there is no image with a new bitmap.
#[derive(Clone, Copy, Debug, PartialEq, Eq, Error)]
pub enum NotValidated {
    /// The image shows a fault that a new bitmap does not mend.
    #[error("block {} has a fault that a new bitmap does not mend", .0.block)]
    OtherFault(VolumeFault),
    /// Something may be lost with the old bitmap.
    #[error("{0}: --force writes the bitmap anew all the same")]
    Asks(Caution),
    #[error("there is not enough memory")]
    Memory,
}
