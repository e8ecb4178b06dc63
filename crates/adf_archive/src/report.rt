//! The report on an image, as a value.
use crate::suspects::Suspect;
use adf_block::{BootKind, SizeFault};
use adf_record::{Counts, Grouped};
use ados_faults::Evidence;
use ados_model::VolumeFault;
use ados_name::Name;
use thiserror::Error;

/// The report on an image file.
#[derive(Drop)]
pub enum ImageReport {
    Accepted(AcceptedImage),
    Refused(RefusedImage),
    /// An image cannot have the size of the file.
    WrongSize(SizeFault),
    NotChecked(WhyNot),
}

/// An accepted image.
#[derive(Drop)]
pub struct AcceptedImage {
    pub kind: BootKind,
    pub blocks: u32,
    /// Whether its bitmap was not valid and was rebuilt.
    pub validated: bool,
    /// The contents of the volume, if requested.
    pub contents: Option<Contents>,
    /// The suspect blocks, if requested.
    pub suspects: Option<Vec<Suspect>>,
}

/// The contents of an accepted image.
#[derive(Clone, Copy)]
pub struct Contents {
    pub name: Name,
    pub counts: Counts,
    /// The free blocks.
    pub free: u32,
}

/// A refused image.
#[derive(Drop)]
pub struct RefusedImage {
    pub kind: BootKind,
    pub blocks: u32,
    /// Faults that it shows, at least one.
    pub faults: Vec<ShownFault>,
    /// Whether it may have more faults.
    pub more: bool,
    /// Whether all its faults are blocks in use that are marked free, and wrong checksums of bitmap blocks: a new bitmap mends them.
    pub only_bitmap: bool,
}

/// A fault of an image.
#[derive(Drop)]
pub struct ShownFault {
    pub fault: VolumeFault,
    /// The path of the directory or file that it belongs to, if requested and known.
    pub path: Option<String>,
    /// The long that shows it, if one does.
    pub values: Option<Evidence>,
    /// The text that explains it.
    pub text: String,
}

/// Why an image was not checked.
#[derive(Clone, Copy, Debug, PartialEq, Eq, Error)]
pub enum WhyNot {
    #[error("cannot be read")]
    Read,
    /// No path of the host leads to it, since its name is not UTF-8.
    #[error("has a name that is not UTF-8")]
    Name,
    #[error("is not checked: there is not enough memory")]
    Memory,
    #[error("did not end after 2,097,152 reads")]
    Endless,
    /// A line of the list of bad blocks, from 1, names none of so many blocks.
    #[error("is not checked: line {} of the list of bad blocks names none of its {} blocks", .0, Grouped(u64::from(*.1)))]
    BadLine(usize, u32),
}
