//! Why a text is not the description of a bundle.
use adf_text::Grouped;
use std::alloc::{AllocError, AllocFailed, Global};
use std::fmt::{Display, Formatter};
use std::{error, fmt};
use thiserror::Error;

/// Why a text is not the description of a bundle, and which entry this is about. Entries are counted from 1.
#[derive(Debug, Drop)]
pub struct BundleFault {
    pub entry: Option<usize>,
    pub why: BundleWhy,
}

/// Why a text is not the description of a bundle.
#[derive(Debug, Drop, Error)]
pub enum BundleWhy {
    #[error("is longer than the 67,108,864 bytes that a description may have")]
    Long,
    #[error("is not UTF-8")]
    NotText,
    #[error("is no JSON of a bundle, from byte {} on", Grouped(*.0 as u64))]
    NotJson(usize),
    #[error("has no \"{0}\"")]
    Missing(&'static str),
    #[error("has \"{0}\" twice")]
    Twice(&'static str),
    #[error("has a \"{0}\", which no bundle has")]
    Unknown(String),
    #[error("has a wrong \"{member}\": expected {wanted}")]
    Wrong {
        member: &'static str,
        wanted: &'static str,
    },
    #[error("has a \"path\" whose directory is not an entry right before what is in it")]
    NoDirectory,
    #[error("has more than the 101,602 entries of the largest volume")]
    Many,
    #[error("cannot be read: there is not enough memory")]
    Memory,
}

/// The most letters that are told of the name of an unknown member.
const MOST_LETTERS: usize = 80;

impl BundleWhy {
    /// The fault of a member with this name, which no bundle has. Of a long name its first letters are told.
    pub(crate) fn unknown(alloc: Global, name: &str) -> BundleWhy {
        let letters: Result<String, AllocError> = name.chars().take(MOST_LETTERS).collect(alloc);
        match letters {
            Ok(letters) => BundleWhy::Unknown(letters),
            Err(error) => BundleWhy::from(error),
        }
    }
}

impl Display for BundleFault {
    fn fmt<W: fmt::Write>(&self, f: &mut Formatter<W>) -> fmt::Result {
        match self.entry {
            Some(number) => write!(f, "entry {} {}", Grouped(number as u64), self.why),
            None => write!(f, "{}", self.why),
        }
    }
}

impl error::Error for BundleFault {}

impl BundleFault {
    /// Whether memory ran out.
    pub fn is_memory(&self) -> bool {
        matches!(self.why, BundleWhy::Memory)
    }
}

/// A fault that is about no entry.
impl From<BundleWhy> for BundleFault {
    ghost use Rattle.std.specs.Prelude.{◌≡◌, None};

    ghost from_gives = { λ why fault. fault ≡ record { entry = None; why = why } };

    fn from(why: BundleWhy) -> BundleFault {
        BundleFault { entry: None, why }
    }
}

impl From<AllocError> for BundleFault {
    ghost use Rattle.std.specs.Prelude.{◌≡◌};
    ghost use Rattle.adf_record.specs.Described.{no_memory};

    ghost from_gives = { λ _ fault. fault ≡ no_memory };

    fn from(_error: AllocError) -> BundleFault {
        BundleFault::from(BundleWhy::Memory)
    }
}

impl<T: Drop> From<AllocFailed<T>> for BundleFault {
    ghost use Rattle.std.specs.Prelude.{◌≡◌};
    ghost use Rattle.adf_record.specs.Described.{no_memory};

    ghost from_gives = { λ _ fault. fault ≡ no_memory };

    fn from(_error: AllocFailed<T>) -> BundleFault {
        BundleFault::from(BundleWhy::Memory)
    }
}

impl From<AllocError> for BundleWhy {
    fn from(_error: AllocError) -> BundleWhy {
        BundleWhy::Memory
    }
}

impl<T: Drop> From<AllocFailed<T>> for BundleWhy {
    fn from(_error: AllocFailed<T>) -> BundleWhy {
        BundleWhy::Memory
    }
}
