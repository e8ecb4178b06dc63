//! How many images are refused, by the kind of fault.
use crate::report::ImageReport;
use crate::words::{kind_word, size_word};
use adf_record::Grouped;
use std::fmt;
use std::fmt::{Display, Formatter};

/// A kind of fault: its word in a report, and what it means.
#[derive(Clone, Copy)]
struct Reason {
    word: &'static str,
    meaning: &'static str,
}

/// The number of reasons.
const REASONS: usize = 19;

/// Each kind of fault for which an image is refused.
#[rattlefmt::skip]
const ALL: [Reason; REASONS] = [
    Reason { word: "NotWholeBlocks", meaning: "no whole number of blocks" },
    Reason { word: "TooFewBlocks", meaning: "too short" },
    Reason { word: "TooManyBlocks", meaning: "too long" },
    Reason { word: "NotADosDisk", meaning: "not an AmigaDOS disk" },
    Reason { word: "UnsupportedKind", meaning: "another file system of AmigaDOS" },
    Reason { word: "BadSum", meaning: "wrong checksum" },
    Reason { word: "BadType", meaning: "wrong type of block" },
    Reason { word: "BadOwnKey", meaning: "wrong own number" },
    Reason { word: "BadParent", meaning: "wrong parent" },
    Reason { word: "BadPointer", meaning: "wrong pointer" },
    Reason { word: "BlockUsedTwice", meaning: "block used twice" },
    Reason { word: "WrongChain", meaning: "wrong hash chain" },
    Reason { word: "BadName", meaning: "wrong name" },
    Reason { word: "DuplicateName", meaning: "one name twice" },
    Reason { word: "BadComment", meaning: "too long a comment" },
    Reason { word: "BadCount", meaning: "wrong count" },
    Reason { word: "BadSequence", meaning: "wrong sequence number" },
    Reason { word: "LinkEntry", meaning: "a link" },
    Reason { word: "MarkedFree", meaning: "wrong bitmap" },
];

/// How many images are refused, by the kind of the first fault of each.
#[derive(Clone, Copy)]
pub(crate) struct Reasons {
    counts: [u64; REASONS],
}

impl Reasons {
    /// No image is refused.
    pub(crate) fn new() -> Reasons {
        Reasons {
            counts: [0; REASONS],
        }
    }

    /// Counts the refused ones of these images too.
    pub(crate) fn add(&mut self, reports: &[ImageReport]) {
        for report in reports {
            if let Some(word) = word_of(report) {
                self.count(word);
            }
        }
    }

    /// Counts an image that is refused for this kind of fault.
    fn count(&mut self, word: &str) {
        for (reason, count) in ALL.iter().zip(self.counts.iter_mut()) {
            if reason.word == word {
                *count = count.saturating_add(1);
            }
        }
    }
}

/// The word for the first reported fault of an image.
fn word_of(report: &ImageReport) -> Option<&'static str> {
    match report {
        ImageReport::Refused(told) => Some(kind_word(told.faults.first()?.fault.kind)),
        ImageReport::WrongSize(fault) => Some(size_word(*fault)),
        ImageReport::Accepted(_) | ImageReport::NotChecked(_) => None,
    }
}

impl Display for Reasons {
    fn fmt<W: fmt::Write>(&self, f: &mut Formatter<W>) -> fmt::Result {
        f.write_str("refused:")?;
        let mut before = "";
        for (reason, count) in ALL.iter().zip(self.counts.iter()) {
            if *count > 0 {
                let Reason { word, meaning } = *reason;
                write!(f, "{before} {} {word} ({meaning})", Grouped(*count))?;
                before = ",";
            }
        }
        Ok(())
    }
}
