//! The words for faults.
ghost use Rattle.std.specs.Prelude.{◌≡◌};
ghost use Rattle.adf_archive.specs.Words.{kind_word, size_word};

use adf_block::SizeFault;
use ados_model::FaultKind;

/// The word for a fault of the size.
pub fn size_word(fault: SizeFault) -> &'static str
    ensures { result.now ≡ size_word fault }
{
    match fault {
        SizeFault::NotWholeBlocks => "NotWholeBlocks",
        SizeFault::TooFewBlocks => "TooFewBlocks",
        SizeFault::TooManyBlocks => "TooManyBlocks",
    }
}

/// The word for a fault of an image. Out of memory has none, because no image is refused for it.
pub fn kind_word(kind: FaultKind) -> &'static str
    ensures { result.now ≡ kind_word kind }
{
    match kind {
        FaultKind::NotADosDisk => "NotADosDisk",
        FaultKind::UnsupportedKind => "UnsupportedKind",
        FaultKind::BadSum => "BadSum",
        FaultKind::BadType => "BadType",
        FaultKind::BadOwnKey => "BadOwnKey",
        FaultKind::BadParent => "BadParent",
        FaultKind::BadPointer => "BadPointer",
        FaultKind::BlockUsedTwice => "BlockUsedTwice",
        FaultKind::WrongChain => "WrongChain",
        FaultKind::BadName => "BadName",
        FaultKind::DuplicateName => "DuplicateName",
        FaultKind::BadComment => "BadComment",
        FaultKind::BadCount => "BadCount",
        FaultKind::BadSequence => "BadSequence",
        FaultKind::LinkEntry => "LinkEntry",
        FaultKind::MarkedFree => "MarkedFree",
        FaultKind::NoMemory => "",
    }
}
