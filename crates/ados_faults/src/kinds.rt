//! Numbers for the kinds of faults, and the one that a disk of another kind shows.
ghost use Rattle.std.specs.Prelude.{◌≡◌, ◌<◌, MatchOption};
ghost use Rattle.ados_faults.specs.Listed.{IsOtherKind, ShowsOtherKind, rank};

use adf_block::layout::FEWEST_BLOCKS;
use adf_block::{BootKind, Image};
use ados_model::FaultKind;

/// The number of kinds.
pub(crate) const KINDS: usize = 17;

/// The number of a kind.
pub(crate) fn rank_of(kind: FaultKind) -> usize
    ensures rank { result ≡ rank kind }
    ensures small { result < KINDS }
{
    match kind {
        FaultKind::NotADosDisk => 0,
        FaultKind::UnsupportedKind => 1,
        FaultKind::BadSum => 2,
        FaultKind::BadType => 3,
        FaultKind::BadOwnKey => 4,
        FaultKind::BadParent => 5,
        FaultKind::BadPointer => 6,
        FaultKind::BlockUsedTwice => 7,
        FaultKind::WrongChain => 8,
        FaultKind::BadName => 9,
        FaultKind::DuplicateName => 10,
        FaultKind::BadComment => 11,
        FaultKind::BadCount => 12,
        FaultKind::BadSequence => 13,
        FaultKind::LinkEntry => 14,
        FaultKind::MarkedFree => 15,
        FaultKind::NoMemory => 16,
    }
}

/// The kind with a number.
pub(crate) fn kind_at(place: usize) -> FaultKind
    requires { place < KINDS }
    ensures { rank result ≡ place }
{
    match place {
        0 => FaultKind::NotADosDisk,
        1 => FaultKind::UnsupportedKind,
        2 => FaultKind::BadSum,
        3 => FaultKind::BadType,
        4 => FaultKind::BadOwnKey,
        5 => FaultKind::BadParent,
        6 => FaultKind::BadPointer,
        7 => FaultKind::BlockUsedTwice,
        8 => FaultKind::WrongChain,
        9 => FaultKind::BadName,
        10 => FaultKind::DuplicateName,
        11 => FaultKind::BadComment,
        12 => FaultKind::BadCount,
        13 => FaultKind::BadSequence,
        14 => FaultKind::LinkEntry,
        15 => FaultKind::MarkedFree,
        _ => FaultKind::NoMemory,
    }
}

/// The fault of an image that is no DOS disk, or one of an unsupported kind.
pub(crate) fn other_kind(image: &Image) -> Option<FaultKind>
    ensures { MatchOption result (¬ ShowsOtherKind image.now) (IsOtherKind image.now) }
{
    prove!(image.blocks() >= FEWEST_BLOCKS);
    match image.boot_kind() {
        BootKind::Ofs | BootKind::Ffs => None,
        BootKind::OtherDos(_) => Some(FaultKind::UnsupportedKind),
        BootKind::NotDos => Some(FaultKind::NotADosDisk),
    }
}
