//! A chain of extension blocks that is known from other files, from one of its blocks to its end.
ghost use Rattle.std.specs.Prelude.{◌≡◌, ◌<◌, IfSome, Some, length, slice_get, true};
ghost use Rattle.ados_faults.specs.steps.Tails.{is_known_at, is_settled_at};

use crate::data_summary::DataSummary;

/// What is known of a chain of header and extension blocks that ends outside the image.
#[derive(Clone, Copy)]
pub(crate) struct Tail {
    /// The data blocks in its pointers.
    pub(crate) summary: DataSummary,
    /// The number of data blocks before them, where they were checked last.
    pub(crate) position: u64,
    /// Whether they were also checked at another position.
    pub(crate) is_settled: bool,
}

/// The chain from a block on, if its data blocks need no check at this position.
pub(crate) fn known_tail(tails: &[Option<Tail>], block: u32, position: u64) -> Option<Tail>
    requires { block < length tails.now }
    ensures { IfSome result (λ tail. (slice_get tails.now block ≡ Some (Some tail)) × (is_known_at tail position ≡ true)) }
{
    let known = tails[block as usize];
    let Some(tail) = known else {
        return None;
    };
    if !tail.is_settled && tail.position != position {
        return None;
    }
    Some(tail)
}

/// Whether the data blocks of a chain are checked at two positions, if this is one more.
pub(crate) fn is_settled_at(before: Option<Tail>, position: u64) -> bool
    ensures { result ≡ is_settled_at before position }
{
    match before {
        Some(tail) => tail.is_settled || tail.position != position,
        None => false,
    }
}
