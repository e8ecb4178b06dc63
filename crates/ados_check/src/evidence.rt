//! The long of a block that shows that it breaks a rule.
ghost use Rattle.std.specs.Prelude.{◌≡◌, ◌≢◌, ◌<◌, ◌↔◌, IsTrue, IfSome, None, Some, is_some};
ghost use Rattle.adf_block.specs.declared.layout.TheConstants.{BLOCK_LONGS};
ghost use Rattle.adf_block.specs.Image.{block_count, long};
ghost use Rattle.ados_check.specs.Evidence.{evidence_of};
ghost use Rattle.ados_check.specs.Source.{Tells};

use crate::source::Source;

/// The long of a block that shows that the block breaks a rule.
#[derive(Clone, Copy)]
pub struct Evidence {
    /// The index of the long in the block, 0 to 127.
    pub long: u32,
    /// What the long holds. The length and the first letters of a text share a long.
    pub found: u32,
    /// What it should hold, if only one value is right.
    pub wanted: Option<u32>,
}

impl Evidence {
    /// Long `i` of a block, which should hold `wanted`, or one of several values.
    pub fn of(source: &Source<'_>, block: u32, i: u32, wanted: Option<u32>) -> Evidence
        requires block { block < block_count source.now.bytes }
        requires long { i < BLOCK_LONGS }
        requires told { Tells source.now block i }
        ensures { result ≡ evidence_of source.now.bytes block i wanted }
    {
        Evidence {
            long: i,
            found: source.long(block, i),
            wanted,
        }
    }
}

/// Long `i` of a block, if the rule is broken there, which allows several values or none.
#[inline(always)]
pub(crate) fn broken_at(
    source: &Source<'_>,
    block: u32,
    i: u32,
    is_broken: bool,
) -> Option<Evidence>
    requires block { block < block_count source.now.bytes }
    requires long { i < BLOCK_LONGS }
    requires told { Tells source.now block i }
    ensures broken { is_some result ≡ is_broken }
    ensures evidence { IfSome result (λ e. e ≡ evidence_of source.now.bytes block i None) }
{
    if is_broken {
        Some(Evidence::of(source, block, i, None))
    } else {
        None
    }
}

/// Long `i` of a block, unless it holds the one value that is right.
#[inline(always)]
pub(crate) fn other_at(source: &Source<'_>, block: u32, i: u32, wanted: u32) -> Option<Evidence>
    requires block { block < block_count source.now.bytes }
    requires long { i < BLOCK_LONGS }
    requires told { Tells source.now block i }
    ensures broken { IsTrue (is_some result) ↔ (long source.now.bytes block i ≢ wanted) }
    ensures evidence { IfSome result (λ e. e ≡ evidence_of source.now.bytes block i (Some wanted)) }
{
    if source.long(block, i) == wanted {
        None
    } else {
        Some(Evidence::of(source, block, i, Some(wanted)))
    }
}
