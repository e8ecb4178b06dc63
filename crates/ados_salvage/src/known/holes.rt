//! Blocks that nobody read.
ghost use Rattle.std.specs.Prelude.{◌≡◌, All, MatchBool};
ghost use Rattle.ados_salvage.specs.Marks.{IsHole, mark_at};

/// Whether a block is a hole, by the marks of all holes. A block without a mark is none.
pub fn is_hole(holes: &[bool], block: u32) -> bool
    ensures { result ≡ mark_at holes.now block }
{
    match holes.get(block as usize) {
        Some(hole) => *hole,
        None => false,
    }
}

/// Whether none of these blocks is a hole.
pub(crate) fn are_there(holes: &[bool], blocks: &[u32]) -> bool
    ensures { MatchBool result (All (λ block. ¬ IsHole holes.now block) blocks.now) (¬ All (λ block. ¬ IsHole holes.now block) blocks.now) }
{
    blocks.iter().all(|block| !is_hole(holes, *block))
}
