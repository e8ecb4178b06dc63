//! Laws about the bitmap blocks and the blocks that become free. Each is the contract of a function that does nothing.
ghost use Rattle.ados_validate.specs.steps.Cautious.{FreedHeadersStay};
ghost use Rattle.ados_validate.specs.steps.Settled.{MendableHasPages, ValidatedHasPages};

/// The bitmap blocks are lawful of an image that shows only faults which a new bitmap mends, and of the new image.
pub(crate) fn lawful_pages()
    ensures mendable { MendableHasPages }
    ensures validated { ValidatedHasPages }
{}

/// A block that the new bitmap marks free is a sound header in both images or in none.
pub(crate) fn freed_headers_stay()
    ensures { FreedHeadersStay }
{}
