//! The new bitmap of an image without faults, by the places that name its blocks.
ghost use Rattle.std.specs.Prelude.{MatchResult, Bool};
ghost use Rattle.ados_check.specs.Marks.{IsChecked};
ghost use Rattle.ados_validate.specs.Answer.{IsReason};
ghost use Rattle.ados_model.specs.Accepted.{ShowsNoFault};
ghost use Rattle.ados_validate.specs.Validated.{IsValidated};

use crate::answer::NotValidated;
use crate::settled::set_not_valid;
use adf_block::Image;
use adf_block::layout::MOST_BLOCKS;
use ados_check::{Mark, mend};
use std::alloc::Global;

/// The image with a new bitmap, which marks exactly the blocks used that have a mark.
pub(crate) fn rebuilt(
    alloc: Global,
    image: Image,
    marks: &[Option<Mark>],
) -> Result<Image, NotValidated>
    requires marks { IsChecked image marks.now }
    requires none { ShowsNoFault image }
    ensures { (force : Bool) → MatchResult result (IsValidated image) (IsReason image force) }
{
    let blocks = image.blocks();
    prove!(blocks <= MOST_BLOCKS);
    let mut new = image;
    set_not_valid(&mut new);
    match mend(alloc, &mut new, marks) {
        Ok(()) => Ok(new),
        Err(_) => Err(NotValidated::Memory),
    }
}
