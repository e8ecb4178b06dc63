//! The image that the check mends, and the mended one.
ghost use Rattle.std.specs.Prelude.{◌≡◌, MatchResult, Bool};
ghost use Rattle.adf_block.specs.Frame.{SameBut};
ghost use Rattle.adf_block.specs.Image.{block_sum};
ghost use Rattle.adf_block.specs.Whole.{IsImage};
ghost use Rattle.ados_map.specs.Changes.{InPages};
ghost use Rattle.ados_map.specs.Pages.{LawfulPages, pages_of};
ghost use Rattle.ados_validate.specs.Answer.{IsReason};
ghost use Rattle.ados_validate.specs.Mendable.{ShowsOnlyMendable};
ghost use Rattle.ados_validate.specs.Validated.{IsValidated};
ghost use Rattle.ados_validate.specs.steps.Settled.{HaveSums, IsRootMark, IsSettled};
ghost use Rattle.ados_model.specs.Faults.{root_of};
ghost use Rattle.ados_model.specs.Rebuilt.{HasValidBitmap};

use crate::answer::NotValidated;
use crate::laws::lawful_pages;
use adf_block::beside::{CHECKSUM, PAGE_CHECKSUM};
use adf_block::layout::{BITMAP_FLAG, FIRST_PAGE, MOST_BLOCKS};
use adf_block::{Image, page_count};
use ados_check::check_image;
use ados_model::FaultKind;
use std::alloc::Global;

/// The value of the root's flag for a bitmap that is not valid.
const NOT_VALID: u32 = 0;

/// The image with a new bitmap.
pub(crate) fn mended(alloc: Global, image: Image) -> Result<Image, NotValidated>
    requires { ShowsOnlyMendable image }
    ensures { (force : Bool) → MatchResult result (IsValidated image) (IsReason image force) }
{
    prove!(image.blocks() <= MOST_BLOCKS);
    lawful_pages();
    let mut settled = image;
    settle(&mut settled);
    match check_image(alloc, settled) {
        Ok(accepted) => Ok(accepted.image),
        Err(rejected) => match rejected.fault.kind {
            FaultKind::NoMemory => Err(NotValidated::Memory),
            // The settled image shows no fault.
            _ => unreachable!(),
        },
    }
}

/// Makes the checksums of the bitmap blocks right, and marks the bitmap as not valid.
fn settle(image: &mut Image)
    requires { LawfulPages image.old }
    ensures { IsSettled image.old image.new }
{
    settle_pages(image);
    set_not_valid(image);
}

/// Marks the bitmap as not valid.
pub(crate) fn set_not_valid(image: &mut Image)
    ensures not_valid { ¬ HasValidBitmap image.new }
    ensures sum { block_sum image.new (root_of image.old) ≡ 0 }
    ensures rest { SameBut (IsRootMark image.old) image.old image.new }
    ensures image { IsImage image.new }
{
    prove!(image.blocks() >= 16);
    let root = image.root();
    image.set_long(root, BITMAP_FLAG, NOT_VALID);
    image.settle(root, CHECKSUM);
}

/// Makes the checksums of the bitmap blocks right.
fn settle_pages(image: &mut Image)
    requires { LawfulPages image.old }
    ensures rest { SameBut (InPages image.old) image.old image.new }
    ensures sums { HaveSums image.old image.new (pages_of image.old) }
{
    prove!(image.blocks() <= MOST_BLOCKS);
    let root = image.root();
    for p in 0..page_count(image.blocks()) {
        let page = image.long(root, FIRST_PAGE + p);
        image.settle(page, PAGE_CHECKSUM);
    }
}
