//! The bitmap written anew.
ghost use Rattle.ados_check.specs.Marks.{IsChecked};
ghost use Rattle.ados_validate.specs.Answer.{Validates};
ghost use Rattle.ados_validate.specs.Validated.{IsValidated};
ghost use Rattle.ados_model.specs.Accepted.{ShowsNoFault};

use crate::answer::{NotValidated, Validated};
use crate::cautions::first_caution;
use crate::counting::changed_marks;
use crate::laws::lawful_pages;
use crate::mendable::refuse_other_faults;
use crate::old_bitmap::OldBitmap;
use crate::rebuilt::rebuilt;
use crate::settled::mended;
use adf_block::Image;
use ados_check::{Mark, faultless_marks};
use std::alloc::Global;

/// The image with a new bitmap, which marks exactly the blocks used that something names. It is written in place: an error
/// returns no image.
///
/// An image is refused if it shows another fault than a reached block that is marked free, or a bitmap block with a wrong
/// checksum. Unless forced, it is also refused if something may be lost with the old bitmap.
pub fn validate(alloc: Global, image: Image, force: bool) -> Result<Validated, NotValidated>
    ensures { Validates image force result }
{
    match faultless_marks(alloc, &image) {
        Some(marks) => validate_faultless(alloc, image, &marks, force),
        None => validate_faulty(alloc, image, force),
    }
}

/// The same for an image without faults, by the places that name its blocks.
fn validate_faultless(
    alloc: Global,
    image: Image,
    marks: &[Option<Mark>],
    force: bool,
) -> Result<Validated, NotValidated>
    requires marks { IsChecked image marks.now }
    requires none { ShowsNoFault image }
    ensures { Validates image force result }
{
    let Ok(old) = OldBitmap::of(alloc, &image) else {
        return Err(NotValidated::Memory);
    };
    let new = rebuilt(alloc, image, marks)?;
    answer_for(&old, new, force)
}

/// The same for an image that may show faults.
fn validate_faulty(alloc: Global, image: Image, force: bool) -> Result<Validated, NotValidated>
    ensures { Validates image force result }
{
    refuse_other_faults(alloc, &image)?;
    let Ok(old) = OldBitmap::of(alloc, &image) else {
        return Err(NotValidated::Memory);
    };
    let new = mended(alloc, image)?;
    answer_for(&old, new, force)
}

/// The answer for an image with a new bitmap.
fn answer_for(old: &OldBitmap, new: Image, force: bool) -> Result<Validated, NotValidated>
    requires { IsValidated old.now new }
    ensures { Validates old.now force result }
{
    lawful_pages();
    if !force {
        if let Some(caution) = first_caution(old, &new) {
            return Err(NotValidated::Asks(caution));
        }
    }
    let (were_free, were_used) = changed_marks(old, &new);
    Ok(Validated {
        image: new,
        were_free,
        were_used,
    })
}
