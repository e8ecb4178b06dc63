//! The result for an image with sound blocks and files.
ghost use Rattle.std.specs.Prelude.{IfOk};
ghost use Rattle.ados_model.specs.Tree.{Tree};
ghost use Rattle.ados_model.specs.Stands.{Stands};
ghost use Rattle.ados_model.specs.Rebuilt.{HasValidBitmap};
ghost use Rattle.ados_check.specs.Marks.{IsChecked};
ghost use Rattle.ados_check.specs.Answer.{AcceptsOrHandsBack};

use crate::bitmap::{has_valid_bitmap, mend, reached_and_free};
use crate::mark::Mark;
use crate::source::Source;
use adf_block::Image;
use ados_model::{FaultKind, VolumeFault};
use std::alloc::Global;

/// An image that represents a tree, and whether its bitmap was rebuilt.
#[derive(Drop)]
pub struct Accepted {
    pub image: Image,
    pub was_validated: bool,
}

/// An image with a fault, or one for which there was no memory. It is unchanged.
#[derive(Drop)]
pub struct Rejected {
    pub image: Image,
    pub fault: VolumeFault,
}

/// Accepts an image with sound blocks and files, unless a reached block is marked free. If the root says that the
/// bitmap is not valid, it is rebuilt from the marks. All memory for this is allocated before the first change.
pub fn accept_checked(
    alloc: Global,
    image: Image,
    marks: &[Option<Mark>],
) -> Result<Accepted, Rejected>
    requires { IsChecked image marks.now }
    ensures answer { AcceptsOrHandsBack image result }
    ensures stands { IfOk result (λ accepted. (t : Tree) × Stands accepted.image t) }
{
    if has_valid_bitmap(&Source::whole(&image)) {
        accept_valid(image, marks)
    } else {
        accept_mended(alloc, image, marks)
    }
}

/// Accepts an image with a valid bitmap as it is, unless a reached block is marked free.
fn accept_valid(image: Image, marks: &[Option<Mark>]) -> Result<Accepted, Rejected>
    requires checked { IsChecked image marks.now }
    requires valid { HasValidBitmap image }
    ensures answer { AcceptsOrHandsBack image result }
    ensures stands { IfOk result (λ accepted. (t : Tree) × Stands accepted.image t) }
{
    match reached_and_free(&Source::whole(&image), marks) {
        None => Ok(Accepted {
            image,
            was_validated: false,
        }),
        Some(block) => {
            let fault = VolumeFault {
                kind: FaultKind::MarkedFree,
                block,
            };
            Err(Rejected { image, fault })
        }
    }
}

/// Accepts an image without a valid bitmap, and rebuilds the bitmap.
fn accept_mended(alloc: Global, image: Image, marks: &[Option<Mark>]) -> Result<Accepted, Rejected>
    requires checked { IsChecked image marks.now }
    requires not_valid { ¬ HasValidBitmap image }
    ensures answer { AcceptsOrHandsBack image result }
    ensures stands { IfOk result (λ accepted. (t : Tree) × Stands accepted.image t) }
{
    let mut image = image;
    match mend(alloc, &mut image, marks) {
        Ok(()) => Ok(Accepted {
            image,
            was_validated: true,
        }),
        Err(_) => {
            let fault = VolumeFault {
                kind: FaultKind::NoMemory,
                block: 0,
            };
            Err(Rejected { image, fault })
        }
    }
}
