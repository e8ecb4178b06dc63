//! The volume of an image that has to be checked.

ghost use Rattle.ados_volume.specs.Checked.{Checks};

use crate::cache::NameCache;
use crate::listed_cache::ListedCache;
use crate::places::PlaceCache;
use crate::volume::Volume;
use adf_block::Image;
use ados_check::{Rejected, check_image};
use ados_model::{FaultKind, VolumeFault};
use std::alloc::Global;

/// Makes the volume of an image without faults. Any other image is returned unchanged, with one fault that it
/// shows.
///
/// The image is unchanged if its root says that the bitmap is valid; otherwise the bitmap is rebuilt. `NoMemory` means
/// that memory ran out, before any change.
pub fn check(alloc: Global, image: Image) -> Result<Volume, Rejected>
    ensures { Checks image result }
{
    let (Ok(places), Ok(listed)) = (PlaceCache::new(alloc), ListedCache::new(alloc)) else {
        return Err(Rejected {
            image,
            fault: VolumeFault {
                kind: FaultKind::NoMemory,
                block: 0,
            },
        });
    };
    let accepted = check_image(alloc, image)?;
    let names = NameCache::new(alloc);
    Ok(Volume::standing(
        accepted.image,
        accepted.was_validated,
        names,
        places,
        listed,
    ))
}
