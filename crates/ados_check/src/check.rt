//! The whole check.
ghost use Rattle.std.specs.Prelude.{◌≡◌, IfOk, IfSome, MatchResult};
ghost use Rattle.adf_block.specs.Image.{bytes_at};
ghost use Rattle.adf_block.specs.Fields.{format_of};
ghost use Rattle.ados_model.specs.Tree.{Tree};
ghost use Rattle.ados_model.specs.Stands.{Stands};
ghost use Rattle.ados_model.specs.Phrases.{kind_bytes};
ghost use Rattle.ados_model.specs.Accepted.{IsRefusal, ShowsNoFault};
ghost use Rattle.ados_check.specs.Marks.{IsChecked};
ghost use Rattle.ados_check.specs.Answer.{AcceptsOrHandsBack};

use crate::accept::{Accepted, Rejected, accept_checked};
use crate::bitmap::has_sound_bitmap;
use crate::entries::check_files;
use crate::file_system::check_kind;
use crate::mark::Mark;
use crate::names::check_names;
use crate::reaching::reach;
use crate::source::Source;
use adf_block::Image;
use ados_model::VolumeFault;
use std::alloc::Global;

/// Accepts an image without faults. An error returns the unchanged image with one fault that it shows.
///
/// An accepted image represents a tree. It is unchanged if its root says that the bitmap is valid; otherwise the
/// bitmap is rebuilt. `NoMemory` means that a list of the check could not be allocated, before any change.
pub fn check_image(alloc: Global, image: Image) -> Result<Accepted, Rejected>
    ensures answer { AcceptsOrHandsBack image result }
    ensures stands { IfOk result (λ accepted. (t : Tree) × Stands accepted.image t) }
{
    match checked_marks(alloc, &image) {
        Ok(marks) => accept_checked(alloc, image, &marks),
        Err(fault) => Err(Rejected { image, fault }),
    }
}

/// The first place that names each block, of an image that shows no fault. Its bitmap may be one that is not valid.
///
/// `None` decides nothing: the image may show a fault, or there was no memory.
pub fn faultless_marks(alloc: Global, image: &Image) -> Option<Vec<Option<Mark>>>
    ensures { IfSome result (λ marks. IsChecked image.now marks.items × ShowsNoFault image.now) }
{
    match checked_marks(alloc, image) {
        Ok(marks) if has_sound_bitmap(&Source::whole(image), &marks) => Some(marks),
        _ => None,
    }
}

/// The marks of all reached blocks, if only the bitmap may still have a fault.
fn checked_marks(alloc: Global, image: &Image) -> Result<Vec<Option<Mark>>, VolumeFault>
    ensures { MatchResult result (λ marks. IsChecked image.now marks.items) (λ fault. IsRefusal image.now fault) }
{
    check_kind(image)?;
    sound_marks(alloc, &Source::whole(image))
}

/// The same for a source whose first bytes name OFS or FFS.
pub(crate) fn sound_marks(
    alloc: Global,
    source: &Source<'_>,
) -> Result<Vec<Option<Mark>>, VolumeFault>
    requires { bytes_at source.now.bytes 0 0 4 ≡ kind_bytes (format_of source.now.bytes) }
    ensures { MatchResult result (λ marks. IsChecked source.now.bytes marks.items) (λ fault. IsRefusal source.now.bytes fault) }
{
    let marks = reach(alloc, source)?;
    check_files(source, &marks)?;
    check_names(alloc, source, &marks)?;
    Ok(marks)
}
