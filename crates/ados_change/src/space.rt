//! Room for a file's bytes.

ghost use Rattle.std.specs.Prelude.{◌≡◌, MatchBool};
ghost use Rattle.ados_map.specs.Pages.{NoneFreeBelow};
ghost use Rattle.ados_data.specs.Changing.{HasFree};
ghost use Rattle.ados_model.specs.Keys.{HasFileKey, HasTree};
ghost use Rattle.ados_model.specs.Stands.{Stands};
ghost use Rattle.ados_model.specs.Tree.{Tree, size_of};

use adf_block::Image;
use adf_block::layout::FILE_SIZE;
use ados_data::blocks_of;
use ados_map::has_free;

/// The size of a file, in bytes.
pub fn size_of(image: &Image, file: u32) -> u32
    requires tree { HasTree image.now }
    requires file { HasFileKey image.now file }
    ensures { (t : Tree) → Stands image.now t → result ≡ size_of t file }
{
    image.long(file, FILE_SIZE)
}

/// Whether enough blocks are free for the file to have `size` bytes. No block below `from` may be free.
pub fn has_room(image: &Image, file: u32, size: u64, from: u32) -> bool
    requires tree { HasTree image.now }
    requires file { HasFileKey image.now file }
    requires below { NoneFreeBelow image.now from }
    ensures { MatchBool result (HasFree image.now file size) (¬ HasFree image.now file size) }
{
    let format = image.format();
    let held = blocks_of(format, size_of(image, file) as u64);
    has_free(image, from, blocks_of(format, size).saturating_sub(held))
}
