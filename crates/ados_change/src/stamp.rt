//! The time stamp of a change.

ghost use Rattle.ados_model.specs.Keys.{HasFileKey, HasTree};
ghost use Rattle.ados_change.specs.Renewed.{IsStamped};

use crate::node::{put_protection, stamp_disk, touch};
use adf_block::Image;
use adf_block::layout::PROTECTION;
use ados_name::{Date3, Protect};

/// Sets the date of a file and the disk date to `moment`, and clears the file's archive bit.
pub fn stamp(image: &mut Image, file: u32, moment: Date3)
    requires tree { HasTree image.old }
    requires file { HasFileKey image.old file }
    ensures { IsStamped moment image.old file image.new }
{
    let bits = Protect(image.long(file, PROTECTION));
    put_protection(image, file, bits.without_archive());
    touch(image, file, moment);
    stamp_disk(image, moment);
}
