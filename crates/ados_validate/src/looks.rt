//! What a bitmap block looks like by its types.
ghost use Rattle.std.specs.Prelude.{◌<◌, ◌↔◌, IsTrue, MatchOption};
ghost use Rattle.ados_map.specs.Pages.{page_block, pages_of};
ghost use Rattle.ados_validate.specs.Cautions.{HasLook, IsHeaderType};
ghost use Rattle.ados_validate.specs.declared.caution.Look.{Look};

use crate::caution::Look;
use crate::old_bitmap::OldBitmap;
use adf_block::layout::{
    DATA_TYPE, DIRECTORY_TYPE, FILE_TYPE, HEADER_TYPE, LIST_TYPE, PRIMARY_TYPE, ROOT_TYPE,
    SECONDARY_TYPE,
};

/// What bitmap block `p` looked like, or none.
pub(crate) fn look_of(old: &OldBitmap, p: u32) -> Option<Look>
    requires { p < pages_of old.now }
    ensures { MatchOption result ((look : Look) → ¬ HasLook old.now (page_block old.now p) look) (HasLook old.now (page_block old.now p)) }
{
    let primary = old.long(p, PRIMARY_TYPE);
    let secondary = old.long(p, SECONDARY_TYPE);
    if primary == HEADER_TYPE && is_header_type(secondary) {
        Some(Look::Header)
    } else if primary == LIST_TYPE && secondary == FILE_TYPE {
        Some(Look::Extension)
    } else if primary == DATA_TYPE {
        Some(Look::Data)
    } else {
        None
    }
}

/// Whether this is the type of the root, a directory or a file.
fn is_header_type(secondary: u32) -> bool
    ensures { IsTrue result ↔ IsHeaderType secondary }
{
    secondary == ROOT_TYPE || secondary == DIRECTORY_TYPE || secondary == FILE_TYPE
}
