//! The places that name a block, in the words of the file system; and the second place of a block that is used twice.
ghost use Rattle.std.specs.Prelude.{◌<◌};
ghost use Rattle.adf_block.specs.Image.{block_count};

use crate::marked::{mark_at, role_at};
use crate::walk::is_other_place;
use adf_block::Image;
use adf_block::layout::*;
use ados_check::{Mark, Source, place_role};
use ados_model::Role;
use std::alloc::{AllocError, Global};

/// A place of a block: its index among the pointers or slots there, and what it leads to.
pub(crate) fn place_text(
    alloc: Global,
    image: &Image,
    marks: &[Option<Mark>],
    holder: u32,
    long: u32,
) -> Result<String, AllocError> {
    if long == NEXT_IN_CHAIN {
        return String::from_str(alloc, "next entry");
    }
    if long == NEXT_EXTENSION {
        return String::from_str(alloc, "extension block");
    }
    if long >= FIRST_PAGE {
        return format!(in alloc; "bitmap block {}", long.saturating_sub(FIRST_PAGE) + 1);
    }
    let has_slots = match role_at(marks, holder) {
        Some(Role::Root) => true,
        Some(Role::Entry(_, _)) => {
            holder < image.blocks() && image.long(holder, SECONDARY_TYPE) == DIRECTORY_TYPE
        }
        _ => false,
    };
    if has_slots {
        return format!(in alloc; "hash slot {}", long.saturating_sub(FIRST_SLOT));
    }
    format!(in alloc; "pointer {}", FIRST_POINTER.saturating_sub(long) + 1)
}

/// For each block that two places name, one that is not the place of its mark. `marks` are those of the walk over the
/// image. A block that only a block in another role than that of its mark names twice has none.
pub fn second_places(
    alloc: Global,
    image: &Image,
    marks: &[Option<Mark>],
) -> Result<Vec<Option<Mark>>, AllocError> {
    let mut seconds = Vec::from_elem(alloc, None, image.blocks() as usize)?;
    for holder in BOOT_BLOCKS..image.blocks() {
        if let Some(role) = role_at(marks, holder) {
            note_places(image, marks, holder, role, &mut seconds);
        }
    }
    Ok(seconds)
}

/// Notes the places of a block in a role: each that is the first one of a block not to be that of the block's mark.
fn note_places(
    image: &Image,
    marks: &[Option<Mark>],
    holder: u32,
    role: Role,
    seconds: &mut [Option<Mark>],
)
    requires { holder < block_count image.now }
{
    let source = Source::whole(image);
    for long in FIRST_SLOT..SECONDARY_TYPE {
        let Some(role) = place_role(&source, holder, role, long) else {
            continue;
        };
        let block = image.long(holder, long);
        let place = Mark { role, holder, long };
        let Some(first) = mark_at(marks, block) else {
            continue;
        };
        match seconds.get_mut(block as usize) {
            Some(second) if second.is_none() && is_other_place(first, place) => {
                *second = Some(place);
            }
            _ => {}
        }
    }
}
