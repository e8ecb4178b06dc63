//! Another entry with the name of an entry.
use crate::marked::role_at;
use adf_block::Image;
use adf_block::layout::{BOOT_BLOCKS, FEWEST_BLOCKS};
use ados_check::{Mark, Source, UPPER_BYTES, has_short_name, upper_name};
use ados_model::Role;

/// The first other entry of the same directory with the name of this one, by the roles of the marks.
pub(crate) fn same_named(image: &Image, marks: &[Option<Mark>], block: u32) -> Option<u32> {
    let Some(Role::Entry(dir, _)) = role_at(marks, block) else {
        return None;
    };
    let name = name_at(image, block)?;
    for other in BOOT_BLOCKS..image.blocks() {
        let is_beside = matches!(role_at(marks, other), Some(Role::Entry(of, _)) if of == dir);
        if other != block && is_beside && name_at(image, other) == Some(name) {
            return Some(other);
        }
    }
    None
}

/// The name of a block in the form for comparison, if it has at most 30 bytes.
fn name_at(image: &Image, block: u32) -> Option<[u8; UPPER_BYTES]> {
    prove!(image.blocks() >= FEWEST_BLOCKS);
    let source = Source::whole(image);
    if block >= image.blocks() || !has_short_name(&source, block) {
        return None;
    }
    Some(upper_name(&source, block))
}
