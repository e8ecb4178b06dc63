//! Where a block is: the path of the directory or file that it belongs to.

use crate::marked::role_at;
use adf_block::Image;
use adf_block::layout::NAME_BYTE;
use adf_text::letter_text;
use ados_check::Mark;
use ados_model::Role;
use ados_name::Name;
use std::alloc::{AllocError, Global};

/// The most bytes of a path, in the letters of the image. It has fewer names.
const LONGEST_PATH: usize = 4_095;

/// The path of the directory or file that a block belongs to, from the root, in letters (ISO 8859-1) with slashes. It
/// is empty for the root, and `None` for a bitmap block, a block that the walk did not reach, or a path of more than
/// 4,095 bytes.
pub fn place_of(
    alloc: Global,
    image: &Image,
    marks: &[Option<Mark>],
    block: u32,
) -> Result<Option<String>, AllocError> {
    let Some(entries) = entries_above(alloc, marks, block)? else {
        return Ok(None);
    };
    let mut path = Vec::new(alloc);
    for entry in entries.iter().rev() {
        if !path.is_empty() {
            path.push(b'/')?;
        }
        add_name(image, *entry, &mut path)?;
    }
    if path.len() > LONGEST_PATH {
        return Ok(None);
    }
    Ok(Some(letter_text(alloc, &path)?))
}

/// The name of the volume, in letters.
pub(crate) fn volume_name(alloc: Global, image: &Image) -> Result<String, AllocError> {
    let mut name = Vec::new(alloc);
    add_name(image, image.root(), &mut name)?;
    letter_text(alloc, &name)
}

/// The entry that a block belongs to, and each directory above it, without the root. `None` if these are more than a path
/// has at most.
fn entries_above(
    alloc: Global,
    marks: &[Option<Mark>],
    block: u32,
) -> Result<Option<Vec<u32>>, AllocError> {
    let mut entries = Vec::new(alloc);
    let mut here = block;
    for _ in 0..marks.len().min(LONGEST_PATH) {
        match role_at(marks, here) {
            Some(Role::Root) => return Ok(Some(entries)),
            Some(Role::Entry(dir, _)) => {
                entries.push(here)?;
                here = dir;
            }
            Some(Role::Data(file) | Role::Extension(file)) => here = file,
            Some(Role::Page) | None => return Ok(None),
        }
    }
    Ok(None)
}

/// Adds the name of a block, at most the length of a valid one.
fn add_name(image: &Image, block: u32, path: &mut Vec<u8>) -> Result<(), AllocError> {
    if block >= image.blocks() {
        return Ok(());
    }
    let length = usize::from(image.byte(block, NAME_BYTE)).min(Name::MAX_LEN);
    let start = NAME_BYTE as usize + 1;
    path.extend_from_slice(&image.block(block)[start..start + length])
}
