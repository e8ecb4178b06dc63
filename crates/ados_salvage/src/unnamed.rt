//! Names of entries without a header.
ghost use Rattle.std.specs.Prelude.{◌≡◌, ◌<◌, IfOk};
ghost use Rattle.adf_block.specs.Image.{block_count};
ghost use Rattle.adf_block.specs.Whole.{text_at};
ghost use Rattle.ados_name.specs.Name.{IsName};

use crate::known::name_of;
use adf_block::Image;
use adf_block::layout::NAME_BYTE;
use ados_name::Name;
use itoa::Buffer;
use std::alloc::{AllocError, Global};

/// The name of a lost entry: that in its block if it is valid, else `block-` and its number.
pub(crate) fn name_of_lost(alloc: Global, image: &Image, block: u32) -> Result<Name, AllocError>
    requires { block < block_count image.now }
    ensures { IfOk result (λ name. IsName (text_at image.now block NAME_BYTE) → name ≡ text_at image.now block NAME_BYTE) }
{
    match name_of(image, block) {
        Some(name) => Ok(name),
        None => numbered_name(alloc, block),
    }
}

/// The name of an entry without a valid one: `block-` and the number of its block.
pub(crate) fn numbered_name(alloc: Global, block: u32) -> Result<Name, AllocError> {
    let mut text = Vec::from_slice(alloc, b"block-")?;
    text.extend_from_slice(Buffer::new().format(block).as_bytes())?;
    match Name::new(text.as_slice()) {
        Ok(name) => Ok(name),
        Err(_) => Ok(no_name()),
    }
}

/// A name for a block whose number is too long for one, which no number is.
fn no_name() -> Name {
    let Ok(name) = Name::new(b"block") else {
        unreachable!()
    };
    name
}
