//! A fault as text.
ghost use Rattle.std.specs.Prelude.{IfOk};
ghost use Rattle.std.specs.String.{string_bytes};
ghost use Rattle.ados_faults.specs.Explained.{TellsOfBlock};

use crate::marked::role_at;
use crate::path::{place_of, volume_name};
use crate::texts::BadBlock;
use crate::values::values_of;
use adf_block::Image;
use ados_check::Mark;
use ados_model::VolumeFault;
use std::alloc::{AllocError, Global};

/// A fault as text: the block, the path of the directory or file that it belongs to, if one is known, what was found
/// and what would be right. `marks` are those of the walk over the image, and `seconds` its second places. Without these
/// the text of a block that is used twice names only one of the places.
pub fn explain(
    alloc: Global,
    image: &Image,
    marks: &[Option<Mark>],
    seconds: &[Option<Mark>],
    fault: &VolumeFault,
) -> Result<String, AllocError>
    ensures { IfOk result (λ text. TellsOfBlock fault.now.block (string_bytes text)) }
{
    let block = fault.block;
    if block >= image.blocks() {
        return format!(in alloc; "block {block}: the image has no such block");
    }
    let bad = BadBlock {
        image,
        marks,
        seconds,
        block,
        role: role_at(marks, block),
    };
    let what = bad.text(alloc, fault.kind, values_of(image, marks, fault))?;
    let Some(path) = place_of(alloc, image, marks, block)? else {
        return format!(in alloc; "block {block}: {what}");
    };
    if path.is_empty() {
        return format!(in alloc; "block {block}, the root: {what}");
    }
    let volume = volume_name(alloc, image)?;
    format!(in alloc; "block {block}, in {volume}:{path}: {what}")
}
