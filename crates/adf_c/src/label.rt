//! The label of a volume for C, whether the check accepts its image or not.

ghost use Rattle.adf_c.specs.Telling.{LabelEnds};

use crate::values::{label_of, put};
use std::alloc::Global;

/// The label of a volume: the name in the root block of its image, whatever else is wrong there. The status is 0.
///
/// Status 1: the bytes are not whole blocks, too few or too many. Status 2: out of memory. Status 3: there is no valid name.
/// In these cases `to` and `length` are unchanged.
#[unsafe(no_mangle)]
pub extern "C" fn jip_lib_label(
    alloc: Global,
    bytes: &[u8],
    to: &mut [u8],
    length: &mut usize,
) -> i32
    ensures { LabelEnds bytes.now to.old to.new length.old length.new result }
{
    match label_of(alloc, bytes) {
        Ok(name) => {
            *length = put(name.bytes(), to);
            0
        }
        Err(refusal) => refusal.number(),
    }
}
