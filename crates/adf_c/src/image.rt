//! The image of a handle for C: its length, its bytes and its count of changes.

ghost use Rattle.std.specs.Prelude.{◌≡◌, length};
ghost use Rattle.std.specs.Option.{MatchOption};
ghost use Rattle.adf_c.specs.Ends.{Comes};
ghost use Rattle.adf_c.specs.Calls.{CopiesBytes, CopyComes, CopyEnds, RefusesBytes};

use crate::handle::{Holder, JipHandle};
use crate::values::{Refusal, status};
use std::alloc::Global;

/// The length of the image in bytes; 0 for a closed handle.
#[unsafe(no_mangle)]
pub extern "C" fn jip_lib_image_length(alloc: Global, handle: &mut JipHandle) -> usize
    ensures length { MatchOption handle.old.held (result ≡ 0) (λ desk. result ≡ length desk.handler.image) }
    ensures same { handle.new.held ≡ handle.old.held }
{
    let Some(desk) = handle.take(alloc) else {
        return 0;
    };
    let length = desk.handler.volume().image().as_bytes().len();
    handle.put(desk);
    length
}

/// A count that grows with each packet that changed the image, and possibly with others; 0 for a closed handle. While
/// it is the same, so is the image.
#[unsafe(no_mangle)]
pub extern "C" fn jip_lib_changes(alloc: Global, handle: &mut JipHandle) -> u64
    ensures count { MatchOption handle.old.held (result ≡ 0) (λ desk. result ≡ desk.changes) }
    ensures same { handle.new.held ≡ handle.old.held }
{
    let Some(desk) = handle.take(alloc) else {
        return 0;
    };
    let changes = desk.changes;
    handle.put(desk);
    changes
}

/// Copies the image to `to`, which must have the same length. The status is 0.
///
/// Status 3: another length, or a closed handle; `to` is unchanged.
#[unsafe(no_mangle)]
pub extern "C" fn jip_lib_copy_image(alloc: Global, handle: &mut JipHandle, to: &mut [u8]) -> i32
    ensures copies { CopyEnds handle.old.held to.old to.new result }
    ensures same { handle.new.held ≡ handle.old.held }
{
    status(copy_image(alloc, handle, to))
}

fn copy_image(alloc: Global, handle: &mut JipHandle, to: &mut [u8]) -> Result<(), Refusal>
    ensures copies { CopyComes handle.old.held to.old to.new result }
    ensures same { handle.new.held ≡ handle.old.held }
{
    let Some(desk) = handle.take(alloc) else {
        return Err(Refusal::WrongArgument);
    };
    let outcome = copy_bytes(desk.handler.volume().image().as_bytes(), to);
    handle.put(desk);
    outcome
}

/// Copies bytes into a buffer of the same length.
fn copy_bytes(bytes: &[u8], to: &mut [u8]) -> Result<(), Refusal>
    ensures { Comes (CopiesBytes bytes.now to.old to.new) (RefusesBytes bytes.now to.old to.new) result }
{
    if bytes.len() != to.len() {
        return Err(Refusal::WrongArgument);
    }
    to.copy_from_slice(bytes);
    Ok(())
}
