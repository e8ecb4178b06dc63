//! Handles are opened on the bytes of an image or on a blank volume, and closed.

ghost use Rattle.std.specs.Prelude.{◌≡◌, ◌≢◌, pos, false, None};
ghost use Rattle.std.specs.Option.{MatchOption};
ghost use Rattle.adf_c.specs.Calls.{BlankComes, BlankEnds, OpenComes, OpenEnds, SeatComes, format_number};
ghost use Rattle.adf_c.specs.Dates.{date_of};

use crate::desk::Desk;
use crate::handle::{Holder, JipHandle};
use crate::values::{JipDate, JipFault, Refusal, status};
use adf_block::{Format, Image, size_ok};
use ados_handler::Handler;
use ados_model::FaultKind;
use ados_name::{Date3, Name};
use ados_volume::{Volume, blank, check};
use std::alloc::Global;

/// Opens a handle on a copy of these bytes, if they are an image that the check accepts. The status is 0, and the
/// bytes are not used afterwards.
///
/// Status 1: the bytes are no such image, and `fault` is a fault that they show. Status 2: out of memory. Status 3:
/// the handle is open already. In these cases the handle is unchanged; the fault too, except with status 1.
#[unsafe(no_mangle)]
pub extern "C" fn jip_lib_open(
    alloc: Global,
    bytes: &[u8],
    handle: &mut JipHandle,
    fault: &mut JipFault,
) -> i32
    ensures { OpenEnds false bytes.now handle.old.held handle.new.held fault.old fault.new result }
{
    status(open(alloc, bytes, false, handle, fault))
}

/// Opens a handle as `jip_lib_open` does, read-only or not.
pub(crate) fn open(
    alloc: Global,
    bytes: &[u8],
    read_only: bool,
    handle: &mut JipHandle,
    fault: &mut JipFault,
) -> Result<(), Refusal>
    ensures { OpenComes read_only bytes.now handle.old.held handle.new.held fault.old fault.new result }
{
    if handle.is_open(alloc) {
        return Err(Refusal::WrongArgument);
    }
    let Ok(copy) = Vec::from_slice(alloc, bytes) else {
        return Err(Refusal::NoMemory);
    };
    let image = match Image::from_bytes(copy) {
        Ok(image) => image,
        Err(refused) => {
            *fault = JipFault::of_size(refused.fault);
            return Err(Refusal::NotAnImage);
        }
    };
    let volume = match check(alloc, image) {
        Ok(volume) => volume,
        Err(rejected) => {
            if rejected.fault.kind == FaultKind::NoMemory {
                return Err(Refusal::NoMemory);
            }
            *fault = JipFault::of_volume(rejected.fault);
            return Err(Refusal::NotAnImage);
        }
    };
    seat(alloc, handle, volume, read_only)
}

/// Opens a handle on a blank volume, as `ados_volume::blank` makes it. The format is 0 for OFS and 1 for FFS. The
/// status is 0.
///
/// Status 2: out of memory. Status 3: another format, fewer than 16 or more than 101,602 blocks, a text that is not a
/// name, or a handle that is open already. In these cases the handle is unchanged.
#[unsafe(no_mangle)]
pub extern "C" fn jip_lib_blank(
    alloc: Global,
    format: i32,
    blocks: u32,
    name: &[u8],
    moment: &JipDate,
    handle: &mut JipHandle,
) -> i32
    ensures { BlankEnds format blocks name.now (date_of moment.now) handle.old.held handle.new.held result }
{
    status(open_blank(alloc, format, blocks, name, moment.date(), handle))
}

fn open_blank(
    alloc: Global,
    format: i32,
    blocks: u32,
    name: &[u8],
    moment: Date3,
    handle: &mut JipHandle,
) -> Result<(), Refusal>
    ensures { BlankComes format blocks name.now moment handle.old.held handle.new.held result }
{
    let Some(format) = format_of_number(format) else {
        return Err(Refusal::WrongArgument);
    };
    let Ok(name) = Name::new(name) else {
        return Err(Refusal::WrongArgument);
    };
    if !size_ok(blocks) {
        return Err(Refusal::WrongArgument);
    }
    if handle.is_open(alloc) {
        return Err(Refusal::WrongArgument);
    }
    let Ok(volume) = blank(alloc, format, blocks, name, moment) else {
        return Err(Refusal::NoMemory);
    };
    seat(alloc, handle, volume, false)
}

/// The format with a number: 0 is OFS, 1 is FFS.
fn format_of_number(number: i32) -> Option<Format>
    ensures { MatchOption result ((number ≢ pos 0) × (number ≢ pos 1)) (λ format. number ≡ pos (format_number format)) }
{
    match number {
        0 => Some(Format::Ofs),
        1 => Some(Format::Ffs),
        _ => None,
    }
}

/// Opens the handle with a desk over the volume.
fn seat(
    alloc: Global,
    handle: &mut JipHandle,
    volume: Volume,
    read_only: bool,
) -> Result<(), Refusal>
    ensures { SeatComes read_only volume.image volume.was_validated handle.old.held handle.new.held result }
{
    let desk = Desk {
        handler: Handler::new(alloc, volume),
        changes: 0,
        read_only,
    };
    let Ok(desk) = Box::new(alloc, desk) else {
        return Err(Refusal::NoMemory);
    };
    handle.put(desk);
    Ok(())
}

/// Closes the handle and frees everything that it owns. A closed handle stays closed. The status is 0.
#[unsafe(no_mangle)]
pub extern "C" fn jip_lib_close(alloc: Global, handle: &mut JipHandle) -> i32
    ensures status { result ≡ pos 0 }
    ensures closed { handle.new.held ≡ None }
{
    drop(handle.take(alloc));
    0
}
