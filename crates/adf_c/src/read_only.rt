//! Handles that are opened read-only: packets that would change the disk are refused.

ghost use Rattle.std.specs.Prelude.{◌≡◌, true};
ghost use Rattle.ados_model.specs.Packet.{failure_of as failure, handed_back as returned};
ghost use Rattle.adf_c.specs.Calls.{OpenEnds};
ghost use Rattle.adf_c.specs.ReadOnly.{GivesReadOnly, of_protected_disk, protected_answer, protected_body as body_of_protected};

use crate::handle::JipHandle;
use crate::open::open;
use crate::values::{JipFault, status};
use ados_handler::Handler;
use ados_model::{Answer, Body, DiskInfo, Packet};
use ados_name::Date3;
use std::alloc::Global;

/// The DOS error of a write-protected disk.
const DISK_IS_PROTECTED: i32 = 214;

/// The state of a write-protected disk.
const WRITE_PROTECTED: u32 = 80;

/// Opens a handle as `jip_lib_open` does, but read-only: its image never changes. A packet that would set the disk date
/// is refused with 214 (disk is write protected), after every other refusal but 221 (disk is full) and 103 (out of
/// memory). DISK_INFO and INFO have state 80.
#[unsafe(no_mangle)]
pub extern "C" fn jip_lib_open_read_only(
    alloc: Global,
    bytes: &[u8],
    handle: &mut JipHandle,
    fault: &mut JipFault,
) -> i32
    ensures { OpenEnds true bytes.now handle.old.held handle.new.held fault.old fault.new result }
{
    status(open(alloc, bytes, true, handle, fault))
}

/// Serves a packet as a read-only handle does.
pub(crate) fn serve_read_only(handler: &mut Handler, packet: Packet, moment: Date3) -> Answer
    ensures { GivesReadOnly handler.old packet moment handler.new result }
{
    if handler.would_write(&packet) {
        return refused(packet);
    }
    with_protected_disk(handler.serve(packet, moment))
}

/// The answer to a packet that the write protection of the disk refuses.
fn refused(packet: Packet) -> Answer
    ensures { result ≡ protected_answer packet }
{
    let action = packet.action();
    let res1 = failure_of(&packet);
    Answer {
        action,
        res1,
        res2: DISK_IS_PROTECTED,
        body: handed_back(packet),
    }
}

/// The first result of a refusal.
fn failure_of(packet: &Packet) -> i32
    ensures { result ≡ failure packet.now }
{
    match packet {
        Packet::Read { .. } | Packet::Write { .. } | Packet::Seek { .. } => -1,
        _ => 0,
    }
}

/// What a refusal returns: the packet's own buffer, if it has one.
fn handed_back(packet: Packet) -> Body
    ensures { result ≡ returned packet }
{
    match packet {
        Packet::Read { buffer, .. } => Body::Buffer(buffer),
        Packet::Write { bytes, .. } => Body::Buffer(bytes),
        _ => Body::Empty,
    }
}

/// The answer with the state of a write-protected disk, if it describes the disk.
fn with_protected_disk(answer: Answer) -> Answer
    ensures { result ≡ of_protected_disk answer }
{
    let Answer {
        action,
        res1,
        res2,
        body,
    } = answer;
    Answer {
        action,
        res1,
        res2,
        body: protected_body(body),
    }
}

fn protected_body(body: Body) -> Body
    ensures { result ≡ body_of_protected body }
{
    match body {
        Body::Disk(info) => Body::Disk(DiskInfo {
            state: WRITE_PROTECTED,
            ..info
        }),
        other => other,
    }
}
