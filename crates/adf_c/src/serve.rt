//! `jip_lib_serve`: one packet, one answer.

ghost use Rattle.std.specs.Prelude.{◌≡◌, ◌↔◌, IsTrue};
ghost use Rattle.ados_name.specs.Path.{IsPathText};
ghost use Rattle.adf_c.specs.Calls.{LoadComes, ServeEnds};
ghost use Rattle.adf_c.specs.Spelling.{carried};
ghost use Rattle.adf_c.specs.Answers.{fills as fills_buffer, handed_back};

use crate::handle::{Holder, JipHandle};
use crate::packet::JipPacket;
use crate::values::{JipAnswer, Refusal};
use ados_model::{Action, Body, Buffer, Packet};
use ados_name::PathText;
use std::alloc::Global;

/// Serves one packet: that of the struct with these texts, `bytes` for a WRITE and `buffer` for a READ, at the
/// struct's time stamp. It fills the answer. The status is 0.
///
/// The answer's two results say whether the packet was refused, such as 209 for an unknown action. Only a READ changes
/// the buffer.
///
/// Status 2: no memory for a copy of the texts, the bytes or the buffer. Status 3: a text longer than 255 bytes, or a
/// closed handle. In these cases the handle, the buffer and the answer are unchanged.
#[unsafe(no_mangle)]
pub extern "C" fn jip_lib_serve(
    alloc: Global,
    handle: &mut JipHandle,
    packet: &JipPacket,
    path: &[u8],
    text: &[u8],
    bytes: &[u8],
    buffer: &mut [u8],
    answer: &mut JipAnswer,
) -> i32
    ensures { ServeEnds handle.old.held handle.new.held packet.now path.now text.now bytes.now buffer.old buffer.new answer.old answer.new result }
{
    let action = packet.kind();
    let load = match load(alloc, action, path, text, bytes, buffer) {
        Ok(load) => load,
        Err(refusal) => return refusal.number(),
    };
    let Ok(spelled) = packet.packet(alloc, action, path, text, load) else {
        return Refusal::NoMemory.number();
    };
    let Some(mut desk) = handle.take(alloc) else {
        return Refusal::WrongArgument.number();
    };
    let fills = fills(&spelled);
    let answered = desk.serve(spelled, packet.moment.date());
    if fills {
        hand_back(&answered.body, buffer);
    }
    *answer = JipAnswer::of(&answered);
    handle.put(desk);
    0
}

/// The bytes of this action's packet, if its texts fit.
fn load(
    alloc: Global,
    action: Action,
    path: &[u8],
    text: &[u8],
    bytes: &[u8],
    buffer: &[u8],
) -> Result<Buffer, Refusal>
    ensures { LoadComes action path.now text.now bytes.now buffer.now result }
{
    if !fits(path) {
        return Err(Refusal::WrongArgument);
    }
    if !fits(text) {
        return Err(Refusal::WrongArgument);
    }
    let Ok(load) = Vec::from_slice(alloc, carried_by(action, bytes, buffer)) else {
        return Err(Refusal::NoMemory);
    };
    Ok(Buffer::from_vec(load))
}

/// Whether a text fits into a packet: at most 255 bytes.
fn fits(text: &[u8]) -> bool
    ensures { IsTrue result ↔ IsPathText text.now }
{
    text.len() <= PathText::MAX_LEN
}

/// The bytes of this action's packet: the buffer for a READ, otherwise `bytes`.
fn carried_by<'a>(action: Action, bytes: &'a [u8], buffer: &'a [u8]) -> &'a [u8]
    ensures { result.now ≡ carried action bytes.now buffer.now }
{
    match action {
        Action::Read => buffer,
        _ => bytes,
    }
}

/// Whether the packet fills the buffer.
fn fills(packet: &Packet) -> bool
    ensures { result ≡ fills_buffer packet.now }
{
    matches!(packet, Packet::Read { .. })
}

fn hand_back(body: &Body, buffer: &mut [u8])
    ensures { buffer.new ≡ handed_back buffer.old body.now }
{
    if let Body::Buffer(bytes) = body {
        let bytes = bytes.bytes();
        if bytes.len() == buffer.len() {
            buffer.copy_from_slice(bytes);
        }
    }
}
