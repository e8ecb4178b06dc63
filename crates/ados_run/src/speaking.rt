//! The lines of a client's script, one after the other.
ghost use Rattle.std.specs.Prelude.{◌≡◌, ◌++◌, ◌∷◌, [], false, IfOk, OnOk};
ghost use Rattle.adf_script.specs.Lines.{is_too_long};
ghost use Rattle.adf_script.specs.Text.{reply_line};
ghost use Rattle.adf_script.specs.Values.{answer_value};
ghost use Rattle.ados_port.specs.Grown.{Grown};
ghost use Rattle.ados_run.specs.Asking.{stop_line, stop_ending};
ghost use Rattle.ados_run.specs.Scripts.{IsUnused, Tells};

use crate::asking::{Stopped, ask};
use crate::gate::Gate;
use adf_script::text::{closed_text, fault_text, no_reply_text, no_room_text, reply_text};
use adf_script::values::keep_value;
use adf_script::{ClientEnding, NextLine, PacketLines};
use ados_model::{Answer, Packet};
use ados_port::{ClientEnd, Reply, Server};
use std::alloc::{AllocError, Global};
use std::sync::Wait;

/// The output of a client's script, and how it ended.
#[derive(Drop)]
pub(crate) struct ClientText {
    pub(crate) text: Vec<u8>,
    pub(crate) end: ClientEnding,
}

/// The text with its last line.
pub(crate) fn finish(
    text: Vec<u8>,
    line: Vec<u8>,
    end: ClientEnding,
) -> Result<ClientText, AllocError>
    ensures { IfOk result (λ told. (told.text.items ≡ text.items ++ line.items) × (told.end ≡ end)) }
{
    let mut text = text;
    text.extend_from_slice(&line)?;
    Ok(ClientText { text, end })
}

/// The end of a client without a reply to the packet with this number.
fn stop(
    alloc: Global,
    client: usize,
    number: u64,
    stopped: Stopped,
    text: Vec<u8>,
) -> Result<ClientText, AllocError>
    ensures { IfOk result (λ told. (told.text.items ≡ text.items ++ stop_line client number stopped) × (told.end ≡ stop_ending stopped)) }
{
    let (line, end) = match stopped {
        Stopped::Closed => (closed_text(alloc, client, number)?, ClientEnding::Done),
        Stopped::NoRoom => (no_room_text(alloc, client, number)?, ClientEnding::Tries),
        Stopped::NoReply => (no_reply_text(alloc, client, number)?, ClientEnding::Tries),
    };
    finish(text, line, end)
}

/// Appends the line for a reply, and keeps its value.
fn keep(
    alloc: Global,
    client: usize,
    number: u64,
    reply: Reply<Answer>,
    text: &mut Vec<u8>,
    values: &mut Vec<Option<u32>>,
) -> Result<(), AllocError>
    ensures text { OnOk result (text.new.items ≡ text.old.items ++ reply_line client number reply.answer) }
    ensures values { OnOk result (values.new.items ≡ values.old.items ++ answer_value reply.answer ∷ []) }
{
    let line = reply_text(alloc, client, number, &reply.answer)?;
    text.extend_from_slice(&line)?;
    keep_value(values, &reply.answer)
}

/// Puts the packets of a script, each after the reply to the one before, and prints the replies.
pub(crate) fn speak<S, G, R>(
    rt: &R,
    alloc: Global,
    end: &mut ClientEnd<S>,
    script: &[u8],
    gate: &mut G,
    turns: u64,
) -> Result<ClientText, AllocError>
where
    S: Server<Request = Packet, Reply = Answer>,
    G: Gate,
    R: Wait,
    requires { is_too_long script.now ≡ false }
    ensures tells { IsUnused end.old → IfOk result (λ told. Tells script.now end.new told.text.items told.end) }
    ensures grown { Grown end.old end.new }
{
    let client = end.number();
    let mut lines = PacketLines::of(script);
    let mut values = Vec::new(alloc);
    let mut text = Vec::new(alloc);
    loop {
        match lines.next(alloc, &values)? {
            NextLine::End => {
                return Ok(ClientText {
                    text,
                    end: ClientEnding::Done,
                });
            }
            NextLine::Faulty(line) => {
                let fault = fault_text(alloc, client, line)?;
                return finish(text, fault, ClientEnding::Script);
            }
            NextLine::Puts(number, packet) => match ask(rt, end, gate, number, packet, turns) {
                Ok(reply) => keep(alloc, client, number, reply, &mut text, &mut values)?,
                Err(stopped) => return stop(alloc, client, number, stopped, text),
            },
        }
    }
}
