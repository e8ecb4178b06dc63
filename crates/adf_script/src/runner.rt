//! Runs a script.
ghost use Rattle.std.specs.Prelude.{◌≡◌, ◌≢◌, ◌∷◌, ◌++◌, [], OnOk, false, true};
ghost use Rattle.std.specs.Io.KnownBytes.{Appends};
ghost use Rattle.adf_io.specs.Input.{GivesNoEnd};
ghost use Rattle.ados_model.specs.declared.packet.Packet.{Packet};
ghost use Rattle.ados_port.specs.History.{opening_port};
ghost use Rattle.adf_script.specs.Lines.{is_too_long};
ghost use Rattle.adf_script.specs.steps.Calls.{IsQuiet};
ghost use Rattle.adf_script.specs.Text.{closed_line, reply_line};
ghost use Rattle.adf_script.specs.Told.{WritesTold, ReadsAndTells};
ghost use Rattle.adf_script.specs.Values.{answer_value};

use crate::call::call;
use crate::fault::TryFault;
use crate::input::{LONGEST_SCRIPT, read_script};
use crate::output::{write_closed, write_fault, write_reply};
use crate::packet_lines::{NextLine, PacketLines};
use crate::values::keep_value;
use ados_model::{Answer, Packet};
use ados_port::{Exchange, PutRefused, Reply, Server};
use std::alloc::Global;
use std::io::{Read, Write};

/// Runs the lines of a script. Each packet is put and served, and its reply taken, before the next line is read.
fn run_lines<S, W>(
    alloc: Global,
    exchange: &mut Exchange<S>,
    moment: S::Moment,
    script: &[u8],
    writer: &mut W,
) -> Result<(), TryFault>
where
    S: Server<Request = Packet, Reply = Answer>,
    W: Write,
    requires quiet { IsQuiet exchange.old.port 0 }
    requires short { is_too_long script.now ≡ false }
    ensures whole { OnOk result
        (WritesTold S.gives S.has_died exchange.old.port moment script.now true (W.contents writer.old) (W.contents writer.new)) }
    ensures faulty { result ≡ Err TryFault.Script →
        WritesTold S.gives S.has_died exchange.old.port moment script.now false (W.contents writer.old) (W.contents writer.new) }
    ensures no_limit { result ≢ Err TryFault.TurnLimit }
{
    let mut lines = PacketLines::of(script);
    let mut values = Vec::new(alloc);
    loop {
        match lines.next(alloc, &values)? {
            NextLine::End => return Ok(()),
            NextLine::Faulty(number) => {
                write_fault(alloc, writer, number)?;
                return Err(TryFault::Script);
            }
            NextLine::Puts(number, packet) => match call(exchange, moment, packet) {
                Ok(reply) => tell_reply(alloc, writer, &mut values, reply)?,
                Err(refused) => return tell_refused(alloc, writer, number, refused),
            },
        }
    }
}

/// Writes the line of a reply, and keeps its value.
fn tell_reply<W: Write>(
    alloc: Global,
    writer: &mut W,
    values: &mut Vec<Option<u32>>,
    reply: Reply<Answer>,
) -> Result<(), TryFault>
    ensures text { OnOk result (Appends (W.contents writer.old) (W.contents writer.new)
        (reply_line 1 reply.number reply.answer)) }
    ensures value { OnOk result (values.new.items ≡ values.old.items ++ answer_value reply.answer ∷ []) }
    ensures no_script { result ≢ Err TryFault.Script }
    ensures no_limit { result ≢ Err TryFault.TurnLimit }
{
    write_reply(alloc, writer, &reply)?;
    keep_value(values, &reply.answer)?;
    Ok(())
}

/// Writes that the port was closed to the packet with this number, if that is why its put was refused.
fn tell_refused<W: Write>(
    alloc: Global,
    writer: &mut W,
    number: u64,
    refused: PutRefused<Packet>,
) -> Result<(), TryFault>
    ensures closed { OnOk result ((packet : Packet) × (refused ≡ PutRefused.Closed packet)
        × Appends (W.contents writer.old) (W.contents writer.new) (closed_line 1 number)) }
    ensures no_script { result ≢ Err TryFault.Script }
    ensures no_limit { result ≢ Err TryFault.TurnLimit }
{
    match refused {
        PutRefused::Closed(_) => write_closed(alloc, writer, number),
        PutRefused::NoRoom(_) => Err(TryFault::Memory),
    }
}

/// Runs a script. Of one that is too long, only its start is given.
fn tell<S, W>(
    alloc: Global,
    server: S,
    moment: S::Moment,
    script: &[u8],
    writer: &mut W,
) -> Result<(), TryFault>
where
    S: Server<Request = Packet, Reply = Answer> + Drop,
    W: Write,
    ensures whole { OnOk result
        (WritesTold S.gives S.has_died (opening_port server 1) moment script.now true (W.contents writer.old) (W.contents writer.new)) }
    ensures faulty { result ≡ Err TryFault.Script →
        WritesTold S.gives S.has_died (opening_port server 1) moment script.now false (W.contents writer.old) (W.contents writer.new) }
    ensures no_limit { result ≢ Err TryFault.TurnLimit }
{
    if LONGEST_SCRIPT < script.len() {
        write_fault(alloc, writer, 0)?;
        return Err(TryFault::Script);
    }
    let Ok(mut exchange) = Exchange::new(alloc, server, 1) else {
        return Err(TryFault::Memory);
    };
    run_lines(alloc, &mut exchange, moment, script, writer)
}

/// Reads a script to its end and runs it as client 1 of a port over this server. All packets have the time stamp
/// `moment`. It writes a line for each reply.
///
/// At most 1,048,577 bytes are kept. After `Ok`, the output is that of the whole script; after `Script`, that of one
/// with a faulty line or of one that is too long. After any other fault nothing is promised of the output.
pub fn run_script<S, R, W>(
    alloc: Global,
    server: S,
    moment: S::Moment,
    reader: &mut R,
    writer: &mut W,
) -> Result<(), TryFault>
where
    S: Server<Request = Packet, Reply = Answer> + Drop,
    R: Read,
    W: Write,
    ensures whole { OnOk result
        (ReadsAndTells S.gives S.has_died server moment true R.remaining reader.old reader.new W.contents writer.old writer.new) }
    ensures faulty { result ≡ Err TryFault.Script →
        ReadsAndTells S.gives S.has_died server moment false R.remaining reader.old reader.new W.contents writer.old writer.new }
    // An end within the limit is found.
    ensures endless { result ≡ Err TryFault.TurnLimit → GivesNoEnd (R.remaining reader.old) (R.remaining reader.new) }
{
    let script = read_script(alloc, reader)?;
    let outcome = tell(alloc, server, moment, &script, writer);
    if writer.flush().is_err() {
        return Err(TryFault::Write);
    }
    outcome
}
