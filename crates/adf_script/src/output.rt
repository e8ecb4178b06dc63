//! Writes the output of a script.
ghost use Rattle.std.specs.Prelude.{◌≢◌, OnOk};
ghost use Rattle.std.specs.Io.KnownBytes.{Appends};
ghost use Rattle.adf_script.specs.Text.{reply_line, closed_line, fault_line};

use crate::fault::TryFault;
use crate::text::{closed_text, fault_text, reply_text};
use ados_model::Answer;
use ados_port::Reply;
use std::alloc::Global;
use std::io::Write;

fn write_text<W: Write>(writer: &mut W, text: &[u8]) -> Result<(), TryFault>
    ensures text { OnOk result (Appends (W.contents writer.old) (W.contents writer.new) text.now) }
    ensures no_script { result ≢ Err TryFault.Script }
    ensures no_limit { result ≢ Err TryFault.TurnLimit }
{
    writer.write_all(text).map_err(|_| TryFault::Write)
}

/// Writes the line for a reply to client 1.
pub(crate) fn write_reply<W: Write>(
    alloc: Global,
    writer: &mut W,
    reply: &Reply<Answer>,
) -> Result<(), TryFault>
    ensures text { OnOk result (Appends (W.contents writer.old) (W.contents writer.new)
        (reply_line 1 reply.now.number reply.now.answer)) }
    ensures no_script { result ≢ Err TryFault.Script }
    ensures no_limit { result ≢ Err TryFault.TurnLimit }
{
    let text = reply_text(alloc, 1, reply.number, &reply.answer)?;
    write_text(writer, &text)
}

/// Writes that the port was closed to client 1.
pub(crate) fn write_closed<W: Write>(
    alloc: Global,
    writer: &mut W,
    number: u64,
) -> Result<(), TryFault>
    ensures text { OnOk result (Appends (W.contents writer.old) (W.contents writer.new) (closed_line 1 number)) }
    ensures no_script { result ≢ Err TryFault.Script }
    ensures no_limit { result ≢ Err TryFault.TurnLimit }
{
    let text = closed_text(alloc, 1, number)?;
    write_text(writer, &text)
}

/// Writes that a line of the script of client 1 is faulty.
pub(crate) fn write_fault<W: Write>(
    alloc: Global,
    writer: &mut W,
    number: u64,
) -> Result<(), TryFault>
    ensures text { OnOk result (Appends (W.contents writer.old) (W.contents writer.new) (fault_line 1 number)) }
    ensures no_script { result ≢ Err TryFault.Script }
    ensures no_limit { result ≢ Err TryFault.TurnLimit }
{
    let text = fault_text(alloc, 1, number)?;
    write_text(writer, &text)
}
