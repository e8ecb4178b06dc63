//! The command `info`.
ghost use Rattle.std.specs.Prelude.{IfSome, MatchResult};
ghost use Rattle.adf_serve.specs.Asked.{AnswersDisk, TakesLast};
ghost use Rattle.adf_serve.specs.Faults.{IsRefusedFor};
ghost use Rattle.adf_serve.specs.Texts.{IsInfoText};
ghost use Rattle.adf_serve.specs.Commands.{TellsOf};

use crate::fault::CommandFault;
use adf_block::Image;
use adf_export::write_info;
use ados_handler::Handler;
use ados_model::{Answer, Packet};
use ados_name::Date3;
use ados_port::{Outcome, Step};
use ados_run::{RunFault, run_volume};
use std::alloc::Global;
use std::io::Write;

/// 1 January 1978.
pub const FIRST_MOMENT: Date3 = Date3 {
    days: 0,
    minutes: 0,
    ticks: 0,
};

/// Prints the answer of DISK_INFO for an image, and whether its boot checksum is right. With `json` that is a JSON object.
pub(crate) fn tell_info<'a, W: Write>(
    alloc: Global,
    image: Image,
    json: bool,
    writer: &mut W,
) -> Result<(), CommandFault<'a>>
    ensures { TellsOf (IsInfoText json) (IsInfoText json) image (W.contents writer.old) (W.contents writer.new) result }
{
    let asked = ask_disk(alloc, image)?;
    let image = asked.handler.volume().image();
    match write_info(alloc, &asked.answer, image, json, writer) {
        Ok(()) => Ok(()),
        Err(fault) => Err(CommandFault::from(fault)),
    }
}

/// The answer to a packet, and the handler that gave it.
#[derive(Drop)]
struct Asked {
    answer: Answer,
    handler: Handler,
}

/// Puts DISK_INFO as the only client of a port at a handler over an image, and takes the reply.
fn ask_disk<'a>(alloc: Global, image: Image) -> Result<Asked, CommandFault<'a>>
    ensures { MatchResult result (λ asked. AnswersDisk image asked.answer asked.handler.image) (IsRefusedFor image) }
{
    let put = Step::Put {
        client: 1,
        packet: Packet::DiskInfo,
    };
    let serve = Step::Serve {
        moment: FIRST_MOMENT,
    };
    let Ok(steps) = Vec::from_array(alloc, [put, serve, Step::Take { client: 1 }]) else {
        return Err(CommandFault::Memory);
    };
    match run_volume(alloc, image, 1, steps) {
        Ok(done) => match last_taken(done.outcomes) {
            Some(answer) => Ok(Asked {
                answer,
                handler: done.exchange.into_server(),
            }),
            None => Err(CommandFault::Memory),
        },
        Err(RunFault::Rejected(rejected)) => Err(CommandFault::from(rejected.fault)),
        Err(RunFault::NoMemory(_)) => Err(CommandFault::Memory),
    }
}

/// The answer that the last step took, if it took one.
fn last_taken<Q: Drop, A: Drop>(outcomes: Vec<Outcome<Q, A>>) -> Option<A>
    ensures { IfSome result (TakesLast outcomes.items) }
{
    let mut outcomes = outcomes;
    match outcomes.pop() {
        Some(Outcome::Taken(reply)) => Some(reply.answer),
        _ => None,
    }
}
