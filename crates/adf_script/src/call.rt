//! One packet sent through a port.
ghost use Rattle.std.specs.Prelude.{ℕ};
ghost use Rattle.adf_script.specs.steps.Calls.{IsQuiet, CallGives};

use ados_model::{Answer, Packet};
use ados_port::{Exchange, Outcome, PutRefused, Reply, Server, Step};

/// Puts a packet of client 1, serves it and takes the reply.
pub(crate) fn call<S>(
    exchange: &mut Exchange<S>,
    moment: S::Moment,
    packet: Packet,
) -> Result<Reply<Answer>, PutRefused<Packet>>
where
    S: Server<Request = Packet, Reply = Answer>,
    requires { (count : ℕ) × IsQuiet exchange.old.port count }
    ensures { (count : ℕ) → IsQuiet exchange.old.port count
        → CallGives S.gives S.has_died moment exchange.old.port count packet result exchange.new.port }
{
    match exchange.step(Step::Put { client: 1, packet }) {
        Outcome::Accepted(_) => {}
        Outcome::Refused(refused) => return Err(refused),
        _ => unreachable!(),
    }
    let _ = exchange.step(Step::Serve { moment });
    match exchange.step(Step::Take { client: 1 }) {
        Outcome::Taken(reply) => Ok(reply),
        _ => unreachable!(),
    }
}
