//! Scripts of clients, each on its own thread.
ghost use Rattle.std.specs.Prelude.{◌≡◌, List, IfOk, map};
ghost use Rattle.ados_model.specs.declared.packet.Packet.{Packet};
ghost use Rattle.ados_model.specs.declared.answer.Answer.{Answer};
ghost use Rattle.ados_port.specs.History.{Serving};
ghost use Rattle.ados_port.specs.Ends.{AreEnds, Serves};
ghost use Rattle.ados_run.specs.Scripts.{AreUnused, EachTells, given_to, told_by};

use crate::ends::{join, part};
use crate::gate::Gate;
use adf_script::ClientEnding;
use ados_model::{Answer, Packet};
use ados_port::{ClientEnd, HandlerEnd, ServeClientsFault, Served, Server, serve_clients};
use std::alloc::{AllocError, Global};
use std::sync::Wait;
use std::thread::Threads;

/// A client's end after its script, with its output and how it ended.
#[derive(Drop)]
pub struct ClientDone<S: Server> {
    pub client: ClientEnd<S>,
    pub text: Vec<u8>,
    pub end: ClientEnding,
}

/// The ends of the port after all scripts. The clients' ends are in order.
#[derive(Drop)]
pub struct ScriptsDone<S: Server> {
    pub handler: HandlerEnd<S>,
    pub clients: Vec<ClientDone<S>>,
}

/// Why the ends are lost: memory ran out, or a thread could not be started.
#[derive(Clone, Copy, PartialEq, Eq)]
pub enum ScriptsFault {
    Memory,
    Thread,
}

impl From<AllocError> for ScriptsFault {
    ghost use Rattle.std.specs.Prelude.{◌≡◌};
    ghost use Rattle.ados_run.specs.declared.scripts.ScriptsFault.TheVariants.{Memory};

    ghost from_gives = { λ _ fault. fault ≡ Memory };

    fn from(_: AllocError) -> Self {
        ScriptsFault::Memory
    }
}

/// Runs each client's script on its own thread, and the handler on this one. It returns when every client has ended
/// and no packet waits.
///
/// A client puts a packet and waits for its reply before its next line. It has `turns` tries for each put, with a
/// yield between them, and for each reply, with pauses as in `take_within`. The client's gate is called for each of
/// its packets. After a fault no thread is left.
pub fn serve_scripts<S, G, R>(
    rt: &R,
    alloc: Global,
    handler: HandlerEnd<S>,
    clients: Vec<(ClientEnd<S>, Vec<u8>, G)>,
    moment: S::Moment,
    turns: u64,
) -> Result<ScriptsDone<S>, ScriptsFault>
where
    S: Server<Request = Packet, Reply = Answer> + Drop + Send + 'static,
    S::Moment: Send + 'static,
    G: Gate + Drop + Send + 'static,
    R: Threads + Wait + Copy + Send + Drop + 'static,
    requires all { AreEnds handler (map (λ c. c.0) clients.items) }
    requires unused { AreUnused (map (λ c. c.0) clients.items) }
    ensures handler { IfOk result (λ done. (xs : List (Serving Packet S.Moment Answer)) × Serves S.gives moment handler xs done.handler) }
    ensures clients { IfOk result (λ done. EachTells (given_to clients.items) (told_by done.clients.items)) }
    ensures all { IfOk result (λ done. AreEnds done.handler (map (λ d. d.client) done.clients.items)) }
{
    let (ends, jobs) = part(alloc, clients, turns)?;
    let served = match serve_clients(rt, alloc, handler, ends, jobs, moment) {
        Ok(served) => served,
        Err(ServeClientsFault::Memory) => return Err(ScriptsFault::Memory),
        Err(ServeClientsFault::Thread) => return Err(ScriptsFault::Thread),
    };
    let Served {
        handler,
        ends,
        reports,
    } = served;
    let clients = join(alloc, ends, reports)?;
    Ok(ScriptsDone { handler, clients })
}
