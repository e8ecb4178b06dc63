//! Scripts at the port of a handler, from opening the port to gathering its ends.
ghost use Rattle.std.specs.Prelude.{◌≡◌, ◌<◌, false, length, map};
ghost use Rattle.ados_port.specs.Ends.{AreEnds};

use crate::hand::Port;
use ados_handler::{Answer, Packet};
use ados_port::{ClientEnd, Gathered, HandlerEnd, Server, open_port};
use ados_run::{
    ClientDone, ClientEnding, Gate, ScriptsDone, ScriptsFault, assign, part_done, serve_scripts,
};
use std::alloc::Global;
use std::process::Abort;
use std::sync::Wait;
use std::thread::Threads;

/// The number of places in a reply ring.
const RING: usize = 8;

/// The maximum number of tries of a put, and of polls for a reply.
const TURNS: u64 = 100_000_000;

/// What each client printed, and what was left of the port. Also the number of one more packet that client 1 put after
/// all clients had ended.
#[derive(Drop)]
pub(crate) struct Staged<S: Server> {
    pub(crate) told: Vec<(Vec<u8>, ClientEnding)>,
    /// Whether each client reached the end of its script and printed something.
    pub(crate) all_done: bool,
    pub(crate) number: Option<u64>,
    pub(crate) left: Gathered<S>,
}

/// Opens a port, and runs the scripts at it.
fn run<S, G, R>(
    rt: &R,
    alloc: Global,
    server: S,
    moment: S::Moment,
    scripts: Vec<(Vec<u8>, G)>,
) -> ScriptsDone<S>
where
    S: Server<Request = Packet, Reply = Answer> + Drop + Send + 'static,
    S::Moment: Send + 'static,
    G: Gate + Drop + Send + 'static,
    R: Threads + Wait + Abort + Copy + Send + Drop + 'static,
    requires alive { S.has_died server ≡ false }
    requires some { 0 < length scripts.items }
    ensures { AreEnds result.handler (map (λ d. d.client) result.clients.items) }
{
    let Ok((handler, ends)) = open_port(alloc, server, scripts.len(), RING) else {
        panic!(rt; "no port");
    };
    let Ok(clients) = assign(alloc, ends, scripts) else {
        panic!(rt; "memory");
    };
    match serve_scripts(rt, alloc, handler, clients, moment, TURNS) {
        Ok(done) => done,
        Err(ScriptsFault::Memory | ScriptsFault::Thread) => panic!(rt; "memory or a thread"),
    }
}

fn is_done<S: Server>(done: &ClientDone<S>) -> bool {
    let ClientDone {
        client: _,
        text,
        end,
    } = done;
    *end == ClientEnding::Done && !text.is_empty()
}

fn are_done<S: Server>(clients: &[ClientDone<S>]) -> bool {
    for done in clients {
        if !is_done(done) {
            return false;
        }
    }
    true
}

/// Puts a packet by client 1, and gathers the ends. Returns the number of the packet, and what is left.
fn put_and_gather<S: Server + Drop, R: Wait + Abort>(
    rt: &R,
    alloc: Global,
    handler: HandlerEnd<S>,
    ends: Vec<ClientEnd<S>>,
    moment: S::Moment,
    packet: S::Request,
) -> (Option<u64>, Gathered<S>)
    requires { AreEnds handler ends.items }
{
    let mut port = Port {
        handler,
        ends,
        moment,
        again: false,
    };
    let number = port.put(rt, 1, packet).ok();
    (number, port.gather(rt, alloc).expect(rt, "memory"))
}

/// Opens a port, runs the scripts at it, puts action 999 by client 1, and gathers the ends. The test ends if memory or a
/// thread is refused.
pub(crate) fn stage<S, G, R>(
    rt: &R,
    alloc: Global,
    server: S,
    moment: S::Moment,
    scripts: Vec<(Vec<u8>, G)>,
) -> Staged<S>
where
    S: Server<Request = Packet, Reply = Answer> + Drop + Send + 'static,
    S::Moment: Send + 'static,
    G: Gate + Drop + Send + 'static,
    R: Threads + Wait + Abort + Copy + Send + Drop + 'static,
    requires alive { S.has_died server ≡ false }
    requires some { 0 < length scripts.items }
{
    let ScriptsDone { handler, clients } = run(rt, alloc, server, moment, scripts);
    let all_done = are_done(&clients);
    let Ok((ends, told)) = part_done(alloc, clients) else {
        panic!(rt; "memory");
    };
    let last = Packet::Other { action: 999 };
    let (number, left) = put_and_gather(rt, alloc, handler, ends, moment, last);
    Staged {
        told,
        all_done,
        number,
        left,
    }
}
