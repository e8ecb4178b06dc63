//! Clients that put at the same time, each on its own thread.
ghost use Rattle.std.specs.Prelude.{◌≡◌, false};

use crate::putter::Putter;
use crate::spoken::Spoken;
use ados_port::{Gathered, Served, Server, gather, open_port, serve_clients};
use std::alloc::Global;
use std::process::Abort;
use std::sync::Wait;
use std::thread::Threads;

/// The maximum number of looks for a reply.
const TURNS: u64 = 100_000_000;

/// A race: the number of clients, the number of places in each ring, and the number of packets with action 999 that
/// each client puts.
#[derive(Clone, Copy)]
pub(crate) struct Plan {
    pub(crate) clients: usize,
    pub(crate) ring: usize,
    pub(crate) puts: usize,
    /// The number of packets of the first client before its DIE, which replaces one packet.
    pub(crate) die_at: Option<usize>,
    /// Whether each client takes its replies after all its puts.
    pub(crate) takes: bool,
}

/// What a race leaves of a port, and the count of each client.
#[derive(Drop)]
pub(crate) struct Raced<S: Server> {
    pub(crate) left: Gathered<S>,
    pub(crate) counts: Vec<usize>,
}

// A client's packets. The one at index `die_at` is DIE.
fn putter<S: Spoken, R: Abort>(
    rt: &R,
    alloc: Global,
    plan: Plan,
    die_at: Option<usize>,
) -> Putter<S> {
    let mut packets = Vec::new(alloc);
    for place in 0..plan.puts {
        let line = if die_at == Some(place) {
            "die"
        } else {
            "other 999"
        };
        let packet = S::packet_of(rt, alloc, line).expect(rt, "no packet");
        packets.push(packet).expect(rt, "error");
    }
    Putter {
        packets,
        turns: TURNS,
        takes: plan.takes,
    }
}

fn putters<S: Spoken, R: Abort>(rt: &R, alloc: Global, plan: Plan) -> Vec<Putter<S>> {
    let mut jobs = Vec::new(alloc);
    for client in 0..plan.clients {
        let die_at = if client == 0 { plan.die_at } else { None };
        jobs.push(putter(rt, alloc, plan, die_at))
            .expect(rt, "error");
    }
    jobs
}

// Lets clients do their jobs, each on its own thread, and the handler serve on this thread.
fn run<S, R>(
    rt: &R,
    alloc: Global,
    server: S,
    moment: S::Moment,
    ring: usize,
    jobs: Vec<Putter<S>>,
) -> Option<Raced<S>>
where
    S: Spoken + Drop + Send + 'static,
    S::Request: Send + 'static,
    S::Reply: Send + 'static,
    S::Moment: Send + 'static,
    R: Threads + Wait + Copy + Send + Drop + 'static,
    requires { S.has_died server ≡ false }
{
    let clients = jobs.len();
    if clients == 0 || ring == 0 {
        return None;
    }
    let Ok((handler, ends)) = open_port(alloc, server, clients, ring) else {
        return None;
    };
    let Ok(served) = serve_clients(rt, alloc, handler, ends, jobs, moment) else {
        return None;
    };
    let Served {
        handler,
        ends,
        reports,
    } = served;
    let left = gather(rt, alloc, handler, ends).ok()?;
    Some(Raced {
        left,
        counts: reports,
    })
}

/// Lets clients put, each on its own thread, and the handler serve on this thread. The test ends without clients or
/// places, or if memory ran out or a thread could not be made.
pub(crate) fn race<S, R>(
    rt: &R,
    alloc: Global,
    server: S,
    moment: S::Moment,
    plan: Plan,
) -> Raced<S>
where
    S: Spoken + Drop + Send + 'static,
    S::Request: Send + 'static,
    S::Reply: Send + 'static,
    S::Moment: Send + 'static,
    R: Threads + Wait + Abort + Copy + Send + Drop + 'static,
    requires { S.has_died server ≡ false }
{
    let jobs = putters(rt, alloc, plan);
    run(rt, alloc, server, moment, plan.ring, jobs).expect(rt, "memory or a thread")
}
