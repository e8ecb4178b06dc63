//! The clients' threads, and the handler's batches meanwhile.
ghost use Rattle.std.specs.Prelude.{◌≡◌, ◌≤◌, [], IfOk, OnOk, length, map, vec_capacity};
ghost use Rattle.ados_port.specs.Ends.{AreEnds};
ghost use Rattle.ados_port.specs.Batches.{ServesSome, LastFoundNothing};
ghost use Rattle.ados_port.specs.Grown.{Did, EachDid};

use crate::client_task::Client;
use crate::{ClientEnd, HandlerEnd, Rest, Server};
use std::alloc::{AllocError, Global};
use std::collections::VecDeque;
use std::snapshot::Snapshot;
use std::sync::atomic::{AtomicUsize, Ordering};
use std::sync::{Arc, Wait};
use std::thread;
use std::thread::{Promise, PromisedHandle, Threads};

/// The number of packets in a batch.
const BATCH: usize = 64;

/// The promise of a client's thread: it hands back this client's end, after its job.
#[derive(Drop)]
struct EndOf<S: Server, C: Client<S>> {
    end: Snapshot<ClientEnd<S>>,
    job: Snapshot<C>,
}

impl<S: Server, C: Client<S>> Promise<(ClientEnd<S>, C::Report)> for EndOf<S, C> {
    ghost kept_by = { λ p r. Did C.does p.job.value p.end.value r.0 r.1 };
}

/// What the threads left: the handler's end, and in order of client the ends and the clients' reports.
#[derive(Drop)]
pub struct Served<S: Server, T: Drop> {
    pub handler: HandlerEnd<S>,
    pub ends: Vec<ClientEnd<S>>,
    pub reports: Vec<T>,
}

/// Why the ends were given up: memory ran out, or a thread could not be made.
#[derive(Drop)]
pub enum ServeClientsFault {
    Memory,
    Thread,
}

impl From<AllocError> for ServeClientsFault {
    fn from(_: AllocError) -> Self {
        ServeClientsFault::Memory
    }
}

// What is made before any thread: the count of ended threads, and room for all handles, ends and reports.
struct Room<S: Server, C: Client<S>> {
    ended: Arc<AtomicUsize, Global>,
    handles: Vec<PromisedHandle<(ClientEnd<S>, C::Report), EndOf<S, C>>>,
    ends: Vec<ClientEnd<S>>,
    reports: Vec<C::Report>,
}

// Room for this many threads, none of which has ended.
fn room_for<S: Server, C: Client<S>>(
    alloc: Global,
    threads: usize,
) -> Result<Room<S, C>, ServeClientsFault>
    ensures handles { IfOk result (λ room. (room.handles.items ≡ []) × (vec_capacity room.handles ≡ threads)) }
    ensures empty { IfOk result (λ room. (room.ends.items ≡ []) × (room.reports.items ≡ [])) }
    ensures room { IfOk result (λ room. (vec_capacity room.ends ≡ threads) × (vec_capacity room.reports ≡ threads)) }
{
    let Ok(ended) = Arc::new(alloc, AtomicUsize::new(0)) else {
        return Err(ServeClientsFault::Memory);
    };
    let ends = Vec::with_capacity(alloc, threads)?;
    let reports = Vec::with_capacity(alloc, threads)?;
    let handles = Vec::with_capacity(alloc, threads)?;
    Ok(Room {
        ended,
        handles,
        ends,
        reports,
    })
}

// A client's thread. It counts itself as ended, and wakes the handler.
fn run_client<S: Server, C: Client<S>, R: Wait>(
    rt: &R,
    end: ClientEnd<S>,
    job: C,
    ended: &AtomicUsize,
) -> (ClientEnd<S>, C::Report)
    ensures { Did C.does job end result.0 result.1 }
{
    let mut end = end;
    let report = job.run(rt, &mut end);
    ended.fetch_add(1, Ordering::SeqCst);
    end.wake_handler();
    (end, report)
}

// Starts a thread for one client.
fn start_client<S, C, R>(
    rt: &R,
    end: ClientEnd<S>,
    job: C,
    ended: &Arc<AtomicUsize, Global>,
) -> Result<PromisedHandle<(ClientEnd<S>, C::Report), EndOf<S, C>>, ServeClientsFault>
where
    S: Server + Send + 'static,
    S::Request: Send + 'static,
    S::Reply: Send + 'static,
    S::Moment: Send + 'static,
    C: Client<S> + Drop + Send + 'static,
    C::Report: Send + 'static,
    R: Threads + Wait + Copy + Send + Drop + 'static,
    ensures { IfOk result (λ h. (h.promise.end.value ≡ end) × (h.promise.job.value ≡ job)) }
{
    let ended = Arc::try_clone(ended)?;
    let there = *rt;
    let promise = EndOf {
        end: Snapshot::of(&end),
        job: Snapshot::of(&job),
    };
    match thread::spawn_with(rt, promise, move || run_client(&there, end, job, &ended)) {
        Ok(handle) => Ok(handle),
        Err(_) => Err(ServeClientsFault::Thread),
    }
}

// Starts a thread for each client, in order. The list has room for their handles. After a fault the started threads run
// on.
fn start_clients<S, C, R>(
    rt: &R,
    ends: Vec<ClientEnd<S>>,
    jobs: Vec<C>,
    ended: &Arc<AtomicUsize, Global>,
    handles: &mut Vec<PromisedHandle<(ClientEnd<S>, C::Report), EndOf<S, C>>>,
) -> Result<(), ServeClientsFault>
where
    S: Server + Send + 'static,
    S::Request: Send + 'static,
    S::Reply: Send + 'static,
    S::Moment: Send + 'static,
    C: Client<S> + Drop + Send + 'static,
    C::Report: Send + 'static,
    R: Threads + Wait + Copy + Send + Drop + 'static,
    requires jobs { length jobs.items ≡ length ends.items }
    requires empty { handles.old.items ≡ [] }
    requires room { length ends.items ≤ vec_capacity handles.old }
    ensures ends { OnOk result (map (λ h. h.promise.end.value) handles.new.items ≡ ends.items) }
    ensures jobs { OnOk result (map (λ h. h.promise.job.value) handles.new.items ≡ jobs.items) }
    ensures few { length handles.new.items ≤ length ends.items }
{
    let mut jobs = VecDeque::from_vec(jobs);
    for end in ends {
        let Some(job) = jobs.pop_front() else {
            unreachable!()
        };
        let handle = start_client(rt, end, job, ended)?;
        handles.push_reserved(handle);
    }
    Ok(())
}

// Joins each thread, in order. The lists have room for what the threads hand back.
fn join_clients<S, C, R>(
    rt: &R,
    handles: Vec<PromisedHandle<(ClientEnd<S>, C::Report), EndOf<S, C>>>,
    ends: Vec<ClientEnd<S>>,
    reports: Vec<C::Report>,
) -> (Vec<ClientEnd<S>>, Vec<C::Report>)
where
    S: Server,
    C: Client<S>,
    R: Threads,
    requires empty { (ends.items ≡ []) × (reports.items ≡ []) }
    requires room { (length handles.items ≤ vec_capacity ends) × (length handles.items ≤ vec_capacity reports) }
    ensures { EachDid C.does (map (λ h. h.promise.job.value) handles.items) (map (λ h. h.promise.end.value) handles.items) result.0.items result.1.items }
{
    let mut ends = ends;
    let mut reports = reports;
    for handle in handles {
        let (end, report) = handle.join(rt);
        ends.push_reserved(end);
        reports.push_reserved(report);
    }
    (ends, reports)
}

// Serves batches until all threads have ended and then a batch found nothing, as `serve_clients` says.
fn serve_until_ended<S: Server, R: Wait>(
    rt: &R,
    handler: &mut HandlerEnd<S>,
    moment: S::Moment,
    ended: &AtomicUsize,
    threads: usize,
) -> Result<(), ServeClientsFault>
    ensures served { ServesSome S.gives moment handler.old handler.new }
    ensures last { OnOk result (LastFoundNothing 1 handler.new) }
{
    let mut looks = 0u64;
    for _ in rt.forever() {
        let rest = Rest::after(looks);
        handler.announce(rest);
        let all = ended.load(Ordering::SeqCst) == threads;
        match handler.serve_batch(rt, moment, BATCH) {
            Ok(0) if all => return Ok(()),
            Ok(0) => {
                handler.rest(rt, rest);
                looks = looks.saturating_add(1);
            }
            Ok(_) => looks = 0,
            Err(_) if all => return Err(ServeClientsFault::Memory),
            Err(_) => {
                handler.wake_clients();
                thread::yield_now();
            }
        }
    }
    unreachable!()
}

/// Runs each client on a thread of its own, and the handler on this thread, until every client has ended and then a
/// batch found nothing.
///
/// After empty batches the handler sleeps until a client wakes it. A batch that runs out of memory is repeated as long
/// as a thread runs, and wakes the clients. After the last thread has ended it is a fault.
///
/// The ends come back in the order of the clients, each grown from its own, so `gather` can be called with them. On a
/// fault the ends are given up, after the clients of all started threads were served to their end and joined.
pub fn serve_clients<S, C, R>(
    rt: &R,
    alloc: Global,
    handler: HandlerEnd<S>,
    ends: Vec<ClientEnd<S>>,
    jobs: Vec<C>,
    moment: S::Moment,
) -> Result<Served<S, C::Report>, ServeClientsFault>
where
    S: Server + Drop + Send + 'static,
    S::Request: Send + 'static,
    S::Reply: Send + 'static,
    S::Moment: Send + 'static,
    C: Client<S> + Drop + Send + 'static,
    C::Report: Send + 'static,
    R: Threads + Wait + Copy + Send + Drop + 'static,
    requires all { AreEnds handler ends.items }
    requires jobs { length jobs.items ≡ length ends.items }
    ensures handler { IfOk result (λ r. ServesSome S.gives moment handler r.handler) }
    ensures last { IfOk result (λ r. LastFoundNothing 1 r.handler) }
    ensures clients { IfOk result (λ r. EachDid C.does jobs.items ends.items r.ends.items r.reports.items) }
    ensures all { IfOk result (λ r. AreEnds r.handler r.ends.items) }
{
    let Room {
        ended,
        mut handles,
        ends: kept,
        reports,
    } = room_for(alloc, ends.len())?;
    let started = start_clients(rt, ends, jobs, &ended, &mut handles);
    let mut handler = handler;
    let served = serve_until_ended(rt, &mut handler, moment, &ended, handles.len());
    let (ends, reports) = join_clients(rt, handles, kept, reports);
    started.and(served)?;
    Ok(Served {
        handler,
        ends,
        reports,
    })
}
