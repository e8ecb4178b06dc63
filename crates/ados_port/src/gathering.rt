//! Gathers the ends of a port.
ghost use Rattle.std.specs.Prelude.{◌≡◌, ℕ, ◌+◌, ◌<◌, ◌≤◌, ◌++◌, ◌∷◌, [], map, length, vec_capacity, Some, None, slice_get, IfOk, IfErr, IfSome, IsTrue};
ghost use Rattle.ados_port.specs.Lawful.{Lawful};
ghost use Rattle.ados_port.specs.Ends.{OfClients, AreEnds, CloseMeansDeath};
ghost use Rattle.ados_port.specs.steps.Rule.{ArePutLists, total};
ghost use Rattle.ados_port.specs.steps.Rooms.{OnlyElement, RoomsFit, HasRoomAt, AreOutletsOf, LeftAt, AllLeft};
ghost use Rattle.ados_port.specs.steps.HandlerEnds.{AllHeard};
ghost use Rattle.ados_port.specs.Gathering.{all_lists, TakesRest};

use crate::client::ClientEnd;
use crate::handler::HandlerEnd;
use crate::queue::{TakeEnd, TakeHistory};
use crate::ring::Outlet;
use crate::{Reply, Server};
use std::alloc::Global;
use std::sync::Wait;

type Replies<S> = Vec<Reply<<S as Server>::Reply>>;

type OutletOf<S> = Outlet<(<S as Server>::Moment, <S as Server>::Reply)>;

// Takes in the end of client k + 1.
fn take_in_one<S: Server>(
    queue: &mut TakeEnd<S::Request>,
    outlets: &mut Vec<OutletOf<S>>,
    untaken: &mut Vec<Replies<S>>,
    k: usize,
    client: ClientEnd<S>,
)
    requires places { (k < length outlets.old.items) × (k < length untaken.old.items) }
    requires port { (client.port ≡ queue.old.port) × (client.number ≡ length queue.old.known + 1) }
    requires room { HasRoomAt k client outlets.old.items untaken.old.items }
    ensures queue { queue.new ≡ record queue.old { known = queue.old.known ++ client.put ∷ [] } }
    ensures outlets { OnlyElement k outlets.old.items outlets.new.items }
    ensures untaken { OnlyElement k untaken.old.items untaken.new.items }
    ensures replies { (o : _) → slice_get outlets.old.items k ≡ Some o → LeftAt k client o untaken.new.items }
{
    let outlet = &mut outlets[k];
    let room = &mut untaken[k];
    let end = client.leave(outlet, room);
    queue.gather_one(end);
}

// Takes the remaining packets, in the order of the queue.
fn take_rest<Q: Drop, R: Wait>(
    rt: &R,
    queue: &mut TakeEnd<Q>,
    unanswered: Vec<(usize, Q)>,
) -> Vec<(usize, Q)>
    requires gathered { length queue.old.known ≡ queue.old.clients }
    requires empty { unanswered.items ≡ [] }
    requires room { total queue.old.known ≤ length queue.old.taken + vec_capacity unanswered }
    ensures order { queue.new ≡ record queue.old { taken = queue.old.taken ++ result.items; takes = queue.old.takes ++ (map Some result.items ++ None ∷ []) } }
    ensures clients { OfClients queue.new.clients queue.new.taken }
    ensures puts { ArePutLists queue.new.known queue.new.taken }
{
    let mut unanswered = unanswered;
    for _ in rt.forever() {
        match queue.take(rt) {
            Some(packet) => unanswered.push_reserved(packet),
            None => return unanswered,
        }
    }
    unreachable!()
}

// Takes in all clients' ends, in order.
fn take_in<S: Server>(
    queue: TakeEnd<S::Request>,
    outlets: Vec<OutletOf<S>>,
    clients: Vec<ClientEnd<S>>,
    untaken: Vec<Replies<S>>,
) -> (TakeEnd<S::Request>, Vec<Replies<S>>)
    requires lengths { (length outlets.items ≡ length clients.items) × (length untaken.items ≡ length clients.items) }
    requires known { queue.known ≡ [] }
    requires ends { (k : ℕ) (c : _) → slice_get clients.items k ≡ Some c → (c.port ≡ queue.port) × (c.number ≡ k + 1) }
    requires rings { AreOutletsOf clients.items outlets.items }
    requires rooms { RoomsFit clients.items outlets.items untaken.items }
    ensures queue { result.0 ≡ record queue { known = map (λ c. c.put) clients.items } }
    ensures clients { length result.1.items ≡ length clients.items }
    ensures replies { AllLeft clients.items outlets.items result.1.items }
{
    let mut queue = queue;
    let mut outlets = outlets;
    let mut untaken = untaken;
    let mut k = 0;
    for client in clients {
        take_in_one(&mut queue, &mut outlets, &mut untaken, k, client);
        k += 1;
    }
    (queue, untaken)
}

/// What remains of a port: the server, the unserved packets, each with its client's number and in the order of the
/// port, each client's untaken replies, and what each take of the port's queue found, which only contracts see.
#[derive(Drop)]
pub struct Gathered<S: Server> {
    pub server: S,
    pub unanswered: Vec<(usize, S::Request)>,
    pub untaken: Vec<Replies<S>>,
    pub takes: TakeHistory<S::Request>,
}

/// Ends that were not gathered, unchanged.
#[derive(Drop)]
pub struct GatherRefused<S: Server> {
    pub handler: HandlerEnd<S>,
    pub clients: Vec<ClientEnd<S>>,
}

// An empty list with room for this many replies.
fn room_for<A: Drop>(alloc: Global, count: usize) -> Option<Vec<Reply<A>>>
    ensures { IfSome result (λ v. (v.items ≡ []) × (vec_capacity v ≡ count)) }
{
    Vec::with_capacity(alloc, count).ok()
}

// Reserves room for each client's untaken replies. No end changes.
fn room_for_replies<S: Server>(
    alloc: Global,
    handler: &mut HandlerEnd<S>,
    clients: &mut Vec<ClientEnd<S>>,
) -> Option<Vec<Replies<S>>>
    requires { AreEnds handler.old clients.old.items }
    ensures same { (handler.new ≡ handler.old) × (clients.new.items ≡ clients.old.items) }
    ensures rooms { IfSome result (λ rs. RoomsFit clients.old.items handler.old.outlets rs.items) }
{
    let mut rooms = Vec::new(alloc);
    for k in 0..clients.len() {
        rooms.reserve(1).ok()?;
        let client = &mut clients[k];
        let count = handler.untaken(k, client);
        let room = room_for(alloc, count)?;
        rooms.push_reserved(room);
    }
    Some(rooms)
}

// Reserves room for the packets that were put and not served.
fn room_for_packets<S: Server>(
    alloc: Global,
    served: u64,
    clients: &Vec<ClientEnd<S>>,
) -> Option<Vec<(usize, S::Request)>>
    ensures { IfSome result (λ v. (v.items ≡ []) × (total (map (λ c. c.put) clients.now.items) ≤ served + vec_capacity v)) }
{
    let mut puts = 0u64;
    for k in 0..clients.len() {
        let client = &clients[k];
        puts = puts.checked_add(client.put_count())?;
    }
    Vec::with_capacity(alloc, puts.saturating_sub(served) as usize).ok()
}

// Lets each client look at the closing mark once more. Returns whether all are consistent. No end changes.
fn hear_all<S: Server>(handler: &HandlerEnd<S>, clients: &mut Vec<ClientEnd<S>>) -> bool
    ensures same { clients.new.items ≡ clients.old.items }
    ensures heard { IsTrue result → AllHeard S.is_closing (S.has_died handler.now.server) clients.old.items }
{
    for k in 0..clients.len() {
        let client = &mut clients[k];
        if !handler.hear(client) {
            return false;
        }
    }
    true
}

// Takes in all ends, after room was reserved.
fn finish<S: Server, R: Wait>(
    rt: &R,
    handler: HandlerEnd<S>,
    clients: Vec<ClientEnd<S>>,
    untaken: Vec<Replies<S>>,
    unanswered: Vec<(usize, S::Request)>,
) -> Gathered<S>
    requires ends { AreEnds handler clients.items }
    requires rooms { RoomsFit clients.items handler.outlets untaken.items }
    requires empty { unanswered.items ≡ [] }
    requires room { total (map (λ c. c.put) clients.items) ≤ length handler.served + vec_capacity unanswered }
    requires heard { AllHeard S.is_closing (S.has_died handler.server) clients.items }
    ensures lawful { Lawful S.gives handler.opening (all_lists clients.items result.untaken.items) handler.served
        result.unanswered.items result.server }
    ensures order { TakesRest handler.takes result.unanswered.items result.takes }
    ensures clients { length result.untaken.items ≡ length clients.items }
    ensures closed { CloseMeansDeath clients.items (S.has_died result.server) }
{
    handler.witness();
    let (queue, outlets, server) = handler.into_parts();
    let (mut queue, untaken) = take_in(queue, outlets, clients, untaken);
    let unanswered = take_rest(rt, &mut queue, unanswered);
    Gathered {
        server,
        unanswered,
        untaken,
        takes: queue.into_takes(),
    }
}

/// Gathers all ends of one port, in order of client, after their threads have handed them back.
///
/// The unserved packets are in the order of the port: they are what further takes found, one after another, until one
/// found nothing. If an end knows of the close, the returned server has died.
///
/// All memory is reserved before the first change. A refusal means that memory ran out, or that an end finds the
/// closing mark set and the handler's end has not set it, which no run can show. It hands all ends back unchanged, so
/// the call can be repeated.
pub fn gather<S: Server, R: Wait>(
    rt: &R,
    alloc: Global,
    handler: HandlerEnd<S>,
    clients: Vec<ClientEnd<S>>,
) -> Result<Gathered<S>, GatherRefused<S>>
    requires { AreEnds handler clients.items }
    ensures lawful { IfOk result (λ r. Lawful S.gives handler.opening (all_lists clients.items r.untaken.items) handler.served
        r.unanswered.items r.server) }
    ensures order { IfOk result (λ r. TakesRest handler.takes r.unanswered.items r.takes) }
    ensures clients { IfOk result (λ r. length r.untaken.items ≡ length clients.items) }
    ensures closed { IfOk result (λ r. CloseMeansDeath clients.items (S.has_died r.server)) }
    ensures refused { IfErr result (λ e. (e.handler ≡ handler) × (e.clients.items ≡ clients.items)) }
{
    let mut handler = handler;
    let mut clients = clients;
    let Some(untaken) = room_for_replies(alloc, &mut handler, &mut clients) else {
        return Err(GatherRefused { handler, clients });
    };
    if !hear_all(&handler, &mut clients) {
        return Err(GatherRefused { handler, clients });
    }
    let Some(unanswered) = room_for_packets(alloc, handler.served_count(), &clients) else {
        return Err(GatherRefused { handler, clients });
    };
    Ok(finish(rt, handler, clients, untaken, unanswered))
}
