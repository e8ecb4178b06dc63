//! The handler's end of a port.
ghost use Rattle.std.specs.Prelude.{◌≡◌, ◌<◌, ◌≤◌, ◌^◌, [], length, false, IfOk, OnOk, OnErr, IsTrue, MatchResult, Some, slice_get};
ghost use Rattle.ados_port.specs.Rings.{EachLooked, EachOffers, EachOffersFirst, waiting_count};
ghost use Rattle.ados_port.specs.steps.Sending.{EachGetsRoom, EachHasRoom};
ghost use Rattle.ados_port.specs.steps.HandlerEnds.{AddsClientEnd, Heard, IsQueueOf};
ghost use Rattle.ados_port.specs.steps.Rooms.{HasUntaken};
ghost use Rattle.ados_port.specs.Ends.{HandlerView, IsNew, IsSound};
ghost use Rattle.ados_port.specs.Batches.{ServesSome, ServesSoMany, OnlyOffers, TakesUpTo, LastFoundNothing, EndsAs, empty_batches};

use crate::Server;
use crate::bell::Rest;
use crate::client::ClientEnd;
use crate::closing_mark::CloseSetter;
use crate::desk::Desk;
use crate::open::OpenRefused;
use crate::outlets::{any_waits, post_all, reserve_all, ring_all, send_to};
use crate::queue::{TakeEnd, open_queue};
use crate::ring::{Outlet, open_ring};
use std::alloc::{AllocError, Global};
use std::marker::Model;
use std::sync::Wait;

/// The number of packets that `serve_until_closed` takes in a batch.
const BATCH: usize = 64;

/// Why the batches ended: the server has died, or there was nothing to serve.
#[derive(Drop)]
pub enum ServeEnd {
    Closed,
    Idle,
}

/// Why a batch served nothing.
#[derive(Drop)]
pub enum ServeFault {
    NoMemory,
}

/// The handler's end of a port: it takes packets, serves them one after another, and posts the replies.
#[derive(Drop)]
pub struct HandlerEnd<S: Server> {
    queue: TakeEnd<S::Request>,
    desk: Desk<S>,
    outlets: Vec<Outlet<(S::Moment, S::Reply)>>,
}

impl<S: Server> Model for HandlerEnd<S> {
    ghost use Rattle.ados_port.specs.Ends.{HandlerView};
    ghost use Rattle.ados_port.specs.steps.Views.{Agree, handler_view};

    ghost Value = { HandlerView S S.Request S.Moment S.Reply };

    ghost view = { λ h. handler_view h.queue h.desk h.outlets.items };

    ghost invariant = { λ h. Agree h.queue h.desk h.outlets.items };
}

impl<S: Server> HandlerEnd<S> {
    /// The invariant of a handler's end.
    pub fn witness(&self)
        ensures { IsSound S.gives S.has_died self.now }
    {
        self.desk.witness();
    }

    /// The current server.
    pub fn server(&self) -> &S
        ensures { result.now ≡ self.now.server }
    {
        self.desk.server()
    }

    /// Posts each client's waiting replies into the free places of its ring, in order. Returns how many replies of all
    /// clients still wait.
    pub fn post_waiting(&mut self) -> usize
        ensures same { self.new ≡ record self.old { outlets = self.new.outlets } }
        ensures offers { EachOffers self.old.outlets self.new.outlets }
        ensures count { result ≡ waiting_count self.new.outlets }
    {
        let _served = self.desk.count();
        post_all(&mut self.outlets)
    }

    /// Posts waiting replies, then takes at most `limit` packets, serves each at this time stamp, and returns their
    /// number.
    ///
    /// It takes fewer packets only if a take found none, or the count of served packets is at its maximum. A reply waits
    /// in the list beside its ring if the ring is full or other replies of its client still wait. After `NoMemory`
    /// nothing was served; posted replies stay posted.
    pub fn serve_batch<R: Wait>(
        &mut self,
        rt: &R,
        moment: S::Moment,
        limit: usize,
    ) -> Result<usize, ServeFault>
        ensures ok { IfOk result (λ m. (m ≤ limit) × ServesSoMany S.gives moment self.old m self.new) }
        ensures takes { IfOk result (λ m. TakesUpTo limit self.old m self.new) }
        ensures err { OnErr result (OnlyOffers self.old self.new) }
        ensures first { EachOffersFirst self.old.outlets self.new.outlets }
        ensures sound { IsSound S.gives S.has_died self.new }
    {
        self.post_waiting();
        let room = self.reserve(limit);
        self.witness();
        if room.is_err() {
            return Err(ServeFault::NoMemory);
        }
        let mut served = 0;
        for _ in 0..limit {
            if self.desk.count() == u64::MAX {
                break;
            }
            let Some((client, packet)) = self.queue.take(rt) else {
                break;
            };
            let answer = self.desk.serve(client, packet, moment);
            send_to(&mut self.outlets, client, (moment, answer));
            served += 1;
        }
        self.tell_death();
        self.witness();
        Ok(served)
    }

    /// Announces that the handler sleeps if `rest` is a sleep and the next poll fails. Poll everything that the
    /// handler waits for between this call and `rest`.
    pub fn announce(&self, rest: Rest) {
        if rest != Rest::Sleep {
            return;
        }
        if any_waits(&self.outlets) {
            self.queue.bell().announce_for_room();
        } else {
            self.queue.bell().announce();
        }
    }

    /// Wakes each sleeping client, so that it polls for its reply once more.
    pub fn wake_clients(&self) {
        ring_all(&self.outlets);
    }

    /// Rests after a failed poll. A sleep ends with a put, with a take that makes room for a waiting reply, or when a
    /// client wakes the handler.
    pub fn rest<R: Wait>(&self, rt: &R, rest: Rest) {
        self.queue.bell().rest(rt, rest);
    }

    /// Serves batches of 64 packets until the server has died and a batch found none, or until `idle_limit` batches in
    /// a row found none.
    ///
    /// Between empty batches it rests, and sleeps for at most a millisecond. If a later batch runs out of memory,
    /// packets served earlier stay served.
    pub fn serve_until_closed<R: Wait>(
        &mut self,
        rt: &R,
        moment: S::Moment,
        idle_limit: u64,
    ) -> Result<ServeEnd, ServeFault>
        requires { 0 < idle_limit }
        ensures served { ServesSome S.gives moment self.old self.new }
        ensures end { IfOk result (λ end. EndsAs end (S.has_died self.new.server)) }
        ensures takes { IfOk result (λ end. LastFoundNothing (empty_batches end idle_limit) self.new) }
        ensures batches { IfOk result (λ end. EachLooked (empty_batches end idle_limit) self.old.outlets self.new.outlets) }
        ensures sound { IsSound S.gives S.has_died self.new }
    {
        let mut idle = 0u64;
        for _ in rt.forever() {
            let rest = Rest::after(idle);
            self.announce(rest);
            if self.serve_batch(rt, moment, BATCH)? > 0 {
                idle = 0;
                continue;
            }
            if self.server().died() {
                return Ok(ServeEnd::Closed);
            }
            idle += 1;
            if idle >= idle_limit {
                return Ok(ServeEnd::Idle);
            }
            self.nap(rt, rest);
        }
        unreachable!()
    }

    // Rests after a failed poll, and sleeps for at most a millisecond.
    fn nap<R: Wait>(&self, rt: &R, rest: Rest) {
        self.queue.bell().nap(rt, rest);
    }

    // Wakes each sleeping client if the server has died, so that it finds the mark set.
    fn tell_death(&self) {
        if self.server().died() {
            self.wake_clients();
        }
    }

    // Reserves room for this many more replies to each client.
    fn reserve(&mut self, more: usize) -> Result<(), AllocError>
        ensures same { self.new ≡ record self.old { outlets = self.new.outlets } }
        ensures same_outlets { EachGetsRoom self.old.outlets self.new.outlets }
        ensures room { OnOk result (EachHasRoom more self.new.outlets) }
    {
        reserve_all(&mut self.outlets, more)
    }

    // The handler's end of a port with no client yet. A refusal hands the server back.
    pub(crate) fn new(alloc: Global, server: S) -> Result<HandlerEnd<S>, OpenRefused<S>>
        requires { S.has_died server ≡ false }
        ensures { MatchResult result (λ h. IsNew server h × (h.outlets ≡ [])) (λ e. e.server ≡ server) }
    {
        let Ok(queue) = open_queue(alloc) else {
            return Err(OpenRefused { server });
        };
        let Ok(mark) = CloseSetter::new(alloc) else {
            return Err(OpenRefused { server });
        };
        Ok(HandlerEnd {
            queue,
            desk: Desk::new(server, mark),
            outlets: Vec::new(alloc),
        })
    }

    // Makes the end of one more client.
    pub(crate) fn add_client(
        &mut self,
        alloc: Global,
        ring: usize,
    ) -> Result<ClientEnd<S>, AllocError>
        requires served { self.old.served ≡ [] }
        requires count { length self.old.outlets < 18446744073709551615 }
        ensures ok { IfOk result (λ end. AddsClientEnd ring self.old self.new end) }
        ensures err { OnErr result (self.new ≡ self.old) }
    {
        self.outlets.reserve(1)?;
        let (outlet, inlet) = open_ring(alloc, ring)?;
        let mark = self.desk.reader()?;
        let queue = self.queue.add_client()?;
        self.outlets.push_reserved(outlet);
        Ok(ClientEnd::new(queue, inlet, mark))
    }

    pub(crate) fn into_server(self) -> S
        ensures { result ≡ self.server }
    {
        self.desk.into_server()
    }

    // The number of replies that client k + 1 has not taken.
    pub(crate) fn untaken(&mut self, k: usize, client: &mut ClientEnd<S>) -> usize
        requires place { k < length self.old.outlets }
        requires ring { (o : _) → slice_get self.old.outlets k ≡ Some o → o.ring ≡ client.old.ring }
        ensures same { (self.new ≡ self.old) × (client.new ≡ client.old) }
        ensures count { (o : _) → slice_get self.old.outlets k ≡ Some o → HasUntaken client.old o result }
    {
        let _served = self.desk.count();
        let outlet = &mut self.outlets[k];
        let posted = client.count_beside(outlet);
        posted + outlet.waiting()
    }

    // Lets a client look at the closing mark. Returns whether the result is consistent.
    pub(crate) fn hear(&self, client: &mut ClientEnd<S>) -> bool
        ensures same { client.new ≡ client.old }
        ensures heard { IsTrue result → Heard S.is_closing (S.has_died self.now.server) client.old }
    {
        client.tell(&self.desk)
    }

    // The number of packets served.
    pub(crate) fn served_count(&self) -> u64
        ensures { result ≡ length self.now.served }
    {
        self.desk.count()
    }

    // The parts of this end, after room for the rest was reserved.
    pub(crate) fn into_parts(self) -> (TakeEnd<S::Request>, Vec<Outlet<(S::Moment, S::Reply)>>, S)
        ensures queue { IsQueueOf self result.0 }
        ensures outlets { result.1.items ≡ self.outlets }
        ensures server { result.2 ≡ self.server }
        ensures few { length self.served < 2 ^ 64 }
    {
        let HandlerEnd {
            queue,
            desk,
            outlets,
        } = self;
        let _served = desk.count();
        (queue, outlets, desk.into_server())
    }
}
