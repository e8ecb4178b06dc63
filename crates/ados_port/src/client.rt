//! A client's end of a port.
ghost use Rattle.std.specs.Prelude.{◌≡◌, ◌++◌, [], length, true, false, IfSome, IfNone, IsTrue, MatchResult, ◌<◌, ◌^◌, List};
ghost use Rattle.ados_port.specs.Rings.{all_of};
ghost use Rattle.ados_port.specs.steps.Rooms.{RoomFits, Left};
ghost use Rattle.ados_port.specs.Ends.{ClientView, PutAccepted, PutIsRefused, TookReply};
ghost use Rattle.ados_port.specs.steps.HandlerEnds.{Heard};
ghost use Rattle.ados_port.specs.steps.Views.{client_view};

use crate::bell::Rest;
use crate::closing_mark::CloseReader;
use crate::desk::Desk;
use crate::queue::PutEnd;
use crate::ring::{Inlet, Outlet};
use crate::{PutRefused, Reply, Server};
use std::marker::Model;
use std::sync::Wait;

/// A client's end of a port. It may move to another thread.
///
/// It knows of the close once it has found the closing mark set or has taken a closing reply, and never forgets it.
#[derive(Drop)]
pub struct ClientEnd<S: Server> {
    queue: PutEnd<S::Request>,
    inlet: Inlet<(S::Moment, S::Reply)>,
    mark: CloseReader,
    count: u64,
    shut: bool,
}

impl<S: Server> Model for ClientEnd<S> {
    ghost use Rattle.std.specs.Prelude.{◌≡◌, length};
    ghost use Rattle.std.specs.List.{list_any};
    ghost use Rattle.ados_port.specs.Ends.{ClientView};
    ghost use Rattle.ados_port.specs.steps.Views.{client_view};

    ghost Value = { ClientView S.Request S.Moment S.Reply };

    ghost view = { λ e. client_view e.queue e.inlet e.mark e.shut };

    ghost invariant = { λ e. (e.count ≡ length e.inlet.taken) × (e.shut ≡ list_any (λ x. S.is_closing x.1) e.inlet.taken) };
}

impl<S: Server> ClientEnd<S> {
    pub(crate) fn new(
        queue: PutEnd<S::Request>,
        inlet: Inlet<(S::Moment, S::Reply)>,
        mark: CloseReader,
    ) -> ClientEnd<S>
        requires { inlet.taken ≡ [] }
        ensures { result ≡ client_view queue inlet mark false }
    {
        ClientEnd {
            queue,
            inlet,
            mark,
            count: 0,
            shut: false,
        }
    }

    /// The client's number, from 1.
    pub fn number(&self) -> usize
        ensures { result ≡ self.now.number }
    {
        self.queue.number()
    }

    /// Returns whether this end knows of the close, after a look at the closing mark.
    pub fn is_shut(&mut self) -> bool
        ensures knows { result ≡ self.new.knows }
        ensures stays { self.old.knows ≡ true → self.new.knows ≡ true }
        ensures same { self.new ≡ record self.old { knows = result } }
    {
        let marked = self.mark.look();
        self.shut || marked
    }

    /// Puts a packet, and returns its number, from 1.
    ///
    /// A refusal hands the packet back, and changes no list. It is `Closed` exactly if this end knows of the close when
    /// the call ends. It is `NoRoom` only if the port's queue is full, so that a packet more needs memory, and memory ran
    /// out; or if the count of puts is at its maximum. A client's own replies never refuse its put.
    pub fn put<R: Wait>(
        &mut self,
        rt: &R,
        packet: S::Request,
    ) -> Result<u64, PutRefused<S::Request>>
        ensures put { MatchResult result (λ number. PutAccepted self.old packet self.new number) (λ refused. PutIsRefused self.old packet self.new refused) }
        ensures stays { self.old.knows ≡ true → self.new.knows ≡ true }
        ensures same { self.new ≡ record self.old { put = self.new.put; knows = self.new.knows; full = self.new.full } }
    {
        if self.is_shut() {
            return Err(PutRefused::Closed(packet));
        }
        match self.queue.put(rt, packet) {
            Ok(number) => Ok(number),
            Err(back) => Err(PutRefused::NoRoom(back)),
        }
    }

    /// Takes the next reply, if one was posted. Replies are numbered from 1, in the order of the puts.
    pub fn take(&mut self) -> Option<Reply<S::Reply>>
        ensures some { IfSome result (λ reply. TookReply S.is_closing self.old self.new reply) }
        ensures none { IfNone result (self.new ≡ self.old) }
        ensures same { self.new ≡ record self.old { taken = self.new.taken; knows = self.new.knows } }
    {
        // There is no reply: so many packets were never put.
        if self.count == u64::MAX {
            return None;
        }
        let (_, answer) = self.inlet.take()?;
        self.queue.bell().ring_for_room();
        self.count += 1;
        if S::closes(&answer) {
            self.shut = true;
        }
        Some(Reply {
            number: self.count,
            answer,
        })
    }

    /// Takes the next reply as `take` does, with at most `looks` polls.
    ///
    /// It rests between two polls. It sleeps for at most a millisecond, until a reply is posted or the server has died.
    pub fn take_within<R: Wait>(&mut self, rt: &R, looks: u64) -> Option<Reply<S::Reply>>
        ensures some { IfSome result (λ reply. TookReply S.is_closing self.old self.new reply) }
        ensures none { IfNone result (self.new ≡ self.old) }
        ensures same { self.new ≡ record self.old { taken = self.new.taken; knows = self.new.knows } }
    {
        for look in 0..looks {
            let rest = Rest::after(look);
            self.announce(rest);
            if let Some(reply) = self.take() {
                return Some(reply);
            }
            self.nap(rt, rest);
        }
        None
    }

    /// Wakes a sleeping handler, so that it polls its other sources too.
    pub fn wake_handler(&self) {
        self.queue.bell().ring();
    }

    // Announces that this end sleeps if `rest` is a sleep and the next poll fails.
    fn announce(&self, rest: Rest) {
        self.inlet.announce(rest);
    }

    // Rests after a failed poll.
    fn nap<R: Wait>(&self, rt: &R, rest: Rest) {
        self.inlet.nap(rt, rest);
    }

    // The number of packets put.
    pub(crate) fn put_count(&self) -> u64
        ensures { result ≡ length self.now.put }
    {
        self.queue.count()
    }

    // Looks at the closing mark. Returns whether the result is consistent with the mark of the handler's desk.
    pub(crate) fn tell(&mut self, desk: &Desk<S>) -> bool
        ensures same { self.new ≡ self.old }
        ensures heard { IsTrue result → Heard S.is_closing (S.has_died desk.now.server) self.old }
    {
        desk.hear(&mut self.mark)
    }

    // The number of replies posted and not taken, with both ends at hand.
    pub(crate) fn count_beside(&mut self, outlet: &mut Outlet<(S::Moment, S::Reply)>) -> usize
        requires { outlet.old.ring ≡ self.old.ring }
        ensures same { (self.new ≡ self.old) × (outlet.new ≡ outlet.old) }
        ensures fifo { (rest : List (S.Moment × S.Reply)) × (outlet.old.posted ≡ self.old.taken ++ rest) × (length rest ≡ result) }
    {
        self.inlet.count_beside(outlet)
    }

    // Gives up the end: its untaken replies move to `room`, and the queue's end remains.
    pub(crate) fn leave(
        self,
        outlet: &mut Outlet<(S::Moment, S::Reply)>,
        room: &mut Vec<Reply<S::Reply>>,
    ) -> PutEnd<S::Request>
        requires ring { outlet.old.ring ≡ self.ring }
        requires room { RoomFits self outlet.old room.old }
        requires numbers { length (all_of outlet.old) < 2 ^ 64 }
        ensures put { result ≡ record { port = self.port; number = self.number; put = self.put; full = self.full } }
        ensures replies { Left self (all_of outlet.old) room.new.items }
    {
        let ClientEnd {
            queue,
            inlet,
            count,
            ..
        } = self;
        inlet.drain(outlet, count, room);
        queue
    }
}
