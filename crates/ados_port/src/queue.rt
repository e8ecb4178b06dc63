//! The two kinds of end of the port's queue.
ghost use Rattle.std.specs.Prelude.{◌≡◌, ◌+◌, ◌<◌, [], ◌∷◌, ◌++◌, length, IfOk, MatchResult, IfSome, IfNone, OnErr};
ghost use Rattle.ados_port.specs.steps.QueueCalls.{AddsPacket, HandsBack, AddsPutEnd, TakesPacket, FindsNothing};

use crate::bell::Bell;
use crate::seat::{Gathers, Opens, Port, PortPass, Puts, Takes};
use crate::trail::Trail;
use std::alloc::{AllocError, Global};
use std::marker::Model;
use std::snapshot::Snapshot;
use std::sync::{Arc, Wait};

// The queue that all ends share, and the handler's bell.
pub struct PortBox<Q: Drop> {
    queue: Port<Q>,
    bell: Bell,
}

impl<Q: Drop> Drop for PortBox<Q> {
    fn drop(self) {
        let Self { queue, bell } = self;
        queue.destroy();
        drop(bell);
    }
}

/// A client's end of the queue.
#[derive(Drop)]
pub struct PutEnd<Q: Drop> {
    port: Arc<PortBox<Q>, Global>,
    pass: PortPass<Q>,
    number: usize,
    count: u64,
}

impl<Q: Drop> Model for PutEnd<Q> {
    ghost use Rattle.std.specs.Prelude.{◌≡◌, ◌<◌, length};
    ghost use Rattle.std.specs.Arc.{arc_value};
    ghost use Rattle.crossbeam_queue.specs.SegTies.{IsSegPassOf};
    ghost use Rattle.ados_port.specs.steps.QueueEnds.{PutView, put_view, IsPutPass};

    ghost Value = { PutView Q };

    ghost view = { λ e. put_view (arc_value e.port).queue e.number e.pass.me.view };

    ghost invariant = { λ e. IsSegPassOf (arc_value e.port).queue e.pass × IsPutPass e.number e.count e.pass.me.view.client };
}

impl<Q: Drop> PutEnd<Q> {
    pub fn number(&self) -> usize
        ensures { result ≡ self.now.number }
    {
        self.number
    }

    /// The number of packets put.
    pub fn count(&self) -> u64
        ensures { result ≡ length self.now.put }
    {
        self.count
    }

    /// The bell at which the handler sleeps.
    pub fn bell(&self) -> &Bell {
        &self.port.bell
    }

    /// Puts a packet, and wakes the handler. Returns the packet's number. A refusal hands the packet back: the queue
    /// needs a new block for it and memory ran out, or the count of puts is at its maximum.
    pub fn put<R: Wait>(&mut self, rt: &R, packet: Q) -> Result<u64, Q>
        ensures put { MatchResult result (λ number. AddsPacket self.old packet self.new number) (λ back. HandsBack self.old packet self.new back) }
    {
        if self.count == u64::MAX {
            return Err(packet);
        }
        match self
            .port
            .queue
            .push_as::<Puts, R>(rt, &mut self.pass, (self.number, packet))
        {
            Ok(()) => {
                self.port.bell.ring();
                self.count += 1;
                Ok(self.count)
            }
            Err((_, back)) => Err(back),
        }
    }
}

/// What each take of a port's queue found, oldest first: a packet with its client's number, or nothing. Only contracts
/// see it, it takes no bytes, and only a take adds to it.
#[derive(Drop)]
pub struct TakeHistory<Q> {
    past: Trail<Snapshot<Option<(usize, Q)>>>,
}

impl<Q> Model for TakeHistory<Q> {
    ghost use Rattle.std.specs.Prelude.{ℕ, List, Option, map};

    ghost Value = { List (Option (ℕ × Q)) };

    ghost view = { λ t. map (λ found. found.value) t.past };
}

impl<Q: Drop> TakeHistory<Q> {
    fn new() -> TakeHistory<Q>
        ensures { result ≡ [] }
    {
        TakeHistory { past: Trail::new() }
    }

    fn note(&mut self, found: &Option<(usize, Q)>)
        ensures { self.new ≡ self.old ++ found.now ∷ [] }
    {
        self.past.push(Snapshot::of(found));
    }
}

/// The handler's end of the queue. It notes what each take found.
#[derive(Drop)]
pub struct TakeEnd<Q: Drop> {
    port: Arc<PortBox<Q>, Global>,
    pass: PortPass<Q>,
    clients: usize,
    takes: TakeHistory<Q>,
}

impl<Q: Drop> Model for TakeEnd<Q> {
    ghost use Rattle.std.specs.Prelude.{◌≡◌};
    ghost use Rattle.std.specs.Arc.{arc_value};
    ghost use Rattle.crossbeam_queue.specs.SegTies.{IsSegPassOf};
    ghost use Rattle.ados_port.specs.steps.QueueEnds.{TakeView, take_view, IsTakePass};

    ghost Value = { TakeView Q };

    ghost view = { λ e. take_view (arc_value e.port).queue e.clients e.takes e.pass.me.view.client };

    ghost invariant = { λ e. IsSegPassOf (arc_value e.port).queue e.pass × IsTakePass e.clients e.pass.me.view.client };
}

/// Makes a queue with no client yet.
pub fn open_queue<Q: Drop>(alloc: Global) -> Result<TakeEnd<Q>, AllocError>
    ensures { IfOk result (λ e. (e.clients ≡ 0) × (e.taken ≡ []) × (e.known ≡ []) × (e.takes ≡ [])) }
{
    let (queue, pass) = Port::with_rule(alloc)?;
    let bell = Bell::new();
    let port = Arc::new(alloc, PortBox { queue, bell })?;
    Ok(TakeEnd {
        port,
        pass,
        clients: 0,
        takes: TakeHistory::new(),
    })
}

impl<Q: Drop> TakeEnd<Q> {
    /// The bell at which the handler sleeps.
    pub fn bell(&self) -> &Bell {
        &self.port.bell
    }

    /// Makes the end of one more client.
    pub fn add_client(&mut self) -> Result<PutEnd<Q>, AllocError>
        requires { self.old.clients < 18446744073709551615 }
        ensures ok { IfOk result (λ end. AddsPutEnd self.old self.new end) }
        ensures err { OnErr result (self.new ≡ self.old) }
    {
        let port = Arc::try_clone(&self.port)?;
        let pass = self.port.queue.another::<Opens>(&mut self.pass);
        self.clients += 1;
        Ok(PutEnd {
            port,
            pass,
            number: self.clients,
            count: 0,
        })
    }

    /// Takes the first packet, and notes what it found. If none waits, everything that gathered clients put was taken.
    pub fn take<R: Wait>(&mut self, rt: &R) -> Option<(usize, Q)>
        ensures took { IfSome result (λ packet. TakesPacket self.old self.new packet) }
        ensures none { IfNone result (FindsNothing self.old self.new) }
    {
        let found = self.port.queue.pop_as::<Takes, R>(rt, &mut self.pass);
        self.takes.note(&found);
        found
    }

    /// Takes in the end of the next client.
    pub fn gather_one(&mut self, end: PutEnd<Q>)
        requires same { end.port ≡ self.old.port }
        requires next { end.number ≡ length self.old.known + 1 }
        ensures { self.new ≡ record self.old { known = self.old.known ++ end.put ∷ [] } }
    {
        let PutEnd { pass, .. } = end;
        self.port.queue.absorb::<Gathers>(&mut self.pass, pass);
    }

    /// Gives up the end, and hands out what its takes found.
    pub fn into_takes(self) -> TakeHistory<Q>
        ensures { result ≡ self.takes }
    {
        let TakeEnd { takes, .. } = self;
        takes
    }
}
