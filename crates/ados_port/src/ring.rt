//! The two ends of a reply ring, with a list beside the sending end.
ghost use Rattle.std.specs.Prelude.{◌≡◌, ◌+◌, ◌-◌, ◌<◌, ◌≤◌, [], ◌∷◌, ◌++◌, length, IfOk, OnOk, IfSome, IfNone, ◌^◌, List, vec_len, vec_capacity};
ghost use Rattle.rtrb.specs.Ring.{ProducerLooked, known_free, known_items};
ghost use Rattle.ados_port.specs.Lawful.{numbered};
ghost use Rattle.ados_port.specs.Gathering.{answers};
ghost use Rattle.ados_port.specs.Rings.{OutView, Offers, StaysPosted, all_of};
ghost use Rattle.ados_port.specs.steps.Sending.{GetsRoom};
ghost use Rattle.ados_port.specs.steps.Rooms.{FitIn};

use crate::Reply;
use crate::bell::{Bell, Rest};
use crate::trail::Trail;
use rtrb::{Consumer, Producer, PushError, RingBuffer};
use std::alloc::{AllocError, Global};
use std::collections::VecDeque;
use std::marker::Model;
use std::sync::{Arc, Wait};

/// The sending end. Replies wait beside it while the ring is full.
#[derive(Drop)]
pub struct Outlet<T: Drop> {
    producer: Producer<T>,
    waiting: VecDeque<T>,
    looks: Trail<usize>,
    bell: Arc<Bell, Global>,
}

impl<T: Drop> Model for Outlet<T> {
    ghost use Rattle.rtrb.specs.Ring.{producer_capacity, sent};
    ghost use Rattle.ados_port.specs.Rings.{OutView};

    ghost Value = { OutView T };

    ghost use Rattle.ados_port.specs.steps.RingEnds.{ring_of, room_in};

    ghost view = { λ o. record {
      ring = ring_of o.producer.end;
      places = producer_capacity o.producer;
      posted = sent o.producer;
      waiting = o.waiting.items;
      room = room_in o.waiting;
      looks = o.looks;
    } };
}

/// The receiving end.
#[derive(Drop)]
pub struct Inlet<T: Drop> {
    consumer: Consumer<T>,
    bell: Arc<Bell, Global>,
}

impl<T: Drop> Model for Inlet<T> {
    ghost use Rattle.rtrb.specs.Ring.{received};
    ghost use Rattle.ados_port.specs.steps.Sending.{InView};

    ghost Value = { InView T };

    ghost use Rattle.ados_port.specs.steps.RingEnds.{ring_of};

    ghost view = { λ i. record { ring = ring_of i.consumer.end; taken = received i.consumer } };
}

/// Makes a ring with this many places.
pub fn open_ring<T: Drop>(alloc: Global, places: usize) -> Result<(Outlet<T>, Inlet<T>), AllocError>
    ensures { IfOk result (λ r. (r.0.ring ≡ r.1.ring) × (r.0.posted ≡ []) × (r.0.waiting ≡ []) × (r.1.taken ≡ []) × (r.0.places ≡ places)) }
{
    let (producer, consumer) = RingBuffer::new(alloc, places)?;
    let bell = Arc::new(alloc, Bell::new())?;
    let there = Arc::try_clone(&bell)?;
    let outlet = Outlet {
        producer,
        waiting: VecDeque::new(alloc),
        looks: Trail::new(),
        bell: there,
    };
    Ok((outlet, Inlet { consumer, bell }))
}

// The number of free places of the ring, by a look at it, which is noted. If nothing waits, the ring is not looked at,
// and the known number is used.
fn look<T: Drop>(producer: &mut Producer<T>, waits: bool, looks: &mut Trail<usize>) -> usize
    ensures same { ProducerLooked producer.old producer.new }
    ensures found { result ≡ known_free producer.new }
    ensures noted { looks.new ≡ looks.old ++ result ∷ [] }
{
    if !waits {
        let known = producer.cached_slots();
        looks.push(known);
        return known;
    }
    let free = producer.slots();
    looks.push(free);
    free
}

impl<T: Drop> Outlet<T> {
    /// Reserves room for `more` waiting replies.
    pub fn reserve(&mut self, more: usize) -> Result<(), AllocError>
        ensures same { GetsRoom self.old self.new }
        ensures ok { OnOk result (more ≤ self.new.room) }
    {
        self.waiting.reserve(more)
    }

    /// Posts what fits, in order, and wakes the receiving end. Returns how many replies still wait.
    pub fn post_waiting(&mut self) -> usize
        ensures offers { Offers self.old self.new }
        ensures count { result ≡ length self.new.waiting }
    {
        let waits = !self.waiting.is_empty();
        let free = look(&mut self.producer, waits, &mut self.looks);
        for _ in 0..free {
            let Some(reply) = self.waiting.pop_front() else {
                break;
            };
            self.producer.push_reserved(reply);
            self.bell.ring();
        }
        self.waiting.len()
    }

    /// Posts a reply and wakes the receiving end, or queues the reply after those that wait.
    pub fn send(&mut self, reply: T)
        requires { 0 < self.old.room }
        ensures posted { StaysPosted self.old self.new }
        ensures sent { all_of self.new ≡ all_of self.old ++ reply ∷ [] }
        ensures room { self.old.room ≤ self.new.room + 1 }
        ensures looks { self.new.looks ≡ self.old.looks }
    {
        let mut reply = reply;
        if self.waiting.is_empty() {
            match self.producer.push(reply) {
                Ok(()) => {
                    self.bell.ring();
                    return;
                }
                Err(PushError::Full(back)) => reply = back,
            }
        }
        let Ok(()) = self.waiting.push_back(reply) else {
            unreachable!()
        };
    }
}

impl<T: Drop> Inlet<T> {
    /// Announces that this end sleeps if `rest` is a sleep and the next poll fails.
    pub fn announce(&self, rest: Rest) {
        if rest == Rest::Sleep {
            self.bell.announce();
        }
    }

    /// Rests after a failed poll, and sleeps for at most a millisecond.
    pub fn nap<R: Wait>(&self, rt: &R, rest: Rest) {
        self.bell.nap(rt, rest);
    }

    pub fn take(&mut self) -> Option<T>
        ensures ring { self.new.ring ≡ self.old.ring }
        ensures some { IfSome result (λ x. self.new.taken ≡ self.old.taken ++ x ∷ []) }
        ensures none { IfNone result (self.new.taken ≡ self.old.taken) }
    {
        self.consumer.pop().ok()
    }

    /// The number of replies posted and not taken, with both ends at hand.
    pub fn count_beside(&mut self, outlet: &mut Outlet<T>) -> usize
        requires { outlet.old.ring ≡ self.old.ring }
        ensures same { (self.new ≡ self.old) × (outlet.new ≡ outlet.old) }
        ensures fifo { (rest : _) × (outlet.old.posted ≡ self.old.taken ++ rest) × (length rest ≡ result) }
    {
        self.consumer.slots_beside(&mut outlet.producer)
    }
}

impl<T: Drop> Outlet<T> {
    /// Wakes the receiving end if it sleeps.
    pub fn ring(&self) {
        self.bell.ring();
    }

    pub fn waiting(&self) -> usize
        ensures { result ≡ length self.now.waiting }
    {
        self.waiting.len()
    }
}

// Takes the items that are known to be in the ring, and numbers them.
fn drain_ring<M: Drop, A: Drop>(
    consumer: &mut Consumer<(M, A)>,
    count: usize,
    number: u64,
    into: &mut Vec<Reply<A>>,
)
    requires known { count ≡ length (known_items consumer.old) }
    requires numbers { number + count < 2 ^ 64 }
    requires room { vec_len into.old + count ≤ vec_capacity into.old }
    ensures items { into.new.items ≡ into.old.items ++ numbered (number + 1) (answers (known_items consumer.old)) }
    ensures room { vec_capacity into.new ≡ vec_capacity into.old }
{
    let mut number = number;
    for _ in 0..count {
        let (_, answer) = consumer.pop_known();
        number += 1;
        into.push_reserved(Reply { number, answer });
    }
}

// Takes the waiting items, and numbers them.
fn drain_list<M: Drop, A: Drop>(
    waiting: &mut VecDeque<(M, A)>,
    number: u64,
    into: &mut Vec<Reply<A>>,
)
    requires numbers { number + length waiting.old.items < 2 ^ 64 }
    requires room { vec_len into.old + length waiting.old.items ≤ vec_capacity into.old }
    ensures items { into.new.items ≡ into.old.items ++ numbered (number + 1) (answers waiting.old.items) }
{
    let mut number = number;
    for _ in 0..waiting.len() {
        let Some((_, answer)) = waiting.pop_front() else {
            break;
        };
        number += 1;
        into.push_reserved(Reply { number, answer });
    }
}

impl<M: Drop, A: Drop> Inlet<(M, A)> {
    /// Takes everything sent and not taken, with both ends at hand. `count` replies were taken before.
    pub fn drain(mut self, outlet: &mut Outlet<(M, A)>, count: u64, into: &mut Vec<Reply<A>>)
        requires ring { outlet.old.ring ≡ self.ring }
        requires empty { into.old.items ≡ [] }
        requires room { FitIn self.taken outlet.old into.old }
        requires numbers { (count ≡ length self.taken) × (length (all_of outlet.old) < 2 ^ 64) }
        ensures { (rest : List (M × A)) × (all_of outlet.old ≡ self.taken ++ rest) × (into.new.items ≡ numbered (count + 1) (answers rest)) }
    {
        let posted = self.consumer.slots_beside(&mut outlet.producer);
        drain_ring(&mut self.consumer, posted, count, into);
        drain_list(&mut outlet.waiting, count + posted as u64, into);
    }
}
