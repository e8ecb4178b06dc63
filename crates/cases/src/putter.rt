//! A client that puts one packet after another.
ghost use Rattle.ados_port.specs.Grown.{Grown};

use ados_port::{Client, ClientEnd, Server};
use std::sync::Wait;

/// Puts its packets in order, each once, also after the close. If it `takes`, it then takes the reply to each packet.
#[derive(Drop)]
pub(crate) struct Putter<S: Server> {
    pub(crate) packets: Vec<S::Request>,
    /// The maximum number of looks for a reply.
    pub(crate) turns: u64,
    pub(crate) takes: bool,
}

impl<S: Server> Client<S> for Putter<S> {
    ghost use Rattle.std.specs.Prelude.{⊤};

    type Report = usize;

    ghost does = { λ job old new report. ⊤ };

    // Returns the number of accepted packets; for a client that takes, the number of replies taken.
    fn run<R: Wait>(self, rt: &R, end: &mut ClientEnd<S>) -> usize {
        let Putter {
            packets,
            turns,
            takes,
        } = self;
        let mut accepted = 0usize;
        for packet in packets {
            accepted = accepted.saturating_add(put_one(rt, end, packet));
        }
        if takes {
            take_many(rt, end, accepted, turns)
        } else {
            accepted
        }
    }
}

// Puts a packet once. Returns 1 if it was accepted, else 0: the port has closed, or there is no room.
fn put_one<S: Server, R: Wait>(rt: &R, end: &mut ClientEnd<S>, packet: S::Request) -> usize
    ensures { Grown end.old end.new }
{
    end.put(rt, packet).is_ok() as usize
}

// Takes `count` replies, with at most `turns` looks for each. Returns the number of those that came.
fn take_many<S: Server, R: Wait>(rt: &R, end: &mut ClientEnd<S>, count: usize, turns: u64) -> usize
    ensures { Grown end.old end.new }
{
    let mut taken = 0usize;
    for _ in 0..count {
        taken = taken.saturating_add(take_one(rt, end, turns));
    }
    taken
}

// Takes one reply, with at most `turns` looks. Returns 1 if it came, else 0.
fn take_one<S: Server, R: Wait>(rt: &R, end: &mut ClientEnd<S>, turns: u64) -> usize
    ensures { Grown end.old end.new }
{
    end.take_within(rt, turns).is_some() as usize
}
