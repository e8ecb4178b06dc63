//! The effect of a DIE in a race on each client's packets.
use crate::placed::{Placed, PlacedReply};
use crate::racing::Raced;
use crate::spoken::Spoken;
use ados_port::{Gathered, Reply};
use std::alloc::Global;
use std::process::Abort;

/// The results of a packet that the server does not know, of the DIE that ends it, and of every later packet.
const UNKNOWN: (i32, i32) = (0, 209);

const ENDED: (i32, i32) = (-1, 0);

const DEAD: (i32, i32) = (0, 218);

/// A client's replies: the number before the DIE, whether it is among them, and the number after it.
#[derive(Clone, Copy)]
struct Share {
    before: usize,
    ended: usize,
    behind: usize,
}

impl Share {
    fn count(self) -> usize {
        self.before
            .saturating_add(self.ended)
            .saturating_add(self.behind)
    }
}

// The share of a client with replies numbered from 1, in the order of their kinds.
fn share_of<S: Spoken>(replies: &[Reply<S::Reply>]) -> Option<Share> {
    let mut share = Share {
        before: 0,
        ended: 0,
        behind: 0,
    };
    let mut next = 1u64;
    for reply in replies {
        let results = S::results_of(&reply.answer);
        if reply.number != next {
            return None;
        }
        next = next.wrapping_add(1);
        if results == UNKNOWN && share.ended == 0 && share.behind == 0 {
            share.before = share.before.saturating_add(1);
        } else if results == ENDED && share.ended == 0 && share.behind == 0 {
            share.ended = 1;
        } else if results == DEAD {
            share.behind = share.behind.saturating_add(1);
        } else {
            return None;
        }
    }
    Some(share)
}

/// The number of a client's packets that are unanswered.
fn waiting_of<S: Spoken>(left: &Gathered<S>, client: usize) -> usize {
    let mut count = 0usize;
    for (own, _) in &left.unanswered {
        if *own == client {
            count = count.saturating_add(1);
        }
    }
    count
}

/// Whether a client's replies are parted by the DIE, which is the first client's, after `die_at` other packets.
fn is_fair(share: Share, client: usize, die_at: usize) -> bool {
    if client == 1 {
        share.ended == 1 && share.before == die_at
    } else {
        share.ended == 0
    }
}

/// Whether the first client's DIE, after `die_at` other packets, ended the server: the replies of each client are 0 209
/// and then 0 218, with the reply of the DIE in between for the first client; served and unanswered packets of a client
/// are as many as it put.
pub(crate) fn is_parted<S: Spoken>(raced: &Raced<S>, die_at: usize) -> bool {
    let left = &raced.left;
    let mut counts = raced.counts.iter();
    let mut client = 0usize;
    for replies in &left.untaken {
        client = client.wrapping_add(1);
        let accepted = *counts.next().unwrap_or(&usize::MAX);
        let (Some(share), waiting) = (share_of::<S>(replies), waiting_of(left, client)) else {
            return false;
        };
        if !is_fair(share, client, die_at) || share.count().saturating_add(waiting) != accepted {
            return false;
        }
    }
    left.server.died() && client == raced.counts.len()
}

/// The results of all replies in the order in which their packets were served, of all clients. A place is empty if no
/// reply belongs to it, if two do, or if a client's packets were not served in the order of its puts.
pub(crate) fn served_order<S: Spoken + Drop, R: Abort>(
    rt: &R,
    alloc: Global,
    raced: &Raced<Placed<S>>,
) -> Vec<Option<(i32, i32)>> {
    let mut order = vec![in alloc; None; raced.left.server.served].expect(rt, "error");
    for replies in &raced.left.untaken {
        put_in_order::<S>(&mut order, replies);
    }
    order
}

// Puts the results of a client's replies into their places, which must ascend.
fn put_in_order<S: Spoken>(
    order: &mut [Option<(i32, i32)>],
    replies: &[Reply<PlacedReply<S::Reply>>],
) {
    let mut least = 0usize;
    for reply in replies {
        let place = reply.answer.place;
        if place < least || place >= order.len() {
            return;
        }
        least = place.saturating_add(1);
        order[place] = match order[place] {
            None => Some(S::results_of(&reply.answer.answer)),
            Some(_) => None,
        };
    }
}

/// Whether the packets before one DIE were answered 0 209, and all after it 0 218.
pub(crate) fn ends_at_the_die(order: &[Option<(i32, i32)>]) -> bool {
    let mut ended = false;
    for results in order {
        if *results == Some(ENDED) && !ended {
            ended = true;
        } else if *results != Some(if ended { DEAD } else { UNKNOWN }) {
            return false;
        }
    }
    ended
}
