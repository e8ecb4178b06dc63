//! What an exchange keeps for one client.
ghost use Rattle.std.specs.Prelude.{◌≡◌, ◌+◌, ◌≤◌, ◌<◌, [], ◌∷◌, ◌++◌, IfNone, MatchOption};
ghost use Rattle.std.specs.VecDeque.{deque_len, deque_capacity};

use crate::Reply;
use std::alloc::Global;
use std::collections::VecDeque;

/// A client: its counts, the number of its waiting packets, and its replies. There is room for the reply to each
/// waiting packet.
#[derive(Drop)]
pub(crate) struct Client<A> {
    accepted: u64,
    taken: u64,
    waiting: usize,
    replies: VecDeque<A>,
    ghost has_room: { deque_len replies + waiting ≤ deque_capacity replies },
    ghost is_counted: { accepted ≡ taken + deque_len replies + waiting },
}

impl<A: Drop> Client<A> {
    ghost use Rattle.ados_port.specs.steps.Taking.{CountsOne, HasNoPlace, HasNoReply, HandsOut, places_of};

    pub(crate) fn new(alloc: Global) -> Self
        ensures accepted { result.accepted ≡ 0 }
        ensures taken { result.taken ≡ 0 }
        ensures waiting { result.waiting ≡ 0 }
        ensures replies { result.replies.items ≡ [] }
    {
        Client {
            accepted: 0,
            taken: 0,
            waiting: 0,
            replies: VecDeque::new(alloc),
        }
    }

    /// Counts one more packet, and reserves room for its reply. Returns its number, or `None` if no place is left and
    /// memory ran out, or if the count is at its maximum.
    pub(crate) fn accept(&mut self) -> Option<u64>
        ensures replies { self.new.replies.items ≡ self.old.replies.items }
        ensures taken { self.new.taken ≡ self.old.taken }
        ensures counts { MatchOption result (self.new.accepted ≡ self.old.accepted) (λ number. CountsOne self.old self.new number) }
        ensures full { IfNone result (HasNoPlace self.old) }
        ensures places { places_of self.old ≤ places_of self.new }
        ensures waits { MatchOption result (self.new.waiting ≡ self.old.waiting) (λ number. self.new.waiting ≡ self.old.waiting + 1) }
    {
        if self.accepted == u64::MAX {
            return None;
        }
        if self.replies.reserve(self.waiting + 1).is_err() {
            return None;
        }
        self.accepted += 1;
        self.waiting += 1;
        Some(self.accepted)
    }

    /// Stores the reply to a waiting packet, in the reserved room.
    #[inline(always)]
    pub(crate) fn answer(&mut self, reply: A)
        requires { 0 < self.old.waiting }
        ensures replies { self.new.replies.items ≡ self.old.replies.items ++ reply ∷ [] }
        ensures taken { self.new.taken ≡ self.old.taken }
        ensures accepted { self.new.accepted ≡ self.old.accepted }
        ensures waits { self.new.waiting + 1 ≡ self.old.waiting }
        ensures places { places_of self.new ≡ places_of self.old }
    {
        self.replies.push_back_reserved(reply);
        self.waiting -= 1;
    }

    /// Hands out the first reply.
    #[inline(always)]
    pub(crate) fn take(&mut self) -> Option<Reply<A>>
        ensures accepted { self.new.accepted ≡ self.old.accepted }
        ensures waiting { self.new.waiting ≡ self.old.waiting }
        ensures places { places_of self.new ≡ places_of self.old }
        ensures cases { MatchOption result (HasNoReply self.old self.new) (λ reply. HandsOut self.old self.new reply) }
    {
        let answer = self.replies.pop_front()?;
        self.taken += 1;
        Some(Reply {
            number: self.taken,
            answer,
        })
    }
}
