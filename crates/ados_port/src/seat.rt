//! The rule of the port's queue, and the moves that keep it.
ghost use Rattle.std.specs.Prelude.{◌≡◌, ◌+◌, ◌<◌, [], ◌∷◌, ◌++◌};
ghost use Rattle.ados_port.specs.steps.Rule.{ArePutLists, TakesOne, client};
ghost use Rattle.ados_port.specs.Ends.{OfClients};

use crossbeam_queue::protocol::{Join, Lesson, Outcome, Protocol, Split};
use crossbeam_queue::{RuledSegQueue, SegPass};
use std::collections::LinkedList;

/// What a pass of the port knows. There is no value of it at run time.
pub struct Seat<Q> {
    pub handles: bool,
    pub number: usize,
    pub put: LinkedList<Q>,
    pub taken: LinkedList<(usize, Q)>,
    pub known: LinkedList<LinkedList<Q>>,
}

/// For each client, its packets in the handler's taken list and then its packets in the queue are its put list.
pub struct PortLaw;

impl<Q> Protocol<(usize, Q), Seat<Q>> for PortLaw {
    ghost use Rattle.std.specs.Prelude.{[]};
    ghost use Rattle.ados_port.specs.steps.Rule.{handler, PortRule};

    ghost holds = { PortRule };

    ghost first = { handler 0 [] [] };
}

/// A new client's pass is split off the handler's.
pub struct Opens;

impl<Q> Split<Seat<Q>> for Opens {
    ghost use Rattle.std.specs.Prelude.{◌+◌, []};
    ghost use Rattle.ados_port.specs.steps.Rule.{client, handler};

    ghost left = { λ v. handler (v.number + 1) v.taken v.known };

    ghost right = { λ v. client (v.number + 1) [] };
}

/// The handler's pass takes in a client's.
pub struct Gathers;

impl<Q> Join<Seat<Q>> for Gathers {
    ghost use Rattle.std.specs.Prelude.{◌∷◌, ◌++◌, []};
    ghost use Rattle.ados_port.specs.steps.Rule.{client, handler};

    ghost both = { λ v w. handler v.number v.taken (v.known ++ w.put ∷ []) };

    ghost spent = { client 0 [] };
}

/// A client's put.
pub struct Puts;

impl<Q> Outcome<(usize, Q), Seat<Q>> for Puts {
    ghost then = { λ v x w. w ≡ client v.number (v.put ++ x.1 ∷ []) };
}

/// The handler's take.
pub struct Takes;

impl<Q> Outcome<(usize, Q), Seat<Q>> for Takes {
    ghost then = { λ v x w. TakesOne v x w };
}

impl<Q> Lesson<(usize, Q), Seat<Q>> for Takes {
    ghost fact = { λ v items. OfClients v.number (v.taken ++ items) × ArePutLists v.known (v.taken ++ items) };
}

/// The port's queue.
pub type Port<Q> = RuledSegQueue<(usize, Q), Seat<Q>, PortLaw>;

pub type PortPass<Q> = SegPass<(usize, Q), Seat<Q>>;
