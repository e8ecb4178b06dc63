//! Runs a list of steps at an exchange.
ghost use Rattle.std.specs.Prelude.{◌≡◌, true, IfOk, MatchResult};
ghost use Rattle.ados_port.specs.History.{PortHistory, events_of};
ghost use Rattle.ados_port.specs.Gives.{FirstAreServed, PutsAreClosed};
ghost use Rattle.ados_port.specs.Refused.{HandsBack};
ghost use Rattle.ados_port.specs.Exchanges.{CanCount, HasPlacesFor, NoneIsFull, put_count};

use crate::exchange::Exchange;
use crate::{Outcome, Server, Step};
use std::alloc::Global;
use std::collections::VecDeque;

/// The exchange after a list of steps, and the outcome of each step.
#[derive(Drop)]
pub struct RunDone<S: Server> {
    pub exchange: Exchange<S>,
    pub outcomes: Vec<Outcome<S::Request, S::Reply>>,
}

/// The exchange and the steps, unchanged: memory for the outcomes ran out.
#[derive(Drop)]
pub struct RunRefused<S: Server> {
    pub exchange: Exchange<S>,
    pub steps: Vec<Step<S::Request, S::Moment>>,
}

/// Does these steps in order. Room for all outcomes is reserved before the first step.
pub fn run<S: Server>(
    alloc: Global,
    exchange: Exchange<S>,
    steps: Vec<Step<S::Request, S::Moment>>,
) -> Result<RunDone<S>, RunRefused<S>>
    ensures history { MatchResult result
        (λ done. PortHistory S.gives S.has_died exchange.port steps.items done.outcomes.items done.exchange.port)
        (HandsBack exchange steps.items) }
    ensures first_served { IfOk result
        (λ done. FirstAreServed exchange.port (events_of steps.items done.outcomes.items) done.exchange.port) }

    // If there are places for all packets, no put is refused as `NoRoom`.
    ensures ample { HasPlacesFor (put_count steps.items) exchange → CanCount (put_count steps.items) exchange
        → IfOk result (λ done. NoneIsFull done.outcomes.items) }

    // After a death no packet is accepted, in this run and in later ones.
    ensures stays_dead { S.has_died exchange.port.server ≡ true → IfOk result (λ done. S.has_died done.exchange.port.server ≡ true) }
    ensures stays_closed { S.has_died exchange.port.server ≡ true
        → IfOk result (λ done. PutsAreClosed exchange.port (events_of steps.items done.outcomes.items)) }
{
    let mut exchange = exchange;
    let Ok(mut outcomes) = Vec::with_capacity(alloc, steps.len()) else {
        return Err(RunRefused { exchange, steps });
    };
    let mut rest = VecDeque::from_vec(steps);
    while let Some(step) = rest.pop_front() {
        outcomes.push_reserved(exchange.step(step));
    }
    Ok(RunDone { exchange, outcomes })
}
