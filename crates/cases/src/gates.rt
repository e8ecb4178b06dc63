//! Two clients that take turns.

use ados_run::Gate;
use std::alloc::Global;
use std::sync::Arc;
use std::sync::atomic::{AtomicU64, Ordering};
use std::thread;

/// The maximum number of polls of a client.
const LOOKS: u32 = 1_000_000;

/// One of the two clients.
#[derive(Clone, Copy)]
pub(crate) enum Side {
    A,
    B,
}

/// The progress of one client: whether it was at its gate, and the number of replies that it has taken.
#[derive(Drop)]
pub(crate) struct Steps {
    started: AtomicU64,
    replies: AtomicU64,
}

impl Steps {
    fn new() -> Steps {
        Steps {
            started: AtomicU64::new(0),
            replies: AtomicU64::new(0),
        }
    }
}

/// The progress of both clients.
#[derive(Drop)]
pub(crate) struct Progress {
    a: Steps,
    b: Steps,
}

impl Progress {
    pub(crate) fn new() -> Progress {
        Progress {
            a: Steps::new(),
            b: Steps::new(),
        }
    }

    fn of(&self, side: Side) -> &Steps {
        match side {
            Side::A => &self.a,
            Side::B => &self.b,
        }
    }
}

/// Lets two clients begin together and then take turns: A's first packet, B's first, A's second, B's second, each after
/// the reply to the previous one.
#[derive(Drop)]
pub(crate) struct TurnGate {
    pub(crate) side: Side,
    pub(crate) progress: Arc<Progress, Global>,
}

// Polls until the count is at least `least`. Returns `false` after too many polls.
fn comes(count: &AtomicU64, least: u64) -> bool {
    for _ in 0..LOOKS {
        if count.load(Ordering::SeqCst) >= least {
            return true;
        }
        thread::yield_now();
    }
    false
}

// Notes that this side is at its gate, and waits for the other side.
fn begin_together(progress: &Progress, side: Side) -> bool {
    let other = match side {
        Side::A => Side::B,
        Side::B => Side::A,
    };
    progress.of(side).started.store(1, Ordering::SeqCst);
    comes(&progress.of(other).started, 1)
}

impl Gate for TurnGate {
    fn before(&mut self, number: u64) -> bool {
        let progress: &Progress = &self.progress;
        if number == 1 && !begin_together(progress, self.side) {
            return false;
        }
        match (self.side, number) {
            (Side::A, 2) => comes(&progress.of(Side::B).replies, 1),
            (Side::B, 1) => comes(&progress.of(Side::A).replies, 1),
            (Side::B, 2) => comes(&progress.of(Side::A).replies, 2),
            _ => true,
        }
    }

    fn after(&mut self, number: u64) {
        let progress: &Progress = &self.progress;
        progress
            .of(self.side)
            .replies
            .store(number, Ordering::SeqCst);
    }
}
