//! How an end waits for the other side: it polls a few times, then yields between polls, then sleeps.
ghost use Rattle.std.specs.Prelude.{◌≡◌, ◌<◌, ◌≤◌};
ghost use Rattle.ados_port.specs.declared.bell.Rest.TheVariants.{Look, Sleep};

use std::sync::Wait;
use std::sync::atomic::{AtomicU64, Ordering};
use std::time::Duration;
use std::{hint, thread};

/// The number of failed polls that are followed at once by another one, and the number that are followed by a yield.
/// Both numbers are this project's own choice: the polls last some microseconds, in which most packets are served.
const LOOKS: u64 = 64;

const YIELDS: u64 = 64;

/// What an end does between two polls, if the first failed.
#[derive(Clone, Copy, PartialEq, Eq)]
pub enum Rest {
    Look,
    Yield,
    Sleep,
}

impl Rest {
    /// The rest after this many failed polls, one after another.
    pub fn after(looks: u64) -> Rest
        ensures look { result ≡ Look → looks < 64 }
        ensures sleep { 128 ≤ looks → result ≡ Sleep }
    {
        if looks < LOOKS {
            Rest::Look
        } else if looks < LOOKS + YIELDS {
            Rest::Yield
        } else {
            Rest::Sleep
        }
    }
}

/// The longest nap, in milliseconds.
const NAP: u64 = 1;

const AWAKE: u64 = 0;

const SLEEPS: u64 = 1;

const WANTS_ROOM: u64 = 2;

/// A place where one end sleeps until another rings.
///
/// The end announces that it will sleep, then polls once more, and only then sleeps. The other side first makes the
/// change and then rings. So either the poll finds the change or the ring finds the sleeper. If no sleep is announced,
/// a ring is one load.
#[derive(Drop)]
pub struct Bell {
    state: AtomicU64,
}

impl Bell {
    pub fn new() -> Bell {
        Bell {
            state: AtomicU64::new(AWAKE),
        }
    }

    /// Announces a sleep that any ring ends.
    pub fn announce(&self) {
        self.state.store(SLEEPS, Ordering::SeqCst);
    }

    /// Announces a sleep that also ends when a reply ring gets room.
    pub fn announce_for_room(&self) {
        self.state.store(WANTS_ROOM, Ordering::SeqCst);
    }

    /// Rests. A sleep ends with a ring after its announcement, and may end without a reason.
    pub fn rest<R: Wait>(&self, rt: &R, rest: Rest) {
        self.rest_within(rt, rest, Duration::MAX);
    }

    /// Rests, and sleeps for at most a millisecond.
    pub fn nap<R: Wait>(&self, rt: &R, rest: Rest) {
        self.rest_within(rt, rest, Duration::from_millis(NAP));
    }

    fn rest_within<R: Wait>(&self, rt: &R, rest: Rest, longest: Duration) {
        match rest {
            Rest::Look => hint::spin_loop(),
            Rest::Yield => thread::yield_now(),
            Rest::Sleep => self.sleep(rt, longest),
        }
    }

    fn sleep<R: Wait>(&self, rt: &R, longest: Duration) {
        let announced = self.state.load(Ordering::SeqCst);
        if announced != AWAKE {
            self.state
                .park_timeout(rt, (announced & 0xffff_ffff) as u32, longest);
        }
    }

    /// Wakes the end that sleeps here.
    pub fn ring(&self) {
        if self.state.load(Ordering::SeqCst) != AWAKE {
            self.wake();
        }
    }

    /// Wakes the end that sleeps here until a reply ring has room.
    pub fn ring_for_room(&self) {
        if self.state.load(Ordering::SeqCst) == WANTS_ROOM {
            self.wake();
        }
    }

    fn wake(&self) {
        self.state.store(AWAKE, Ordering::SeqCst);
        self.state.wake_one();
    }
}
