//! Times round trips through a port: each client puts a number and takes its reply before the next one, at once or
//! after a second.
ghost use Rattle.std.specs.Prelude.{◌≡◌, ◌==◌, ◌||◌, ◌<◌, false, IfOk, length};
ghost use Rattle.ados_port.specs.Grown.{Grown};

use ados_port::{Client, ClientEnd, Server, open_port, serve_clients};
use anyhow::{Result, bail};
use std::alloc::{AllocError, Global};
use std::rt::Clock;
use std::sync::Wait;
use std::sync::atomic::AtomicU64;
use std::thread::Threads;
use std::time::{Duration, Instant};

/// The default number of round trips of each client.
pub(crate) const TRIPS: u32 = 1_000;

/// The number of round trips of each idle client, and the number of idle clients.
pub(crate) const IDLE_TRIPS: u32 = 1;

const IDLE_CLIENTS: usize = 8;

/// The number of places in a client's reply ring.
const RING: usize = 8;

/// Answers each number with itself, and dies at 0.
#[derive(Drop)]
struct Echo {
    died: bool,
}

impl Server for Echo {
    type Request = u64;

    type Reply = u64;

    type Moment = u64;

    ghost use Rattle.std.specs.Prelude.{◌≡◌, ◌==◌, ◌||◌};
    ghost use Rattle.bench.specs.Echoes.{stays, closes};

    ghost gives = { λ old request moment new reply. (reply ≡ request) × (new.died ≡ (old.died || (request == 0))) };

    ghost has_died = { λ s. s.died };

    ghost is_closing = { λ r. r == 0 };

    fn serve(&mut self, request: u64, moment: u64) -> u64 {
        let _ = moment;
        self.died = self.died || request == 0;
        request
    }

    fn died(&self) -> bool {
        self.died
    }

    fn closes(reply: &u64) -> bool {
        *reply == 0
    }

    ghost stays_dead = { λ old new request moment reply given dead. stays old.died new.died request given.1 dead };

    ghost closes_dead = { λ old new request moment reply given closing. closes old.died new.died request reply given.0 given.1 closing };
}

/// Makes round trips, and waits this many seconds before each.
#[derive(Drop)]
struct RoundTrips {
    count: u64,
    pause: u64,
}

impl Client<Echo> for RoundTrips {
    type Report = u64;

    ghost does = { λ job old new report. Unit {0} };

    /// Returns the number of right replies.
    fn run<R: Wait>(self, rt: &R, end: &mut ClientEnd<Echo>) -> u64 {
        let mut right = 0u64;
        for number in 0..self.count {
            pause(rt, self.pause);
            if trip(rt, end, number.wrapping_add(1)) {
                right = right.wrapping_add(1);
            }
        }
        right
    }
}

/// Waits for this many seconds.
fn pause<R: Wait>(rt: &R, seconds: u64) {
    if seconds > 0 {
        AtomicU64::new(0).park_timeout(rt, 0, Duration::from_secs(seconds));
    }
}

/// Puts a number, and waits for its reply.
fn trip<R: Wait>(rt: &R, end: &mut ClientEnd<Echo>, number: u64) -> bool
    ensures { Grown end.old end.new }
{
    match end.put(rt, number) {
        Ok(_) => take_one(rt, end, number),
        Err(_) => false,
    }
}

/// Takes the next reply, and returns whether it is this number.
fn take_one<R: Wait>(rt: &R, end: &mut ClientEnd<Echo>, number: u64) -> bool
    ensures { Grown end.old end.new }
{
    match end.take_within(rt, u64::MAX) {
        Some(reply) => reply.answer == number,
        None => false,
    }
}

/// The jobs of this many clients.
fn jobs(
    alloc: Global,
    clients: usize,
    trips: u64,
    pause: u64,
) -> Result<Vec<RoundTrips>, AllocError>
    ensures { IfOk result (λ v. length v.items ≡ clients) }
{
    let mut jobs = Vec::new(alloc);
    for _ in 0..clients {
        jobs.push(RoundTrips {
            count: trips,
            pause,
        })?;
    }
    Ok(jobs)
}

/// Lets this many clients make round trips, and returns the number of right replies.
fn round_trips<R: Threads + Wait + Copy + Send + Drop + 'static>(
    rt: &R,
    alloc: Global,
    clients: usize,
    trips: u64,
    pause: u64,
) -> Option<u64>
    requires { 0 < clients }
{
    let Ok((handler, ends)) = open_port(alloc, Echo { died: false }, clients, RING) else {
        return None;
    };
    let Ok(jobs) = jobs(alloc, clients, trips, pause) else {
        return None;
    };
    let Ok(served) = serve_clients(rt, alloc, handler, ends, jobs, 0) else {
        return None;
    };
    Some(sum(&served.reports))
}

/// The total number of right replies.
fn sum(reports: &[u64]) -> u64 {
    let mut right = 0u64;
    for report in reports.iter() {
        right = right.wrapping_add(*report);
    }
    right
}

/// Lets this many clients make round trips, and prints the number of right replies. Their time goes to standard error,
/// since it differs each time: milliseconds if they pause, else round trips a second. It includes opening the port and
/// starting the threads.
fn print_trips<R: Threads + Wait + Clock + Print + Eprint + Copy + Send + Drop + 'static>(
    rt: &R,
    alloc: Global,
    clients: usize,
    trips: u64,
    pause: u64,
) -> Result<()>
    requires { 0 < clients }
{
    let start = Instant::now(rt)?;
    let Some(right) = round_trips(rt, alloc, clients, trips, pause) else {
        bail!("no memory or no thread");
    };
    let micros = start.elapsed(rt)?.as_micros();
    let (what, figure) = if pause > 0 {
        ("idle", micros / 1_000)
    } else {
        (
            "port",
            (right as u128).wrapping_mul(1_000_000) / micros.max(1),
        )
    };
    eprintln!(rt; "{what} {clients} {figure}")?;
    println!(rt; "{what} {clients}: {right} right replies")?;
    Ok(())
}

/// Times 1, 2, 4 and 8 clients that each make this many round trips.
pub(crate) fn time<R: Threads + Wait + Clock + Print + Eprint + Copy + Send + Drop + 'static>(
    rt: &R,
    alloc: Global,
    trips: u32,
) -> Result<()> {
    for clients in [1usize, 2, 4, 8] {
        print_trips(rt, alloc, clients, trips as u64, 0)?;
    }
    Ok(())
}

/// Times 8 clients that each wait a second before each of this many round trips.
pub(crate) fn time_idle<R: Threads + Wait + Clock + Print + Eprint + Copy + Send + Drop + 'static>(
    rt: &R,
    alloc: Global,
    trips: u32,
) -> Result<()> {
    print_trips(rt, alloc, IDLE_CLIENTS, trips as u64, 1)
}
