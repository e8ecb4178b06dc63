//! Times what its first argument names: round trips through a port by clients, each on its own thread, or packets as
//! steps of a port on one thread. The scripts in `bench/`, at the top of the repository, run it and describe its
//! output.
#![tactic(auto)]

mod packets;
mod port;

use anyhow::{Result, bail};
use std::env;

/// The possible arguments. `all` times everything; a count without an argument has its default.
const USAGE: &str =
    "usage: bench port [TRIPS] | idle [TRIPS] | packets [ROUNDS [LOCKS [ENTRIES]]] | all";

/// The maximum number of numbers after the first argument.
const NUMBERS: usize = 3;

/// The things to time.
#[derive(Copy, Clone)]
enum Timed {
    Port,
    Idle,
    Packets,
    All,
}

/// The thing to time, by its argument.
fn named(argument: Option<&str>) -> Option<Timed> {
    match argument {
        Some("port") => Some(Timed::Port),
        Some("idle") => Some(Timed::Idle),
        Some("packets") => Some(Timed::Packets),
        Some("all") => Some(Timed::All),
        _ => None,
    }
}

/// The number that an argument spells, if it spells one.
fn number(argument: Option<String>) -> Option<u32> {
    argument?.as_str().parse().ok()
}

/// The thing to time, and the numbers after it.
fn arguments(rt: &HostRuntime) -> Result<(Option<Timed>, [Option<u32>; NUMBERS])> {
    let mut arguments = env::args(rt)?.skip(1);
    let timed = named(arguments.next().as_deref());
    let mut numbers = [None; NUMBERS];
    for place in numbers.iter_mut() {
        *place = number(arguments.next());
    }
    Ok((timed, numbers))
}

fn main(rt: HostRuntime) -> Result<()> {
    let alloc = rt.alloc();
    let (Some(timed), [first, second, third]) = arguments(&rt)? else {
        bail!("{USAGE}");
    };
    if matches!(timed, Timed::Port | Timed::All) {
        port::time(&rt, alloc, first.unwrap_or(port::TRIPS))?;
    }
    if matches!(timed, Timed::Idle | Timed::All) {
        port::time_idle(&rt, alloc, first.unwrap_or(port::IDLE_TRIPS))?;
    }
    if matches!(timed, Timed::Packets | Timed::All) {
        let rounds = first.unwrap_or(packets::ROUNDS);
        let locks = second.unwrap_or(packets::LOCKS);
        let entries = third.unwrap_or(packets::ENTRIES);
        packets::time(&rt, alloc, rounds, locks, entries)?;
    }
    Ok(())
}
