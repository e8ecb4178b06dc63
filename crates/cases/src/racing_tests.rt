//! Cases of clients that put at the same time, over the handler of the blank floppy.
use crate::fixtures::{START, blank_handler};
use crate::left::is_left;
use crate::placed::Placed;
use crate::racing::{Plan, Raced, race};
use crate::rows::holds;
use crate::share::{ends_at_the_die, is_parted, served_order};
use crate::spoken::Spoken;
use std::alloc::Global;
use std::process::Abort;
use std::sync::Wait;
use std::thread::Threads;

/// Whether each client has this count.
fn are_all(counts: &[usize], count: usize) -> bool {
    for own in counts {
        if *own != count {
            return false;
        }
    }
    true
}

/// Each client counts all its packets or replies, and the port leaves `wanted`.
fn expect_raced<S: Spoken + Drop, R: Abort>(rt: &R, raced: Raced<S>, plan: Plan, wanted: &str) {
    holds(rt, raced.counts.len() == plan.clients, wanted);
    holds(rt, are_all(&raced.counts, plan.puts), wanted);
    holds(rt, is_left(wanted, &raced.left), wanted);
}

/// The same of a race over the handler of the blank floppy.
fn expect<R: Threads + Wait + Abort + Copy + Send + Drop + 'static>(
    rt: &R,
    alloc: Global,
    plan: Plan,
    wanted: &str,
) {
    let raced = race(rt, alloc, blank_handler(rt, alloc), START, plan);
    expect_raced(rt, raced, plan, wanted);
}

/// A race without a DIE, whose clients take no replies.
fn puts_only(clients: usize, ring: usize, puts: usize) -> Plan {
    Plan {
        clients,
        ring,
        puts,
        die_at: None,
        takes: false,
    }
}

#[test]
fn four_threads_put(rt: HostRuntime) {
    let wanted =
        "alive, untaken 1 1-1000 0 209, untaken 2 1-1000 0 209, untaken 3 1-1000 0 209, untaken 4 1-1000 0 209";
    expect(&rt, rt.alloc(), puts_only(4, 8, 1_000), wanted);
}

/// Each client puts all its packets before it takes a reply, so replies wait beside a ring of one place until a batch
/// posts them.
#[test]
fn put_ahead(rt: HostRuntime) {
    let plan = Plan {
        takes: true,
        ..puts_only(2, 1, 100)
    };
    expect(&rt, rt.alloc(), plan, "alive, untaken 1, untaken 2");
}

/// Each client puts its packets or finds the close. In the order of service, the packets before the DIE and those after
/// it get different answers.
fn expect_parted<S: Spoken + Drop, R: Abort>(rt: &R, alloc: Global, raced: Raced<Placed<S>>) {
    holds(rt, raced.counts.len() == 4, "four clients");
    holds(rt, is_parted(&raced, 500), "each client");
    let order = served_order(rt, alloc, &raced);
    holds(rt, ends_at_the_die(&order), "the order of service");
}

#[test]
fn racing_die(rt: HostRuntime) {
    let plan = Plan {
        die_at: Some(500),
        ..puts_only(4, 8, 1_000)
    };
    let server = Placed {
        server: blank_handler(&rt, rt.alloc()),
        served: 0,
    };
    expect_parted(&rt, rt.alloc(), race(&rt, rt.alloc(), server, START, plan));
}
