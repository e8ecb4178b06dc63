//! Cases of the ends of a port, over the handler of the blank floppy. A case is a text, and its rows are run in order.
use crate::fixtures::{START, blank_handler};
use crate::playing::play;
use std::alloc::Global;
use std::process::Abort;
use std::sync::Wait;

/// Each row of a case comes to its result.
pub(crate) fn expect<R: Abort + Wait>(rt: &R, alloc: Global, case: &str) {
    play(rt, alloc, blank_handler(rt, alloc), START, case);
}

/// A reply waits while the ring is full, and is posted as soon as there is a free place.
const RINGS: &str = "\
open 1 1
put 1 other 999 = accepted 1
put 1 other 999 = accepted 2
put 1 other 999 = accepted 3
batch 8 = served 3
post = waiting 2
take 1 = 1 0 209
post = waiting 1
take 1 = 2 0 209
gather = alive, untaken 1 3-3 0 209";

/// Each batch first posts the waiting replies, even if no packet waits.
const BATCHES_POST: &str = "\
open 1 1
many 1 3 other 999 = numbered 3
batch 8 = served 3
take 1 = 1 0 209
take 1 = nothing
batch 8 = served 0
take 1 = 2 0 209
batch 0 = served 0
take 1 = 3 0 209
gather = alive, untaken 1";

/// The unanswered packets are in the order of their puts, whichever client put them.
const LEFT_IN_ORDER: &str = "\
open 3 8
put 2 other 999 = accepted 1
put 3 diskinfo = accepted 1
put 1 other 999 = accepted 1
put 2 die = accepted 2
put 1 diskinfo = accepted 2
put 3 other 999 = accepted 2
batch 1 = served 1
gather = alive, unanswered 3 25, unanswered 1 999, unanswered 2 5, unanswered 1 25, unanswered 3 999, \
untaken 1, untaken 2 1-1 0 209, untaken 3";

/// A packet after two served ones is unanswered.
const HALF_SERVED: &str = "\
open 2 8
put 1 other 999 = accepted 1
put 1 other 999 = accepted 2
put 2 diskinfo = accepted 1
batch 2 = served 2
gather = alive, unanswered 2 25, untaken 1 1-2 0 209, untaken 2";

/// After DIE each put is refused.
const CLOSE: &str = "\
open 2 8
put 1 die = accepted 1
put 2 other 999 = accepted 1
batch 8 = served 2
take 1 = 1 -1 0
take 2 = 1 0 218
ask 1 = shut
ask 2 = shut
put 1 other 999 = closed 999
put 2 other 999 = closed 999
batches = closed
gather = dead, untaken 1, untaken 2";

/// A client sees the close both before and after it takes the reply to its DIE.
const DIE_IN_THE_RING: &str = "\
open 1 1
ask 1 = open
put 1 die = accepted 1
batch 1 = served 1
ask 1 = shut
take 1 = 1 -1 0
ask 1 = shut
put 1 other 999 = closed 999
gather = dead, untaken 1";

/// A client without puts and takes sees the close.
const NEWS_OF_THE_CLOSE: &str = "\
open 3 8
put 1 die = accepted 1
batch 1 = served 1
ask 3 = shut
put 3 other 999 = closed 999
take 3 = nothing
gather = dead, untaken 1 1-1 -1 0, untaken 2, untaken 3";

/// Batches end after three in a row without a packet.
const IDLE_LIMIT: &str = "\
open 1 2
batches = idle
put 1 other 999 = accepted 1
put 1 other 999 = accepted 2
batches = idle
take 1 = 1 0 209
take 1 = 2 0 209
gather = alive, untaken 1";

/// The queue and the list beside a ring have no limit.
const A_THOUSAND_PUTS: &str = "\
open 1 1
many 1 1000 other 999 = numbered 1000
batch 64 = served 64
batch 64 = served 64
batch 64 = served 64
batch 64 = served 64
batch 64 = served 64
batch 64 = served 64
batch 64 = served 64
batch 64 = served 64
batch 64 = served 64
batch 64 = served 64
batch 64 = served 64
batch 64 = served 64
batch 64 = served 64
batch 64 = served 64
batch 64 = served 64
batch 64 = served 40
batch 64 = served 0
post = waiting 999
gather = alive, untaken 1 1-1000 0 209";

/// No put is refused with ample memory: one of 200 clients puts 20,000 packets before any is served. The other clients
/// are at the end of the last row.
const MANY_PUTS: &str = "\
open 200 1
many 1 20000 other 999 = numbered 20000
put 200 other 999 = accepted 1
batch 20002 = served 20001
take 200 = 1 0 209
gather = alive, untaken 1 1-20000 0 209";

/// A case whose last row goes on with clients 2 to `count`, which have taken all their replies.
fn with_clients<R: Abort>(rt: &R, alloc: Global, case: &str, count: u64) -> String {
    let mut rows = String::new(alloc);
    rows.push_str(case).expect(rt, "error");
    for number in 2..=count {
        write!(rows, ", untaken {number}").expect(rt, "error");
    }
    rows
}

/// Packets after a DIE are unanswered if no batch reaches them.
const UNANSWERED_AFTER_DIE: &str = "\
open 2 8
put 1 die = accepted 1
many 2 3 other 999 = numbered 3
batch 2 = served 2
gather = dead, unanswered 2 999, unanswered 2 999, untaken 1 1-1 -1 0, untaken 2 1-1 0 218";

/// A batch that is out of memory serves nothing: no list has room for so many packets. The next one serves every
/// packet.
pub(crate) const BATCH_REFUSED: &str = "\
open 2 1 again
put 1 other 999 = accepted 1
put 2 other 999 = accepted 1
put 1 other 999 = accepted 2
batch 18446744073709551615 = no-memory
take 1 = nothing
batch 8 = served 3
gather = alive, untaken 1 1-2 0 209, untaken 2 1-1 0 209";

/// Each call whose growth is refused is repeated once: `tools/growths.sh` refuses each growth in turn.
pub(crate) const GATHER_REFUSED: &str = "\
open 2 1 again
many 1 40 other 999 = numbered 40
batches = idle
put 2 die = accepted 1
take 1 = 1 0 209
gather = alive, unanswered 2 5, untaken 1 2-40 0 209, untaken 2";

/// If opening a port fails, a port over the returned server serves and closes.
pub(crate) const PORT_REFUSED: &str = "\
open 1 1 again
put 1 die = accepted 1
put 1 other 999 = accepted 2
batches = closed
gather = dead, untaken 1 1-1 -1 0 2-2 0 218";

#[test]
fn rings(rt: HostRuntime) {
    expect(&rt, rt.alloc(), RINGS);
}

#[test]
fn batches_post(rt: HostRuntime) {
    expect(&rt, rt.alloc(), BATCHES_POST);
}

#[test]
fn left_in_order(rt: HostRuntime) {
    expect(&rt, rt.alloc(), LEFT_IN_ORDER);
}

#[test]
fn half_served(rt: HostRuntime) {
    expect(&rt, rt.alloc(), HALF_SERVED);
}

#[test]
fn close(rt: HostRuntime) {
    expect(&rt, rt.alloc(), CLOSE);
}

#[test]
fn die_in_the_ring(rt: HostRuntime) {
    expect(&rt, rt.alloc(), DIE_IN_THE_RING);
}

#[test]
fn news_of_the_close(rt: HostRuntime) {
    expect(&rt, rt.alloc(), NEWS_OF_THE_CLOSE);
}

#[test]
fn idle_limit(rt: HostRuntime) {
    expect(&rt, rt.alloc(), IDLE_LIMIT);
}

#[test]
fn a_thousand_puts(rt: HostRuntime) {
    expect(&rt, rt.alloc(), A_THOUSAND_PUTS);
}

#[test]
fn many_puts_of_200_clients(rt: HostRuntime) {
    let case = with_clients(&rt, rt.alloc(), MANY_PUTS, 200);
    expect(&rt, rt.alloc(), case.as_str());
}

#[test]
fn unanswered_after_die(rt: HostRuntime) {
    expect(&rt, rt.alloc(), UNANSWERED_AFTER_DIE);
}
