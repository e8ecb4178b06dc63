//! Cases of steps that `run_volume` runs over the blank floppy. A case is a text, and its rows are the steps and their
//! outcomes.
ghost use Rattle.std.specs.Prelude.{◌≤◌};

use crate::drawn::drawn;
use crate::fixtures::{FLOPPY, START, blank_handler, blank_image};
use crate::rows::{cut, holds, parts};
use crate::steps::{by_run, by_steps, expect_done, steps_of};
use ados_handler::Handler;
use ados_run::{RunFault, run_volume};
use ados_volume::{FaultKind, Rejected, VolumeFault};
use std::alloc::Global;
use std::process::Abort;

/// The steps of a case with this many clients have the outcomes that it says.
fn expect<R: Abort>(rt: &R, alloc: Global, clients: usize, case: &str)
    requires { 1 ≤ clients }
{
    let image = blank_image(rt, alloc, FLOPPY);
    let steps = steps_of::<Handler, R>(rt, alloc, START, case);
    let done = run_volume(alloc, image, clients, steps)
        .ok()
        .expect(rt, "no run");
    expect_done::<Handler, R>(rt, case, done);
}

/// Each packet that was accepted before the service of DIE is answered once. Each later put is returned.
const BEHIND_DIE: &str = "\
put 1 die = accepted 1
put 2 locate 0 -2 \"\" = accepted 1
serve = served
put 2 diskinfo = closed 25
serve = served
serve = idle
take 2 = 1 0 218
take 1 = 1 -1 0
take 1 = nothing
put 1 die = closed 5
put 3 die = no-client 5";

const DIE_THEN_INFO: &str = "\
put 1 die = accepted 1
put 1 diskinfo = accepted 2
serve = served
serve = served
take 1 = 1 -1 0
take 1 = 2 0 218
take 1 = nothing
put 1 diskinfo = closed 25";

/// Client 2 asks for a handle while client 1 holds an exclusive one. Client 1 writes, reads and ends its handle before
/// client 2 asks again.
const TWO_CLIENTS: &str = "\
put 1 output 0 \"f\" = accepted 1
serve = served
take 1 = 1 -1 0 handle 1
put 2 input 0 \"f\" = accepted 1
put 1 write 1 \"ab\" = accepted 2
put 1 seek 1 0 -1 = accepted 3
put 1 read 1 4 = accepted 4
put 1 end 1 = accepted 5
put 2 input 0 \"f\" = accepted 2
put 2 other 999 = accepted 3
serve = served
serve = served
serve = served
serve = served
serve = served
serve = served
serve = served
serve = idle
take 1 = 2 2 0 6162
take 1 = 3 2 0
take 1 = 4 2 0 61620000
take 1 = 5 -1 0
take 1 = nothing
take 2 = 1 0 202
take 2 = 2 -1 0 handle 1
take 2 = 3 0 209
take 2 = nothing";

const IDLE_AND_NO_CLIENT: &str = "\
serve = idle
take 1 = nothing
take 3 = no-client
take 0 = no-client
put 0 diskinfo = no-client 25
put 2 other 999 = no-client 999
serve = idle";

/// Two clients put in turn; each takes its own replies in the order of its packets.
const REPLIES_IN_ORDER: &str = "\
put 1 other 999 = accepted 1
put 2 die = accepted 1
put 1 other 998 = accepted 2
put 2 diskinfo = accepted 2
put 1 other 997 = accepted 3
serve = served
serve = served
serve = served
serve = served
serve = served
serve = idle
take 2 = 1 -1 0
take 1 = 1 0 209
take 2 = 2 0 218
take 1 = 2 0 218
take 2 = nothing
take 1 = 3 0 218
take 1 = nothing";

/// Adds rows with the numbers from 1 on between two texts.
fn push_numbered(rt: &impl Abort, rows: &mut String, count: u64, before: &str, behind: &str) {
    for number in 1..=count {
        write!(rows, "{before}{number}{behind}\n").expect(rt, "error");
    }
}

/// Rows of this many puts, and then as many serves and takes.
fn many<R: Abort>(rt: &R, alloc: Global, count: u64) -> String {
    let mut rows = String::new(alloc);
    push_numbered(rt, &mut rows, count, "put 1 other 999 = accepted ", "");
    for _ in 0..count {
        rows.push_str("serve = served\n").expect(rt, "error");
    }
    push_numbered(rt, &mut rows, count, "take 1 = ", " 0 209");
    rows.push_str("take 1 = nothing").expect(rt, "error");
    rows
}

#[test]
fn behind_die(rt: HostRuntime) {
    expect(&rt, rt.alloc(), 2, BEHIND_DIE);
}

#[test]
fn behind_die_by_steps(rt: HostRuntime) {
    let handler = blank_handler(&rt, rt.alloc());
    let has_died = by_steps(&rt, rt.alloc(), handler, 2, START, BEHIND_DIE);
    holds(&rt, has_died, "dead");
}

#[test]
fn behind_die_by_run(rt: HostRuntime) {
    let handler = blank_handler(&rt, rt.alloc());
    let has_died = by_run(&rt, rt.alloc(), handler, 2, START, BEHIND_DIE);
    holds(&rt, has_died, "dead");
}

#[test]
fn die_then_info(rt: HostRuntime) {
    expect(&rt, rt.alloc(), 1, DIE_THEN_INFO);
}

#[test]
fn two_clients(rt: HostRuntime) {
    expect(&rt, rt.alloc(), 2, TWO_CLIENTS);
}

#[test]
fn idle_and_no_client(rt: HostRuntime) {
    expect(&rt, rt.alloc(), 1, IDLE_AND_NO_CLIENT);
}

#[test]
fn replies_in_order(rt: HostRuntime) {
    expect(&rt, rt.alloc(), 2, REPLIES_IN_ORDER);
}

/// No put is refused with ample memory, however many packets wait, and however many clients the port has.
#[test]
fn many_puts(rt: HostRuntime) {
    let rows = many(&rt, rt.alloc(), 20_000);
    expect(&rt, rt.alloc(), 200, rows.as_str());
}

/// Each of 200 clients has a place for its packet.
#[test]
fn many_clients(rt: HostRuntime) {
    let mut rows = String::new(rt.alloc());
    push_numbered(&rt, &mut rows, 200, "put ", " other 999 = accepted 1");
    rows.push_str("put 201 other 999 = no-client 999")
        .expect(&rt, "error");
    expect(&rt, rt.alloc(), 200, rows.as_str());
}

/// A disk that is not a DOS disk, another kind of disk, and a root with a wrong checksum: what is drawn on the blank
/// floppy, and the fault with its block and the number of its DOS error, 0 for none.
const REJECTED: &str = "\
put 0 0 x004f5301 = not-dos 0 225
put 0 0 x444f5302 = unsupported 0 0
put 880 20 1 = bad-sum 880 0";

/// The refusal of the blank floppy with this drawing.
fn rejected(rt: &impl Abort, alloc: Global, drawing: &str) -> Rejected {
    match run_volume(alloc, drawn(rt, alloc, FLOPPY, drawing), 1, Vec::new(alloc)) {
        Err(RunFault::Rejected(rejected)) => rejected,
        _ => panic!(rt; "not rejected"),
    }
}

/// Whether a text names this fault.
fn is_fault(wanted: &str, fault: VolumeFault) -> bool {
    let (word, rest) = cut(wanted);
    let (block, number) = cut(rest);
    let kind = match fault.kind {
        FaultKind::NotADosDisk => "not-dos",
        FaultKind::UnsupportedKind => "unsupported",
        FaultKind::BadSum => "bad-sum",
        _ => "another",
    };
    word == kind
        && block.parse().ok() == Some(fault.block)
        && number.parse().ok() == Some(fault.dos_error().unwrap_or(0))
}

/// Each image is refused with its fault, and returned byte for byte.
#[test]
fn rejected_run(rt: HostRuntime) {
    for row in REJECTED.lines() {
        let (drawing, wanted) = parts(row);
        let Rejected { image, fault } = rejected(&rt, rt.alloc(), drawing);
        holds(&rt, is_fault(wanted, fault), row);
        let was = drawn(&rt, rt.alloc(), FLOPPY, drawing);
        holds(&rt, image.as_bytes() == was.as_bytes(), row);
    }
}
