//! Scripts at the running handler, each client on its own thread.
ghost use Rattle.std.specs.Prelude.{◌≡◌, ◌<◌, false, length};

use crate::desk::serve_line;
use crate::fixtures::{START, blank_handler};
use crate::gates::{Progress, Side, TurnGate};
use crate::left::is_left;
use crate::rows::holds;
use crate::spoken::Spoken;
use crate::staging::{Staged, stage};
use ados_handler::Handler;
use ados_run::ClientEnding;
use std::alloc::Global;
use std::process::Abort;
use std::sync::Arc;

/// The handler of the blank floppy with a directory `x`. There are no locks or handles, and it has not died.
fn handler_with_directory<R: Abort>(rt: &R, alloc: Global) -> Handler
    ensures { result.session.died ≡ false }
{
    let mut handler = blank_handler(rt, alloc);
    serve_line(rt, alloc, &mut handler, START, "mkdir 0 \"x\"");
    Handler::new(alloc, handler.into_volume())
}

/// The scripts of two clients. Each needs a reply of the other one before its next packet, so they cannot run one after
/// the other.
fn two_in_turns<R: Abort>(rt: &R, alloc: Global) -> Vec<(Vec<u8>, TurnGate)>
    ensures { 0 < length result.items }
{
    let progress = Arc::new(alloc, Progress::new()).expect(rt, "error");
    let first = TurnGate {
        side: Side::A,
        progress: Arc::try_clone(&progress).expect(rt, "error"),
    };
    let second = TurnGate {
        side: Side::B,
        progress,
    };
    let a = Vec::from_slice(alloc, b"locate 0 -1 \"x\"\nfree $1\n").expect(rt, "error");
    let b = Vec::from_slice(alloc, b"locate 0 -1 \"x\"\nlocate 0 -1 \"x\"\n").expect(rt, "error");
    let mut scripts = Vec::new(alloc);
    scripts.push((a, first)).expect(rt, "error");
    scripts.push((b, second)).expect(rt, "error");
    scripts
}

/// What the clients print, each to its end.
const THREADS: &str = "\
1.1 1 0
1.2 -1 0
done
2.1 0 202
2.2 1 0
done
";

/// Whether a text has the lines of each client, and after them `done`.
fn are_told(told: &[(Vec<u8>, ClientEnding)], wanted: &str) -> bool {
    let mut rest = wanted;
    for (lines, ending) in told {
        let (own, behind) = rest.split_once("done\n").unwrap_or(("", ""));
        if *ending != ClientEnding::Done || lines.as_slice() != own.as_bytes() {
            return false;
        }
        rest = behind;
    }
    rest.is_empty()
}

/// What is left of the port.
const LEFT: &str = "alive, unanswered 1 999, untaken 1, untaken 2";

/// What each client printed, and what is left.
fn expect_staged<S: Spoken + Drop, R: Abort>(rt: &R, staged: Staged<S>) {
    holds(rt, staged.all_done, "all done");
    holds(rt, are_told(&staged.told, THREADS), THREADS);
    holds(rt, staged.number == Some(3), "accepted 3");
    holds(rt, is_left(LEFT, &staged.left), LEFT);
}

#[test]
fn threads(rt: HostRuntime) {
    let server = handler_with_directory(&rt, rt.alloc());
    let scripts = two_in_turns(&rt, rt.alloc());
    expect_staged(&rt, stage(&rt, rt.alloc(), server, START, scripts));
}
