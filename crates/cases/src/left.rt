//! What is left of a port, in one line.
use crate::rows::cut;
use crate::spoken::Spoken;
use ados_port::{Gathered, Reply};

/// Whether a text says what is left of a port: whether its server has died; each unanswered packet with its client and
/// its action; and each client's untaken replies.
pub(crate) fn is_left<S: Spoken>(wanted: &str, left: &Gathered<S>) -> bool {
    let (state, rest) = item(wanted);
    let died = left.server.died();
    if state != if died { "dead" } else { "alive" } {
        return false;
    }
    match behind_unanswered::<S>(rest, &left.unanswered) {
        Some(rest) => are_untaken::<S>(rest, &left.untaken),
        None => false,
    }
}

/// The text before a comma, and the text after it.
fn item(text: &str) -> (&str, &str) {
    text.split_once(", ").unwrap_or((text, ""))
}

/// The text after the items of these packets, if it begins with them.
fn behind_unanswered<'a, S: Spoken>(
    wanted: &'a str,
    packets: &[(usize, S::Request)],
) -> Option<&'a str> {
    let mut rest = wanted;
    for (client, packet) in packets {
        let (here, behind) = item(rest);
        if !is_unanswered(here, *client, S::action_of(packet)) {
            return None;
        }
        rest = behind;
    }
    Some(rest)
}

fn is_unanswered(text: &str, client: usize, action: i32) -> bool {
    let (word, rest) = cut(text);
    let (first, second) = cut(rest);
    word == "unanswered"
        && first.parse().ok() == Some(client)
        && second.parse().ok() == Some(action)
}

/// Whether a text has an item for each client with its replies, and no more.
fn are_untaken<S: Spoken>(wanted: &str, untaken: &[Vec<Reply<S::Reply>>]) -> bool {
    let mut rest = wanted;
    let mut client = 0usize;
    for replies in untaken {
        client = client.wrapping_add(1);
        let (here, behind) = item(rest);
        let (word, here) = cut(here);
        let (number, runs) = cut(here);
        if word != "untaken"
            || number.parse().ok() != Some(client)
            || !are_replies::<S>(runs, replies)
        {
            return false;
        }
        rest = behind;
    }
    rest.is_empty()
}

/// Replies with consecutive numbers and the same results: the next number, the last one, and the results.
#[derive(Clone, Copy)]
struct Run {
    next: u64,
    last: u64,
    results: (i32, i32),
}

/// Whether runs `FIRST-LAST RESULT RESULT` consist of these replies.
fn are_replies<S: Spoken>(runs: &str, replies: &[Reply<S::Reply>]) -> bool {
    let mut rest = runs;
    let mut run = NO_RUN;
    for Reply { number, answer } in replies {
        if run.next > run.last {
            let (next, behind) = first_run(rest);
            run = next;
            rest = behind;
        }
        if !begins(run, *number, S::results_of(answer)) {
            return false;
        }
        run.next = run.next.wrapping_add(1);
    }
    rest.is_empty() && run.next > run.last
}

/// A run of no replies.
const NO_RUN: Run = Run {
    next: 1,
    last: 0,
    results: (0, 0),
};

/// Whether the next reply of a run has this number and these results.
fn begins(run: Run, number: u64, results: (i32, i32)) -> bool {
    run.next <= run.last && run.next == number && run.results == results
}

/// The first run of a text, and the text after it.
fn first_run(text: &str) -> (Run, &str) {
    let (numbers, rest) = cut(text);
    let (one, rest) = cut(rest);
    let (two, rest) = cut(rest);
    let (first, last) = numbers.split_once('-').unwrap_or((numbers, ""));
    let run = Run {
        next: first.parse().unwrap_or(1),
        last: last.parse().unwrap_or(0),
        results: (one.parse().unwrap_or(0), two.parse().unwrap_or(0)),
    };
    (run, rest)
}
