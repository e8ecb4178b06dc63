//! A handler that is asked once more if it answers out of memory.
use crate::rows::{cut, holds, parts};
use crate::spoken::{Telling, Told};
use ados_name::Name;
use std::alloc::Global;
use std::process::Abort;

/// The second result of a packet if there is no memory for its lock or handle.
const NO_MEMORY: i32 = 103;

/// What the answer to a line tells. It has the action of the packet.
pub(crate) fn serve_line<S: Telling, R: Abort>(
    rt: &R,
    alloc: Global,
    server: &mut S,
    moment: S::Moment,
    line: &str,
) -> Told {
    let packet = S::packet_of(rt, alloc, line).expect(rt, "no packet");
    let action = S::action_of(&packet);
    let told = S::told(&server.serve(packet, moment));
    holds(rt, told.action == action, line);
    told
}

/// Whether an answer is the one that a row expects: two results, and the key and name of an entry if the row names one.
fn is_told(wanted: &str, told: Told) -> bool {
    let (first, rest) = cut(wanted);
    let (second, entry) = cut(rest);
    let (key, name) = cut(entry);
    let (res1, res2) = told.results;
    first.parse().ok() == Some(res1)
        && second.parse().ok() == Some(res2)
        && (entry.is_empty() || is_entry(key, name, told.entry))
}

fn is_entry(key: &str, name: &str, entry: Option<(u32, Name)>) -> bool {
    match entry {
        Some((own, told)) => key.parse().ok() == Some(own) && told.bytes() == name.as_bytes(),
        None => false,
    }
}

/// The rows are served in order, and each is answered as it says. A line is put once more if its first answer is out of
/// memory.
pub(crate) fn serve_rows<S: Telling, R: Abort>(
    rt: &R,
    alloc: Global,
    server: &mut S,
    moment: S::Moment,
    rows: &str,
) {
    for row in rows.lines() {
        let (line, wanted) = parts(row);
        let mut told = serve_line(rt, alloc, server, moment, line);
        if told.results.1 == NO_MEMORY {
            told = serve_line(rt, alloc, server, moment, line);
        }
        holds(rt, is_told(wanted, told), row);
    }
    holds(rt, !server.died(), "alive");
}

/// A directory `d` with a lock, and the file `f`. Also a file of one byte for each letter from `k` to `s`, without locks
/// or handles.
const ENTRIES: &str = "\
mkdir 0 \"d\" = 1 0
free 1 = -1 0
output 0 \"f\" = -1 0
end 1 = -1 0
output 0 \"k\" = -1 0
write 1 \"x\" = 1 0
end 1 = -1 0
output 0 \"l\" = -1 0
write 1 \"x\" = 1 0
end 1 = -1 0
output 0 \"m\" = -1 0
write 1 \"x\" = 1 0
end 1 = -1 0
output 0 \"n\" = -1 0
write 1 \"x\" = 1 0
end 1 = -1 0
output 0 \"o\" = -1 0
write 1 \"x\" = 1 0
end 1 = -1 0
output 0 \"p\" = -1 0
write 1 \"x\" = 1 0
end 1 = -1 0
output 0 \"q\" = -1 0
write 1 \"x\" = 1 0
end 1 = -1 0
output 0 \"r\" = -1 0
write 1 \"x\" = 1 0
end 1 = -1 0
output 0 \"s\" = -1 0
write 1 \"x\" = 1 0
end 1 = -1 0
locate 0 -2 \"d\" = 1 0";

/// A line in which a letter replaces the `*`.
fn with_letter(rt: &impl Abort, alloc: Global, line: &str, letter: &str) -> String {
    let mut text = String::new(alloc);
    match line.split_once('*') {
        Some((front, behind)) => {
            write!(text, "{front}{letter}{behind}").expect(rt, "error");
        }
        None => text.push_str(line).expect(rt, "error"),
    }
    text
}

/// The packet of a line is served; or it is answered out of memory with no byte changed, and is served if it is put
/// again.
fn expect_hold<S: Telling, R: Abort>(
    rt: &R,
    alloc: Global,
    server: &mut S,
    moment: S::Moment,
    line: &str,
) {
    let was = Vec::from_slice(alloc, server.bytes()).expect(rt, "error");
    let mut told = serve_line(rt, alloc, server, moment, line);
    if told.results.1 == NO_MEMORY {
        holds(rt, server.bytes() == was.as_slice(), line);
        told = serve_line(rt, alloc, server, moment, line);
    }
    holds(rt, told.results.1 == 0, line);
}

/// The packet of a line is served nine times, so that the table of locks or handles grows.
pub(crate) fn expect_holds<S: Telling, R: Abort>(
    rt: &R,
    alloc: Global,
    server: &mut S,
    moment: S::Moment,
    line: &str,
) {
    serve_rows(rt, alloc, server, moment, ENTRIES);
    for letter in "k l m n o p q r s".split(" ") {
        let line = with_letter(rt, alloc, line, letter);
        expect_hold(rt, alloc, server, moment, line.as_str());
    }
}
