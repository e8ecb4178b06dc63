//! Runs a case of a port whose ends are all in one value.
ghost use Rattle.std.specs.Prelude.{◌≡◌, false};

use crate::hand::Port;
use crate::left::is_left;
use crate::rows::{
    Opening, Went, count_of, cut, first_row, holds, last_row, opening_of, parts, went_of,
    with_action,
};
use crate::spoken::Spoken;
use ados_port::{PutRefused, Reply, ServeEnd, ServeFault};
use std::alloc::Global;
use std::process::Abort;
use std::sync::Wait;

/// The number of batches in a row without a packet after which a port is idle.
const IDLE_LIMIT: u64 = 3;

/// What a test ends with if a port is out of memory.
const NO_PORT: &str = "error: AllocError";

/// Opens a port over this server, runs the rows of a case and gathers the ends.
///
/// The first row opens the port, and the last one says what is left of it. If memory runs out, the test ends with that
/// error.
pub(crate) fn play<S: Spoken + Drop, R: Wait + Abort>(
    rt: &R,
    alloc: Global,
    server: S,
    moment: S::Moment,
    case: &str,
)
    requires { S.has_died server ≡ false }
{
    let (first, rest) = first_row(case);
    let (rows, wanted) = last_row(rest);
    let mut port = opened(alloc, server, moment, opening_of(first)).expect(rt, NO_PORT);
    play_rows(rt, alloc, &mut port, rows);
    let left = port.gather(rt, alloc).expect(rt, NO_PORT);
    holds(rt, is_left(wanted, &left), wanted);
}

// The port of a case. The first try asks for rings with more places than memory can hold. The second try uses the
// returned server.
fn opened<S: Spoken + Drop>(
    alloc: Global,
    server: S,
    moment: S::Moment,
    opening: Opening,
) -> Option<Port<S>>
    requires { S.has_died server ≡ false }
{
    let most = Opening {
        ring: usize::MAX,
        ..opening
    };
    let Err(server) = Port::open(alloc, server, moment, most) else {
        return None;
    };
    match Port::open(alloc, server, moment, opening) {
        Ok(port) => Some(port),
        Err(server) if opening.again => Port::open(alloc, server, moment, opening).ok(),
        Err(_) => None,
    }
}

// Runs rows; each has the result that it says.
fn play_rows<S: Spoken, R: Wait + Abort>(rt: &R, alloc: Global, port: &mut Port<S>, rows: &str) {
    for row in rows.lines() {
        let (text, wanted) = parts(row);
        holds(rt, port.turn(rt, alloc, text) == went_of(wanted), row);
    }
}

impl<S: Spoken> Port<S> {
    /// Makes a turn, and returns its result: a client puts the packet of a line, or many packets of one line; a batch of
    /// at most so many packets is served, or batches until the close or until the port is idle; the waiting replies are
    /// posted; a client takes a reply, or asks whether the port has closed.
    fn turn<R: Wait + Abort>(&mut self, rt: &R, alloc: Global, text: &str) -> Went<'static> {
        let (word, rest) = cut(text);
        let (first, line) = cut(rest);
        let count = count_of(first);
        match word {
            "put" => self.put_line(rt, alloc, count, line),
            "many" => self.put_many(rt, alloc, count, line),
            "batch" => batch_went(self.batch(rt, count)),
            "batches" => (end_word(self.batches(rt)), 0, 0, 0),
            "post" => ("waiting", self.post_waiting() as u64, 0, 0),
            "take" => reply_went::<S>(&self.take(count)),
            "ask" => (if self.is_shut(count) { "shut" } else { "open" }, 0, 0, 0),
            _ => ("no-turn", 0, 0, 0),
        }
    }

    fn put_line<R: Wait + Abort>(
        &mut self,
        rt: &R,
        alloc: Global,
        client: usize,
        line: &str,
    ) -> Went<'static> {
        let packet = S::packet_of(rt, alloc, line).expect(rt, "no packet");
        put_went::<S>(&self.put_packet(rt, client, packet))
    }

    // Puts as many packets of a line as its first word says; each must be accepted under the next number.
    fn put_many<R: Wait + Abort>(
        &mut self,
        rt: &R,
        alloc: Global,
        client: usize,
        text: &str,
    ) -> Went<'static> {
        let (count, line) = cut(text);
        let count = count_of(count) as u64;
        for place in 0..count {
            let went = self.put_line(rt, alloc, client, line);
            if went != ("accepted", place.wrapping_add(1), 0, 0) {
                return went;
            }
        }
        ("numbered", count, 0, 0)
    }

    // Puts a packet. If memory was refused and the case puts again, it puts the returned packet.
    fn put_packet<R: Wait>(
        &mut self,
        rt: &R,
        client: usize,
        packet: S::Request,
    ) -> Result<u64, PutRefused<S::Request>> {
        match self.put(rt, client, packet) {
            Err(PutRefused::NoRoom(back)) if self.again => self.put(rt, client, back),
            put => put,
        }
    }

    fn batch<R: Wait>(&mut self, rt: &R, limit: usize) -> Result<usize, ServeFault> {
        match self.serve_batch(rt, limit) {
            Err(_) if self.again => self.serve_batch(rt, limit),
            served => served,
        }
    }

    fn batches<R: Wait>(&mut self, rt: &R) -> Result<ServeEnd, ServeFault> {
        match self.serve_until_closed(rt, IDLE_LIMIT) {
            Err(_) if self.again => self.serve_until_closed(rt, IDLE_LIMIT),
            end => end,
        }
    }
}

// The result of a put: the accepted number, or the reason of the refusal with the action of the returned packet.
fn put_went<S: Spoken>(put: &Result<u64, PutRefused<S::Request>>) -> Went<'static> {
    match put {
        Ok(number) => ("accepted", *number, 0, 0),
        Err(PutRefused::Closed(back)) => with_action("closed", S::action_of(back)),
        Err(PutRefused::NoRoom(back)) => with_action("no-room", S::action_of(back)),
    }
}

fn batch_went(served: Result<usize, ServeFault>) -> Went<'static> {
    match served {
        Ok(count) => ("served", count as u64, 0, 0),
        Err(_) => ("no-memory", 0, 0, 0),
    }
}

fn end_word(end: Result<ServeEnd, ServeFault>) -> &'static str {
    match end {
        Ok(ServeEnd::Closed) => "closed",
        Ok(ServeEnd::Idle) => "idle",
        Err(_) => "no-memory",
    }
}

// The result of a take: the number and the results of the reply.
fn reply_went<S: Spoken>(reply: &Option<Reply<S::Reply>>) -> Went<'static> {
    match reply {
        Some(Reply { number, answer }) => {
            let (first, second) = S::results_of(answer);
            ("reply", *number, first, second)
        }
        None => ("nothing", 0, 0, 0),
    }
}
