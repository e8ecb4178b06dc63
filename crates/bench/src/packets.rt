//! Times packets on one thread: by the handler alone, and as steps of a port over it.

use adf_block::Format;
use ados_handler::Handler;
use ados_model::{Answer, Buffer, NO_LOCK, Packet, Text};
use ados_name::{Date3, Name, PathText};
use ados_port::{Exchange, Outcome, Server, Step};
use ados_volume::blank;
use anyhow::{Result, bail};
use std::alloc::Global;
use std::rt::Clock;
use std::time::Instant;

/// Defaults: the number of rounds of packets, of locks that are held meanwhile, and of entries of the root.
pub(crate) const ROUNDS: u32 = 20;

pub(crate) const LOCKS: u32 = 2;

pub(crate) const ENTRIES: u32 = 10;

/// The time stamp of every packet.
const MOMENT: Date3 = Date3 {
    days: 0,
    minutes: 0,
    ticks: 0,
};

/// The number of blocks of the volume.
const BLOCKS: u32 = 20_000;

/// The root block, which is the key of the root.
const ROOT: u32 = BLOCKS / 2;

/// The number of bytes of one read or write.
const PIECE: usize = 512;

/// The number of packets of a round.
const ROUND: u32 = 7;

/// The number of the first lock, and of the first handle.
const FIRST: u32 = 1;

const SHARED: i32 = -2;

/// The mode of a SEEK from the beginning of the file.
const BEGINNING: i32 = -1;

/// The text of a packet.
fn text(alloc: Global, bytes: &[u8]) -> Option<Text> {
    let path = PathText::new(bytes).ok()?;
    Text::new(alloc, path).ok()
}

/// The last decimal digit.
fn digit(n: u32) -> u8 {
    b'0' + (n % 10) as u8
}

/// The name of an entry.
fn name_of(n: u32) -> [u8; 5] {
    [
        digit(n / 10_000),
        digit(n / 1_000),
        digit(n / 100),
        digit(n / 10),
        digit(n),
    ]
}

/// The first result of an answer, if the packet succeeded.
fn result_of(answer: &Answer) -> Option<i32> {
    if answer.res2 == 0 {
        Some(answer.res1)
    } else {
        None
    }
}

/// A server that serves one packet after another.
trait Serves {
    /// Serves a packet, and returns its first result if the packet succeeds.
    fn serve_one(&mut self, packet: Packet) -> Option<i32>;
}

impl Serves for Handler {
    fn serve_one(&mut self, packet: Packet) -> Option<i32> {
        let answer = self.serve(packet, MOMENT);
        result_of(&answer)
    }
}

/// A packet of client 1 is a Put, a Serve and a Take.
impl Serves for Exchange<Handler> {
    fn serve_one(&mut self, packet: Packet) -> Option<i32> {
        if !put(self, packet) || !serve_next(self, MOMENT) {
            return None;
        }
        let answer = take(self)?;
        result_of(&answer)
    }
}

// The steps are generic in the server, so that a dropped value is one case for the prover, and not one for each packet.

/// Puts a packet of client 1.
fn put<S: Server>(exchange: &mut Exchange<S>, packet: S::Request) -> bool {
    matches!(
        exchange.step(Step::Put { client: 1, packet }),
        Outcome::Accepted(_)
    )
}

/// Serves the waiting packet.
fn serve_next<S: Server>(exchange: &mut Exchange<S>, moment: S::Moment) -> bool {
    matches!(exchange.step(Step::Serve { moment }), Outcome::Served)
}

/// Takes the reply of client 1.
fn take<S: Server>(exchange: &mut Exchange<S>) -> Option<S::Reply> {
    match exchange.step(Step::Take { client: 1 }) {
        Outcome::Taken(reply) => Some(reply.answer),
        _ => None,
    }
}

/// A handler over a blank volume.
fn blank_handler(alloc: Global) -> Option<Handler> {
    let name = Name::new(b"Bench").ok()?;
    let volume = blank(alloc, Format::Ffs, BLOCKS, name, MOMENT).ok()?;
    Some(Handler::new(alloc, volume))
}

/// Makes a directory in the root, and frees its lock.
fn make_directory(alloc: Global, handler: &mut Handler, n: u32) -> Option<i32> {
    let path = text(alloc, &name_of(n))?;
    handler.serve_one(Packet::CreateDir {
        lock: NO_LOCK,
        path,
    })?;
    handler.serve_one(Packet::FreeLock { lock: FIRST })
}

/// Opens the file, and makes it if there is none.
fn open(alloc: Global) -> Option<Packet> {
    let path = text(alloc, b"file")?;
    Some(Packet::FindUpdate {
        lock: NO_LOCK,
        path,
    })
}

/// Makes the given numbers of directories in the root and of shared locks on it, and opens a new file.
fn prepare(alloc: Global, handler: &mut Handler, locks: u32, entries: u32) -> Option<i32> {
    for n in 0..entries {
        make_directory(alloc, handler, n)?;
    }
    for _ in 0..locks {
        handler.serve_one(locate(alloc, b"")?)?;
    }
    handler.serve_one(open(alloc)?)
}

/// A handler over a volume prepared in this way.
fn prepared(alloc: Global, locks: u32, entries: u32) -> Option<Handler> {
    let mut handler = blank_handler(alloc)?;
    prepare(alloc, &mut handler, locks, entries)?;
    Some(handler)
}

/// A shared lock on the object of a path.
fn locate(alloc: Global, path: &[u8]) -> Option<Packet> {
    let path = text(alloc, path)?;
    Some(Packet::LocateObject {
        lock: NO_LOCK,
        path,
        mode: SHARED,
    })
}

/// The bytes to write, or to overwrite by a read.
fn buffer(alloc: Global) -> Option<Buffer> {
    Some(Buffer::from_vec(vec![in alloc; b'x'; PIECE].ok()?))
}

fn write(alloc: Global) -> Option<Packet> {
    let bytes = buffer(alloc)?;
    Some(Packet::Write {
        handle: FIRST,
        bytes,
    })
}

fn read(alloc: Global) -> Option<Packet> {
    let buffer = buffer(alloc)?;
    Some(Packet::Read {
        handle: FIRST,
        buffer,
    })
}

/// One packet of a round. The round makes, examines and frees a lock, and examines the first entry of the root. Then it
/// writes a piece of the file, seeks and reads.
fn packet(alloc: Global, n: u32, lock: u32) -> Option<Packet> {
    match n % ROUND {
        0 => locate(alloc, b"file"),
        1 => Some(Packet::ExamineObject { lock }),
        2 => Some(Packet::ExamineNext {
            lock: NO_LOCK,
            key: ROOT,
        }),
        3 => write(alloc),
        4 => Some(Packet::Seek {
            handle: FIRST,
            offset: 0,
            mode: BEGINNING,
        }),
        5 => read(alloc),
        _ => Some(Packet::FreeLock { lock }),
    }
}

/// Serves rounds of packets while this many locks are held. Each packet is made after the one before it was served.
/// Returns whether each packet succeeded, and each new lock had the expected number.
fn serve_rounds<S: Serves>(alloc: Global, server: &mut S, rounds: u32, locks: u32) -> bool {
    let lock = locks.saturating_add(FIRST);
    for n in 0..rounds.saturating_mul(ROUND) {
        let result = match packet(alloc, n, lock) {
            Some(packet) => server.serve_one(packet),
            None => None,
        };
        match result {
            None => return false,
            Some(number) if n % ROUND == 0 && number as i64 != lock as i64 => return false,
            Some(_) => {}
        }
    }
    true
}

/// The microseconds of the rounds, if each packet succeeded.
fn time_rounds<R: Clock, S: Serves>(
    rt: &R,
    alloc: Global,
    server: &mut S,
    rounds: u32,
    locks: u32,
) -> Option<u128> {
    let start = Instant::now(rt).ok()?;
    if !serve_rounds(alloc, server, rounds, locks) {
        return None;
    }
    Some(start.elapsed(rt).ok()?.as_micros())
}

/// The microseconds of the rounds as steps of a port over the handler.
fn time_steps<R: Clock>(
    rt: &R,
    alloc: Global,
    rounds: u32,
    locks: u32,
    handler: Handler,
) -> Option<u128> {
    let mut exchange = Exchange::new(alloc, handler, 1).ok()?;
    time_rounds(rt, alloc, &mut exchange, rounds, locks)
}

/// The microseconds of the rounds by the handler alone, and then as steps of a port over it.
fn time_both<R: Clock>(
    rt: &R,
    alloc: Global,
    rounds: u32,
    locks: u32,
    entries: u32,
) -> Option<(u128, u128)> {
    let mut handler = prepared(alloc, locks, entries)?;
    let alone = time_rounds(rt, alloc, &mut handler, rounds, locks)?;
    let by_steps = time_steps(rt, alloc, rounds, locks, handler)?;
    Some((alone, by_steps))
}

/// Prints the sizes of a packet, of a step and of an outcome, and the number of successful replies. The times go to
/// standard error, since they differ each time. They are the number of packets, and their microseconds by the handler
/// alone and then as steps of a port over it.
pub(crate) fn time<R: Clock + Print + Eprint>(
    rt: &R,
    alloc: Global,
    rounds: u32,
    locks: u32,
    entries: u32,
) -> Result<()> {
    let Some((alone, by_steps)) = time_both(rt, alloc, rounds, locks, entries) else {
        bail!("a packet is refused");
    };
    let packets = rounds.saturating_mul(ROUND);
    eprintln!(rt; "{packets} {alone} {by_steps}")?;
    let packet = size_of::<Packet>();
    let step = size_of::<Step<Packet, Date3>>();
    let outcome = size_of::<Outcome<Packet, Answer>>();
    println!(rt;
        "bytes of a packet {packet}, of a step {step}, of an outcome {outcome}\n{packets} replies of success"
    )?;
    Ok(())
}
