//! The text form of packets and answers in the cases. What goes through a port is generic in its server, so that a
//! dropped packet is one case for the prover, and not one for each packet.
use crate::rows::{cut, hexadecimal, long_of};
use adf_script::grammar::parse;
use ados_handler::{Answer, Body, Handler, Packet};
use ados_name::Name;
use ados_port::Server;
use ados_volume::DiskInfo;
use std::alloc::Global;
use std::process::Abort;

/// A server whose packets are read from lines and named by their actions. Its replies are named by their two results.
pub(crate) trait Spoken: Server {
    /// The packet of a line of a script, if the line spells one. If memory is refused, the test ends with that error.
    fn packet_of<R: Abort>(rt: &R, alloc: Global, line: &str) -> Option<Self::Request>;

    fn action_of(packet: &Self::Request) -> i32;

    fn results_of(reply: &Self::Reply) -> (i32, i32);
}

/// What an answer tells: its action, its two results, and the key and name of the object that it describes.
#[derive(Clone, Copy)]
pub(crate) struct Told {
    pub(crate) action: i32,
    pub(crate) results: (i32, i32),
    pub(crate) entry: Option<(u32, Name)>,
}

/// A server over an image, whose replies tell more.
pub(crate) trait Telling: Spoken {
    fn told(reply: &Self::Reply) -> Told;

    /// Whether a text names what a reply carries beside its results.
    fn has_body(wanted: &str, reply: &Self::Reply) -> bool;

    /// The bytes of the image.
    fn bytes(&self) -> &[u8];
}

impl Spoken for Handler {
    fn packet_of<R: Abort>(rt: &R, alloc: Global, line: &str) -> Option<Packet> {
        parse(alloc, &[], line.as_bytes()).expect(rt, "error")
    }

    fn action_of(packet: &Packet) -> i32 {
        packet.action()
    }

    fn results_of(reply: &Answer) -> (i32, i32) {
        (reply.res1, reply.res2)
    }
}

impl Telling for Handler {
    fn told(reply: &Answer) -> Told {
        Told {
            action: reply.action,
            results: (reply.res1, reply.res2),
            entry: match &reply.body {
                Body::Entry(info) => Some((info.key, info.name)),
                _ => None,
            },
        }
    }

    fn has_body(wanted: &str, reply: &Answer) -> bool {
        let (word, rest) = cut(wanted);
        match &reply.body {
            Body::Empty => wanted.is_empty(),
            Body::Handle(handle) => word == "handle" && long_of(rest) == *handle,
            Body::Entry(entry) => word == "block" && long_of(rest) == entry.key,
            Body::Disk(disk) => word == "disk" && is_disk(rest, disk),
            Body::Buffer(back) => are_digits_of(wanted, back.bytes()),
        }
    }

    fn bytes(&self) -> &[u8] {
        self.volume().image().as_bytes()
    }
}

/// Whether a text has the state of a disk, the number of its blocks and the number of used ones.
fn is_disk(wanted: &str, disk: &DiskInfo) -> bool {
    let (state, rest) = cut(wanted);
    let (blocks, used) = cut(rest);
    long_of(state) == disk.state && long_of(blocks) == disk.blocks && long_of(used) == disk.used
}

/// Whether a text consists of two hexadecimal digits for each of these bytes.
fn are_digits_of(text: &str, bytes: &[u8]) -> bool {
    let digits = text.as_bytes();
    for (pair, byte) in digits.chunks(2).zip(bytes) {
        if hexadecimal(pair) != *byte as u32 {
            return false;
        }
    }
    digits.len() / 2 == bytes.len()
}
