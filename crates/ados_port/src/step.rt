//! The steps of a port and their outcomes. Clients are numbered from 1.

/// A step of a client or of the handler at a port.
#[derive(PartialEq, Eq, Drop)]
pub enum Step<Q, M> {
    Put { client: usize, packet: Q }, // A client puts a packet, as with `PutMsg`.
    Serve { moment: M }, // The handler serves the first waiting packet, as after `GetMsg`.
    Take { client: usize }, // A client takes its first reply.
}

/// A refused put. It returns the packet and changes nothing.
#[derive(PartialEq, Eq, Drop)]
pub enum PutRefused<Q> {
    Closed(Q), // The server has died.
    NoRoom(Q), // No memory is left for the packet or its reply, or a counter is at its maximum.
}

/// A reply, with the number of the client's packet.
#[derive(PartialEq, Eq, Drop)]
pub struct Reply<A> {
    pub number: u64, // The number of the client's packet, from 1.
    pub answer: A,
}

/// The outcome of a step.
#[derive(PartialEq, Eq, Drop)]
pub enum Outcome<Q, A> {
    Accepted(u64), // It waits at the port. The number counts the client's accepted packets from 1.
    Refused(PutRefused<Q>), // The packet was refused.
    Served, // A packet was served, and its reply is ready for the client.
    Idle, // No packet waits.
    Taken(Reply<A>), // The client's first reply that was not taken yet.
    Nothing, // The client has no reply.
    NoClient(Option<Q>), // No client has this number. The packet of a put is returned.
}
