//! A server that numbers the packets of another server in the order of service.

use crate::spoken::Spoken;
use ados_port::Server;
use std::alloc::Global;
use std::process::Abort;

/// A server, and the number of packets that it has served.
#[derive(Drop)]
pub(crate) struct Placed<S: Server> {
    pub(crate) server: S,
    pub(crate) served: usize,
}

/// The server's answer, and the number of packets served before.
#[derive(Drop)]
pub(crate) struct PlacedReply<A> {
    pub(crate) answer: A,
    pub(crate) place: usize,
}

impl<S: Server + Drop> Server for Placed<S> {
    type Request = S::Request;

    type Reply = PlacedReply<S::Reply>;

    type Moment = S::Moment;

    ghost gives = { λ old packet moment new reply. S.gives old.server packet moment new.server reply.answer };

    ghost has_died = { λ placed. S.has_died placed.server };

    ghost is_closing = { λ reply. S.is_closing reply.answer };

    fn serve(&mut self, packet: S::Request, moment: S::Moment) -> PlacedReply<S::Reply> {
        let place = self.served;
        self.served = place.wrapping_add(1);
        let answer = self.server.serve(packet, moment);
        PlacedReply { answer, place }
    }

    fn died(&self) -> bool {
        self.server.died()
    }

    fn closes(reply: &PlacedReply<S::Reply>) -> bool {
        S::closes(&reply.answer)
    }

    ghost stays_dead = { λ old new packet moment reply given dead. S.stays_dead old.server new.server packet moment reply.answer given dead };

    ghost closes_dead = { λ old new packet moment reply given closing. S.closes_dead old.server new.server packet moment reply.answer given closing };
}

impl<S: Spoken + Drop> Spoken for Placed<S> {
    fn packet_of<R: Abort>(rt: &R, alloc: Global, line: &str) -> Option<S::Request> {
        S::packet_of(rt, alloc, line)
    }

    fn action_of(packet: &S::Request) -> i32 {
        S::action_of(packet)
    }

    fn results_of(reply: &PlacedReply<S::Reply>) -> (i32, i32) {
        S::results_of(&reply.answer)
    }
}
