//! A port with all its ends in one value.
ghost use Rattle.std.specs.Prelude.{◌≡◌, ◌<◌, false, IfErr};
ghost use Rattle.ados_port.specs.Ends.{AreEnds};

use crate::rows::Opening;
use ados_port::{
    ClientEnd, GatherRefused, Gathered, HandlerEnd, OpenRefused, PutRefused, Reply, ServeEnd,
    ServeFault, Server, gather, open_port,
};
use std::alloc::Global;
use std::sync::Wait;

/// The ends of a port. Clients are numbered from 1.
#[derive(Drop)]
pub(crate) struct Port<S: Server> {
    pub(crate) handler: HandlerEnd<S>,
    pub(crate) ends: Vec<ClientEnd<S>>,
    /// The time stamp of every batch.
    pub(crate) moment: S::Moment,
    /// Whether a case repeats a call once if memory was refused.
    pub(crate) again: bool,
    ghost all: { AreEnds handler ends.items },
}

impl<S: Server> Port<S> {
    /// Opens a port. It needs at least one client and at least one place in each ring. Without these, or if memory is
    /// refused, the server is returned.
    pub(crate) fn open(
        alloc: Global,
        server: S,
        moment: S::Moment,
        opening: Opening,
    ) -> Result<Port<S>, S>
        requires { S.has_died server ≡ false }
        ensures { IfErr result (λ back. back ≡ server) }
    {
        let Opening {
            clients,
            ring,
            again,
        } = opening;
        if clients == 0 || ring == 0 {
            return Err(server);
        }
        match open_port(alloc, server, clients, ring) {
            Ok((handler, ends)) => Ok(Port {
                handler,
                ends,
                moment,
                again,
            }),
            Err(OpenRefused { server }) => Err(server),
        }
    }

    /// Puts a packet for this client. A put of an unknown client is refused.
    pub(crate) fn put<R: Wait>(
        &mut self,
        rt: &R,
        client: usize,
        packet: S::Request,
    ) -> Result<u64, PutRefused<S::Request>> {
        if client == 0 || client > self.ends.len() {
            return Err(PutRefused::NoRoom(packet));
        }
        let end = &mut self.ends[client - 1];
        match end.put(rt, packet) {
            Ok(number) => Ok(number),
            Err(PutRefused::Closed(back)) => Err(PutRefused::Closed(back)),
            Err(PutRefused::NoRoom(back)) => Err(PutRefused::NoRoom(back)),
        }
    }

    pub(crate) fn take(&mut self, client: usize) -> Option<Reply<S::Reply>> {
        if client == 0 || client > self.ends.len() {
            return None;
        }
        let end = &mut self.ends[client - 1];
        let reply = end.take()?;
        Some(reply)
    }

    pub(crate) fn is_shut(&mut self, client: usize) -> bool {
        if client == 0 || client > self.ends.len() {
            return false;
        }
        let end = &mut self.ends[client - 1];
        end.is_shut()
    }

    pub(crate) fn serve_batch<R: Wait>(
        &mut self,
        rt: &R,
        limit: usize,
    ) -> Result<usize, ServeFault> {
        let served = self.handler.serve_batch(rt, self.moment, limit)?;
        Ok(served)
    }

    pub(crate) fn post_waiting(&mut self) -> usize {
        self.handler.post_waiting()
    }

    pub(crate) fn serve_until_closed<R: Wait>(
        &mut self,
        rt: &R,
        idle_limit: u64,
    ) -> Result<ServeEnd, ServeFault>
        requires { 0 < idle_limit }
    {
        self.handler.serve_until_closed(rt, self.moment, idle_limit)
    }
}

impl<S: Server + Drop> Port<S> {
    /// Gathers the ends. If memory was refused, gathers once more if the case says so.
    pub(crate) fn gather<R: Wait>(self, rt: &R, alloc: Global) -> Option<Gathered<S>> {
        let Port {
            handler,
            ends,
            again,
            ..
        } = self;
        match gather(rt, alloc, handler, ends) {
            Ok(left) => Some(left),
            Err(GatherRefused { handler, clients }) if again => {
                gather(rt, alloc, handler, clients).ok()
            }
            Err(_) => None,
        }
    }
}
