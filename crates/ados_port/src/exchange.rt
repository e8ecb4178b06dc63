//! The exchange: a server, its port and its clients' replies.
ghost use Rattle.std.specs.Prelude.{◌≡◌, ◌≤◌, [], ◌∷◌, MatchResult};
ghost use Rattle.ados_port.specs.History.{opening_port, PortHistory};
ghost use Rattle.ados_port.specs.Gives.{PutGives, ServeGives, TakeGives, StepGives};
ghost use Rattle.ados_port.specs.declared.step.PutRefused.TheVariants.{NoRoom};
ghost use Rattle.ados_port.specs.declared.step.Outcome.TheVariants.{Refused};
ghost use Rattle.ados_port.specs.Exchanges.{HasPlacesFor, IsFull, KeepsPlaces, RefusesIfFull};

use crate::counts::Client;
use crate::{Outcome, PutRefused, Server, Step};
use std::alloc::Global;
use std::collections::VecDeque;
use std::marker::Model;

/// A packet that waits at the port.
#[derive(Drop)]
struct Waiting<Q> {
    client: usize,
    packet: Q,
}

/// A server with its port and its clients' replies. A contract sees its port as a `PortState`: the server, the puts,
/// takes and untaken replies of each client, and the waiting packets. It also sees how many places its lists have.
#[derive(Drop)]
pub struct Exchange<S: Server> {
    server: S,
    clients: Vec<Client<S::Reply>>,
    waiting: VecDeque<Waiting<S::Request>>,
}

impl<S: Server> Model for Exchange<S> {
    ghost use Rattle.std.specs.VecDeque.{deque_capacity};
    ghost use Rattle.ados_port.specs.Exchanges.{ExchangeView, exchange_code};

    ghost Value = { ExchangeView S S.Request S.Reply };

    ghost coded = { exchange_code S.code S.Request.code S.Reply.code };

    ghost use Rattle.ados_port.specs.View.{clients_view, waiting_view, places_view, IsKept};

    ghost view = { λ e. record {
      port = record {
        server = e.server;
        clients = clients_view e.clients.items;
        waiting = waiting_view e.waiting.items;
      };
      packet_places = deque_capacity e.waiting;
      reply_places = places_view e.clients.items;
    } };

    ghost invariant = { λ e. IsKept e.clients.items e.waiting.items };
}

/// The server of an exchange that was not made because memory ran out, unchanged.
#[derive(Drop)]
pub struct NewRefused<S> {
    pub server: S,
}

impl<S: Server> Exchange<S> {
    /// Makes an exchange over this server, with clients 1 to `clients`, in which nothing was put.
    pub fn new(alloc: Global, server: S, clients: usize) -> Result<Self, NewRefused<S>>
        requires { 1 ≤ clients }
        ensures { MatchResult result (λ exchange. exchange.port ≡ opening_port server clients)
            (λ refused. refused.server ≡ server) }
    {
        let Ok(mut list) = Vec::with_capacity(alloc, clients) else {
            return Err(NewRefused { server });
        };
        for _number in 0..clients {
            list.push_reserved(Client::new(alloc));
        }
        Ok(Exchange {
            server,
            clients: list,
            waiting: VecDeque::new(alloc),
        })
    }

    /// Does one step. An accepted put reserves room for its reply, so neither its serve nor its take needs memory.
    ///
    /// A put is refused as `NoRoom` only if a list is full and memory for more places ran out, or if the client's count
    /// is at its maximum. No list loses a place, so what is served and taken makes room for other packets.
    ///
    /// It is inlined, because most callers know the kind of step. As a call it would move room for any packet there and
    /// back.
    #[inline(always)]
    pub fn step(&mut self, step: Step<S::Request, S::Moment>) -> Outcome<S::Request, S::Reply>
        ensures gives { StepGives S.gives S.has_died self.old.port step result self.new.port }
        ensures history { PortHistory S.gives S.has_died self.old.port (step ∷ []) (result ∷ []) self.new.port }
        ensures full { RefusesIfFull self.old step result }
        ensures places { KeepsPlaces self.old self.new }
    {
        match step {
            Step::Put { client, packet } => self.put(client, packet),
            Step::Serve { moment } => self.serve(moment),
            Step::Take { client } => self.take(client),
        }
    }

    /// The invariant of an exchange: its lists have places for its packets.
    pub fn witness(&self)
        ensures { HasPlacesFor 0 self.now }
    {
        let _ = &self.server;
    }

    /// The server after the packets served so far.
    pub fn server(&self) -> &S
        ensures { result.now ≡ self.now.port.server }
    {
        &self.server
    }

    /// Hands out the server. Waiting packets and untaken replies are dropped.
    pub fn into_server(self) -> S
        ensures { result ≡ self.port.server }
    {
        let Exchange {
            server,
            clients,
            waiting,
        } = self;
        drop(clients);
        drop(waiting);
        server
    }

    fn put(&mut self, client: usize, packet: S::Request) -> Outcome<S::Request, S::Reply>
        ensures gives { PutGives S.has_died self.old.port client packet result self.new.port }
        ensures full { (back : S.Request) → result ≡ Refused (NoRoom back) → IsFull self.old client }
        ensures places { KeepsPlaces self.old self.new }
    {
        if client == 0 || self.clients.len() < client {
            return Outcome::NoClient(Some(packet));
        }
        if self.server.died() {
            return Outcome::Refused(PutRefused::Closed(packet));
        }
        if self.waiting.reserve(1).is_err() {
            return Outcome::Refused(PutRefused::NoRoom(packet));
        }
        let place = &mut self.clients[client - 1];
        match place.accept() {
            None => Outcome::Refused(PutRefused::NoRoom(packet)),
            Some(number) => {
                self.waiting.push_back_reserved(Waiting { client, packet });
                Outcome::Accepted(number)
            }
        }
    }

    fn serve(&mut self, moment: S::Moment) -> Outcome<S::Request, S::Reply>
        ensures gives { ServeGives S.gives self.old.port moment result self.new.port }
        ensures places { KeepsPlaces self.old self.new }
    {
        match self.waiting.pop_front() {
            None => Outcome::Idle,
            Some(first) => {
                let Waiting { client, packet } = first;
                let answer = self.server.serve(packet, moment);
                let place = &mut self.clients[client - 1];
                place.answer(answer);
                Outcome::Served
            }
        }
    }

    fn take(&mut self, client: usize) -> Outcome<S::Request, S::Reply>
        ensures gives { TakeGives self.old.port client result self.new.port }
        ensures places { KeepsPlaces self.old self.new }
    {
        if client == 0 || self.clients.len() < client {
            return Outcome::NoClient(None);
        }
        let place = &mut self.clients[client - 1];
        match place.take() {
            None => Outcome::Nothing,
            Some(reply) => Outcome::Taken(reply),
        }
    }
}
