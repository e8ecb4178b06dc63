//! The server with the history of what it served.
ghost use Rattle.std.specs.Prelude.{◌≡◌, ◌<◌, [], ◌∷◌, ◌++◌, length, true, false, IfOk, IsTrue};
ghost use Rattle.ados_port.specs.Lawful.{MeaningRun};

use crate::Server;
use crate::closing_mark::{CloseReader, CloseSetter};
use crate::trail::Trail;
use std::alloc::AllocError;
use std::marker::Model;
use std::snapshot::Snapshot;

/// One served packet. It is in the history only, and takes no bytes at run time.
#[derive(Drop)]
pub struct Entry<S: Server> {
    pub client: usize,
    pub packet: Snapshot<S::Request>,
    pub moment: S::Moment,
    pub answer: Snapshot<S::Reply>,
}

/// The server, the opening server, and the packets served in between.
#[derive(Drop)]
pub struct Desk<S: Server> {
    server: S,
    opening: Snapshot<S>,
    past: Trail<Entry<S>>,
    mark: CloseSetter,
    count: u64,
}

impl<S: Server> Model for Desk<S> {
    ghost use Rattle.std.specs.Prelude.{◌≡◌, length};
    ghost use Rattle.ados_port.specs.Lawful.{MeaningRun};
    ghost use Rattle.ados_port.specs.steps.Desks.{DeskView};

    ghost Value = { DeskView S S.Request S.Moment S.Reply };

    ghost use Rattle.ados_port.specs.steps.Entries.{served_of};

    ghost view = { λ d. record { opening = d.opening.value; server = d.server; served = served_of d.past; mark = d.mark.mark; knows = d.mark.knows } };

    ghost invariant = { λ d. MeaningRun S.gives d.opening.value (served_of d.past) d.server
        × (d.mark.knows ≡ S.has_died d.server) × (d.count ≡ length d.past) };
}

impl<S: Server> Desk<S> {
    pub fn new(server: S, mark: CloseSetter) -> Desk<S>
        requires { (S.has_died server ≡ false) × (mark.knows ≡ false) }
        ensures { result ≡ record { opening = server; server = server; served = []; mark = mark.mark; knows = false } }
    {
        Desk {
            opening: Snapshot::of(&server),
            server,
            past: Trail::new(),
            mark,
            count: 0,
        }
    }

    pub fn server(&self) -> &S
        ensures { result.now ≡ self.now.server }
    {
        &self.server
    }

    pub fn into_server(self) -> S
        ensures { result ≡ self.server }
    {
        self.server
    }

    /// The number of packets served.
    pub fn count(&self) -> u64
        ensures { result ≡ length self.now.served }
    {
        self.count
    }

    /// Makes a reading end of the closing mark.
    pub fn reader(&self) -> Result<CloseReader, AllocError>
        ensures { IfOk result (λ m. (m.mark ≡ self.now.mark) × (m.knows ≡ false)) }
    {
        self.mark.reader()
    }

    /// Lets a reading end look at the mark. Returns whether the result is consistent: then it knows of the close only
    /// if the server has died.
    pub fn hear(&self, reader: &mut CloseReader) -> bool
        ensures same { reader.new ≡ reader.old }
        ensures died { IsTrue result → reader.old.knows ≡ true → S.has_died self.now.server ≡ true }
    {
        self.mark.hear(reader)
    }

    /// The invariant of a desk.
    pub fn witness(&self)
        ensures run { MeaningRun S.gives self.now.opening self.now.served self.now.server }
        ensures mark { self.now.knows ≡ S.has_died self.now.server }
    {
        let _ = &self.server;
    }

    /// Serves one packet of a client. If the server has died, the mark is set before the answer is sent.
    pub fn serve(&mut self, client: usize, packet: S::Request, moment: S::Moment) -> S::Reply
        requires { length self.old.served < 18446744073709551615 }
        ensures kept { (self.new.opening ≡ self.old.opening) × (self.new.mark ≡ self.old.mark) }
        ensures served { self.new.served ≡ self.old.served ++ record { client = client; packet = packet; moment = moment; answer = result } ∷ [] }
        ensures meaning { S.gives self.old.server packet moment self.new.server result }
    {
        let asked = Snapshot::of(&packet);
        let answer = self.server.serve(packet, moment);
        self.past.push(Entry {
            client,
            packet: asked,
            moment,
            answer: Snapshot::of(&answer),
        });
        self.count += 1;
        if self.server.died() {
            self.mark.set();
        }
        answer
    }
}
