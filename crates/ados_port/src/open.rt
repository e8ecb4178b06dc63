//! Opens a port.
ghost use Rattle.std.specs.Prelude.{◌≡◌, ◌<◌, false, MatchResult};
ghost use Rattle.ados_port.specs.Ends.{IsOpened};

use crate::Server;
use crate::client::ClientEnd;
use crate::handler::HandlerEnd;
use std::alloc::Global;

/// A port that was not opened because memory ran out. It hands the server back.
#[derive(Drop)]
pub struct OpenRefused<S> {
    pub server: S,
}

/// Opens a port over this server: the handler's end, and the ends of clients 1, 2 and so on, each with a reply ring of
/// `ring` places.
///
/// The closing mark is made here, so that the server's death needs no memory.
pub fn open_port<S: Server>(
    alloc: Global,
    server: S,
    clients: usize,
    ring: usize,
) -> Result<(HandlerEnd<S>, Vec<ClientEnd<S>>), OpenRefused<S>>
    requires alive { S.has_died server ≡ false }
    requires counts { (0 < clients) × (0 < ring) }
    ensures { MatchResult result (λ opened. IsOpened server clients ring opened.0 opened.1.items) (λ refused. refused.server ≡ server) }
{
    let mut handler = HandlerEnd::new(alloc, server)?;
    let mut ends = Vec::new(alloc);
    for _ in 0..clients {
        if ends.reserve(1).is_err() {
            return Err(refused(handler));
        }
        let Ok(end) = handler.add_client(alloc, ring) else {
            return Err(refused(handler));
        };
        ends.push_reserved(end);
    }
    Ok((handler, ends))
}

fn refused<S: Server>(handler: HandlerEnd<S>) -> OpenRefused<S>
    ensures { result.server ≡ handler.server }
{
    OpenRefused {
        server: handler.into_server(),
    }
}
