//! Laws of ports. Each is the contract of a function that does nothing. They hold for any server.
ghost use Rattle.ados_port.specs.Laws.{ClosedAfterDeath, ListsHaveAHistory};

use crate::server::Server;

/// The lists gathered from all ends of a running port have a step-by-step history on one thread.
pub fn lists_have_a_history<S: Server>()
    ensures { ListsHaveAHistory S.gives S.has_died }
{}

/// After the server's death, each put is refused as closed.
pub fn closed_after_death<S: Server>()
    ensures { ClosedAfterDeath S.gives S.has_died }
{}
