//! Laws about the definitions. Each is the contract of a function that does nothing.
ghost use Rattle.adf_script.specs.Ran.{LinesAreOneRun};

use ados_model::{Answer, Packet};
use ados_port::Server;

/// The output of a script line by line is the output of one run, in one history of the port from its opening.
pub fn lines_are_one_run<S>()
where
    S: Server<Request = Packet, Reply = Answer>,
    ensures { LinesAreOneRun S.gives S.has_died }
{}
