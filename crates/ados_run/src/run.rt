//! Runs port steps at a handler over an image.
ghost use Rattle.std.specs.Prelude.{◌≡◌, ◌≤◌, MatchResult};
ghost use Rattle.ados_run.specs.Keeping.{KeepsVolume};
ghost use Rattle.ados_run.specs.Refused.{IsRunFault};
ghost use Rattle.ados_run.specs.Runs.{RunsVolume};

use adf_block::Image;
use ados_handler::Handler;
use ados_model::Packet;
use ados_name::Date3;
use ados_port::{Exchange, RunDone, Step, run};
use ados_volume::{Rejected, check};
use std::alloc::Global;

/// Why no step was run. Each case returns the image.
#[derive(Drop)]
pub enum RunFault {
    /// `check` refuses the image.
    Rejected(Rejected),
    /// No memory for the clients or the outcomes. The image is the accepted one: its bitmap may be rebuilt.
    NoMemory(Image),
}

impl From<Rejected> for RunFault {
    ghost use Rattle.std.specs.Prelude.{◌≡◌};
    ghost use Rattle.ados_run.specs.declared.run.RunFault.TheVariants as faults;

    ghost from_gives = { λ rejected fault. fault ≡ faults.Rejected rejected };

    fn from(rejected: Rejected) -> RunFault {
        RunFault::Rejected(rejected)
    }
}

/// Checks an image, opens a port with clients 1 to `clients` at a handler over its volume, and runs these steps in
/// order.
///
/// Each Serve has its own time stamp. Afterwards the server with its image is `done.exchange.server()`.
pub fn run_volume(
    alloc: Global,
    image: Image,
    clients: usize,
    steps: Vec<Step<Packet, Date3>>,
) -> Result<RunDone<Handler>, RunFault>
    requires { 1 ≤ clients }
    ensures { MatchResult result
        (λ done. RunsVolume image clients steps.items done.outcomes.items done.exchange.port
        × KeepsVolume image clients steps.items done.outcomes.items done.exchange.port)
        (IsRunFault image) }
{
    let volume = check(alloc, image)?;
    prove!(volume.image().blocks() >= 16);
    let handler = Handler::new(alloc, volume);
    let exchange = match Exchange::new(alloc, handler, clients) {
        Ok(exchange) => exchange,
        Err(refused) => return Err(no_memory(refused.server)),
    };
    match run(alloc, exchange, steps) {
        Ok(done) => Ok(done),
        Err(refused) => Err(no_memory(refused.exchange.into_server())),
    }
}

/// Out of memory, with the image of a handler that served nothing.
fn no_memory(handler: Handler) -> RunFault
    ensures { result ≡ RunFault.NoMemory handler.image }
{
    RunFault::NoMemory(handler.into_volume().into_image())
}
