//! Runs scripts at a handler over a volume, each as a client on its own thread.
ghost use Rattle.std.specs.Prelude.{◌≡◌, ◌<◌, IfOk, length, map};
ghost use Rattle.ados_port.specs.Ends.{AreEnds, IsNew};
ghost use Rattle.ados_run.specs.Scripts.{AreUnused};
ghost use Rattle.ados_run.specs.steps.Gathered.{IsGathered};
ghost use Rattle.ados_run.specs.Keeping.{KeepsServed};
ghost use Rattle.ados_run.specs.ServesVolume.{ServesVolume, handler_over, scripts_of, texts_of};

use crate::ends::{assign, part_done};
use crate::gate::Gate;
use crate::scripts::{ScriptsDone, ScriptsFault, serve_scripts};
use adf_script::ClientEnding;
use ados_handler::Handler;
use ados_name::Date3;
use ados_port::{ClientEnd, HandlerEnd, gather, open_port};
use ados_volume::Volume;
use std::alloc::Global;
use std::sync::Wait;
use std::thread::Threads;

/// The number of places in each client's ring of replies.
const RING: usize = 8;

/// The handler after all packets that it served; and the output of each client and how it ended, in order.
#[derive(Drop)]
pub struct VolumeServed {
    pub handler: Handler,
    pub texts: Vec<(Vec<u8>, ClientEnding)>,
}

/// The handler's end of a port, and the clients' ends, each with its script and its gate.
type OpenedClients<G> = (HandlerEnd<Handler>, Vec<(ClientEnd<Handler>, Vec<u8>, G)>);

/// Opens a port at a handler over this volume, with a client for each script.
fn open_clients<G: Drop>(
    alloc: Global,
    volume: Volume,
    scripts: Vec<(Vec<u8>, G)>,
) -> Result<OpenedClients<G>, ScriptsFault>
    requires some { 0 < length scripts.items }
    ensures handler { IfOk result (λ opened. IsNew (handler_over volume.image volume.was_validated) opened.0) }
    ensures ends { IfOk result (λ opened. AreEnds opened.0 (map (λ c. c.0) opened.1.items)) }
    ensures unused { IfOk result (λ opened. AreUnused (map (λ c. c.0) opened.1.items)) }
    ensures scripts { IfOk result (λ opened. map (λ c. (c.1, c.2)) opened.1.items ≡ scripts.items) }
{
    let server = Handler::new(alloc, volume);
    match open_port(alloc, server, scripts.len(), RING) {
        Ok((handler, ends)) => Ok((handler, assign(alloc, ends, scripts)?)),
        Err(_) => Err(ScriptsFault::Memory),
    }
}

/// Gathers the ends of a port whose clients are done.
fn gather_done<R: Wait>(
    rt: &R,
    alloc: Global,
    done: ScriptsDone<Handler>,
) -> Result<VolumeServed, ScriptsFault>
    requires { AreEnds done.handler (map (λ d. d.client) done.clients.items) }
    ensures { IfOk result (λ served. IsGathered done.handler (map (λ d. d.client) done.clients.items) served.handler
        × (served.texts.items ≡ map (λ d. (d.text, d.end)) done.clients.items)) }
{
    let ScriptsDone { handler, clients } = done;
    let (ends, texts) = part_done(alloc, clients)?;
    match gather(rt, alloc, handler, ends) {
        Ok(left) => Ok(VolumeServed {
            handler: left.server,
            texts,
        }),
        Err(_) => Err(ScriptsFault::Memory),
    }
}

/// Opens a port at a handler over this volume, with a client for each script. It runs the scripts as `serve_scripts`
/// does, with the time stamp `moment` for each packet, and gathers all ends. Each script's gate is called for each of
/// its packets.
///
/// After a fault the volume is lost, and no thread is left.
pub fn serve_volume<G, R>(
    rt: &R,
    alloc: Global,
    volume: Volume,
    scripts: Vec<(Vec<u8>, G)>,
    moment: Date3,
    turns: u64,
) -> Result<VolumeServed, ScriptsFault>
where
    G: Gate + Drop + Send + 'static,
    R: Threads + Wait + Copy + Send + Drop + 'static,
    requires some { 0 < length scripts.items }
    ensures { IfOk result
        (λ done. ServesVolume volume.image volume.was_validated (scripts_of scripts.items) moment
        (texts_of done.texts.items) done.handler
        × KeepsServed volume.image volume.was_validated (scripts_of scripts.items) moment
        (texts_of done.texts.items) done.handler) }
{
    // This calls `image`, whose contract says that there is a tree.
    prove!(volume.image().blocks() >= 16);
    let (handler, clients) = open_clients(alloc, volume, scripts)?;
    let done = serve_scripts(rt, alloc, handler, clients, moment, turns)?;
    gather_done(rt, alloc, done)
}
