//! The job of a client's thread.
ghost use Rattle.std.specs.Prelude.{IfOk};
ghost use Rattle.ados_run.specs.Scripts.{IsUnused, Tells};

use crate::gate::Gate;
use crate::speaking::{ClientText, finish, speak};
use adf_script::text::fault_text;
use adf_script::{ClientEnding, LONGEST_SCRIPT};
use ados_model::{Answer, Packet};
use ados_port::{Client, ClientEnd, Server};
use std::alloc::{AllocError, Global};
use std::sync::Wait;

/// A client's script, its gate, and the number of tries for each packet and each reply.
#[derive(Drop)]
pub(crate) struct ScriptJob<G: Drop> {
    pub(crate) alloc: Global,
    pub(crate) script: Vec<u8>,
    pub(crate) gate: G,
    pub(crate) turns: u64,
}

impl<S, G> Client<S> for ScriptJob<G>
where
    S: Server<Request = Packet, Reply = Answer>,
    G: Gate + Drop,
{
    type Report = Result<ClientText, AllocError>;

    ghost does = { λ job old new report. IsUnused old → IfOk report (λ told. Tells job.script.items new told.text.items told.end) };

    fn run<R: Wait>(self, rt: &R, end: &mut ClientEnd<S>) -> Result<ClientText, AllocError> {
        let ScriptJob {
            alloc,
            script,
            gate,
            turns,
        } = self;
        let mut gate = gate;
        if LONGEST_SCRIPT < script.len() {
            let fault = fault_text(alloc, end.number(), 0)?;
            return finish(Vec::new(alloc), fault, ClientEnding::Script);
        }
        speak(rt, alloc, end, &script, &mut gate, turns)
    }
}
