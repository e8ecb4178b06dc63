//! The clients' ends, with their jobs and with their output.
ghost use Rattle.std.specs.Prelude.{◌≡◌, IfOk, Ok, length, map};

use crate::client_job::ScriptJob;
use crate::gate::Gate;
use crate::scripts::ClientDone;
use crate::speaking::ClientText;
use adf_script::ClientEnding;
use ados_port::{ClientEnd, Server};
use std::alloc::{AllocError, Global};
use std::collections::VecDeque;

/// Separates the clients' ends from their jobs.
pub(crate) fn part<S: Server, G: Gate + Drop>(
    alloc: Global,
    clients: Vec<(ClientEnd<S>, Vec<u8>, G)>,
    turns: u64,
) -> Result<(Vec<ClientEnd<S>>, Vec<ScriptJob<G>>), AllocError>
    ensures ends { IfOk result (λ parts. parts.0.items ≡ map (λ c. c.0) clients.items) }
    ensures jobs { IfOk result (λ parts. map (λ job. job.script) parts.1.items ≡ map (λ c. c.1) clients.items) }
{
    let mut ends = Vec::new(alloc);
    let mut jobs = Vec::new(alloc);
    for (end, script, gate) in clients {
        ends.push(end)?;
        jobs.push(ScriptJob {
            alloc,
            script,
            gate,
            turns,
        })?;
    }
    Ok((ends, jobs))
}

/// Joins the ends with the output of their clients. If a client ran out of memory, the result is an error.
pub(crate) fn join<S: Server>(
    alloc: Global,
    ends: Vec<ClientEnd<S>>,
    reports: Vec<Result<ClientText, AllocError>>,
) -> Result<Vec<ClientDone<S>>, AllocError>
    requires { length reports.items ≡ length ends.items }
    ensures ends { IfOk result (λ done. map (λ d. d.client) done.items ≡ ends.items) }
    ensures reports { IfOk result (λ done. map (λ d. Ok (record { text = d.text; end = d.end })) done.items ≡ reports.items) }
{
    let mut done = Vec::new(alloc);
    let mut reports = VecDeque::from_vec(reports);
    for client in ends {
        let Some(report) = reports.pop_front() else {
            unreachable!()
        };
        let ClientText { text, end } = report?;
        done.push(ClientDone { client, text, end })?;
    }
    Ok(done)
}

/// Pairs each client with its script and its gate, in order.
pub fn assign<S: Server, G: Drop>(
    alloc: Global,
    ends: Vec<ClientEnd<S>>,
    scripts: Vec<(Vec<u8>, G)>,
) -> Result<Vec<(ClientEnd<S>, Vec<u8>, G)>, AllocError>
    requires { length scripts.items ≡ length ends.items }
    ensures ends { IfOk result (λ clients. map (λ c. c.0) clients.items ≡ ends.items) }
    ensures scripts { IfOk result (λ clients. map (λ c. (c.1, c.2)) clients.items ≡ scripts.items) }
{
    let mut clients = Vec::new(alloc);
    let mut scripts = VecDeque::from_vec(scripts);
    for end in ends {
        let Some((script, gate)) = scripts.pop_front() else {
            unreachable!()
        };
        clients.push((end, script, gate))?;
    }
    Ok(clients)
}

/// Separates the ends from their clients' output, so that the ends can be gathered.
pub fn part_done<S: Server>(
    alloc: Global,
    clients: Vec<ClientDone<S>>,
) -> Result<(Vec<ClientEnd<S>>, Vec<(Vec<u8>, ClientEnding)>), AllocError>
    ensures ends { IfOk result (λ parts. parts.0.items ≡ map (λ d. d.client) clients.items) }
    ensures texts { IfOk result (λ parts. parts.1.items ≡ map (λ d. (d.text, d.end)) clients.items) }
{
    let mut ends = Vec::new(alloc);
    let mut texts = Vec::new(alloc);
    for done in clients {
        let ClientDone { client, text, end } = done;
        ends.push(client)?;
        texts.push((text, end))?;
    }
    Ok((ends, texts))
}
