//! A message port: clients put packets to it, a server serves them one after another, and each client takes its
//! replies. On one thread it is an [`Exchange`]. With clients on threads of their own it is opened by [`open_port`],
//! and at the end [`gather`] brings all ends together.
#![tactic(auto)]

// What a port is.
mod laws;
pub mod server;
pub mod step;

// On one thread.
mod counts;
mod exchange;
mod steps;

// The queue, the rings, and the ends of clients and handler.
mod bell;
mod client;
mod closing_mark;
mod desk;
mod gathering;
mod handler;
mod open;
mod outlets;
mod queue;
mod ring;
mod seat;
mod trail;

// A thread for each client, and the handler on the first thread.
mod client_task;
mod serve;

pub use bell::Rest;
pub use client::ClientEnd;
pub use client_task::Client;
pub use exchange::{Exchange, NewRefused};
pub use gathering::{GatherRefused, Gathered, gather};
pub use handler::{HandlerEnd, ServeEnd, ServeFault};
pub use laws::{closed_after_death, lists_have_a_history};
pub use open::{OpenRefused, open_port};
pub use queue::TakeHistory;
pub use serve::{ServeClientsFault, Served, serve_clients};
pub use server::Server;
pub use step::{Outcome, PutRefused, Reply, Step};
pub use steps::{RunDone, RunRefused, run};
