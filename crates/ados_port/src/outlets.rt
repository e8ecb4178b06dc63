//! The outlets of all clients.
ghost use Rattle.std.specs.Prelude.{◌≡◌, ◌+◌, ◌<◌, ◌≤◌, ◌^◌, length, OnOk, IsFalse};
ghost use Rattle.ados_port.specs.Rings.{Each, EachOffers, waiting_count};
ghost use Rattle.ados_port.specs.steps.Sending.{EachGetsRoom, EachHasRoom, SendsTo};

use crate::ring::Outlet;
use std::alloc::AllocError;

/// Sends a reply to the client with this number.
pub fn send_to<T: Drop>(outlets: &mut Vec<Outlet<T>>, client: usize, reply: T)
    requires client { (1 ≤ client) × (client ≤ length outlets.old.items) }
    requires room { EachHasRoom 1 outlets.old.items }
    ensures { Each (SendsTo client reply) outlets.old.items outlets.new.items }
{
    let outlet = &mut outlets[client - 1];
    outlet.send(reply);
}

/// Posts of each outlet what fits, in order. Returns how many replies still wait.
pub fn post_all<T: Drop>(outlets: &mut Vec<Outlet<T>>) -> usize
    requires few { waiting_count outlets.old.items < 2 ^ 64 }
    ensures offers { EachOffers outlets.old.items outlets.new.items }
    ensures count { result ≡ waiting_count outlets.new.items }
{
    let mut waiting = 0;
    for i in 0..outlets.len() {
        let outlet = &mut outlets[i];
        waiting += outlet.post_waiting();
    }
    waiting
}

/// Whether a reply waits beside any ring.
pub fn any_waits<T: Drop>(outlets: &Vec<Outlet<T>>) -> bool
    ensures { IsFalse result → waiting_count outlets.now.items ≡ 0 }
{
    for i in 0..outlets.len() {
        let outlet = &outlets[i];
        if outlet.waiting() > 0 {
            return true;
        }
    }
    false
}

/// Wakes each sleeping client.
pub fn ring_all<T: Drop>(outlets: &Vec<Outlet<T>>) {
    for i in 0..outlets.len() {
        outlets[i].ring();
    }
}

/// Reserves room at each outlet for this many more waiting replies.
pub fn reserve_all<T: Drop>(outlets: &mut Vec<Outlet<T>>, more: usize) -> Result<(), AllocError>
    ensures same { EachGetsRoom outlets.old.items outlets.new.items }
    ensures room { OnOk result (EachHasRoom more outlets.new.items) }
{
    for i in 0..outlets.len() {
        let outlet = &mut outlets[i];
        outlet.reserve(more)?;
    }
    Ok(())
}
