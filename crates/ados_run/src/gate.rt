//! Gates, which may stop a client.

/// A gate may stop a client before a packet. It is called before each packet and after each reply.
///
/// It is called on the client's thread.
pub trait Gate {
    /// Called once for each packet, by its number, before its first put. If it returns false, the packet is not put,
    /// and the client ends as if there were no room.
    fn before(&mut self, number: u64) -> bool;

    /// Called after the reply with this number was taken.
    fn after(&mut self, number: u64);
}

/// A gate that never stops a client.
#[derive(Clone, Copy, PartialEq, Eq)]
pub struct OpenGate;

impl Gate for OpenGate {
    fn before(&mut self, _number: u64) -> bool {
        true
    }

    fn after(&mut self, _number: u64) {}
}
