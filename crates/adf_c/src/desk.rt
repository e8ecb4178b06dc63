//! The handler of a handle, with a count of changes.

ghost use Rattle.std.specs.Prelude.{◌≡◌};
ghost use Rattle.adf_c.specs.Desk.{ServesPacket, may_change as changes};

use crate::read_only::serve_read_only;
use ados_handler::Handler;
use ados_model::{Answer, Packet};
use ados_name::Date3;

/// A handler, with a count that grows when its image changes.
#[derive(Drop)]
pub struct Desk {
    pub handler: Handler,
    /// Grows by one with each packet that may have changed the image. It starts again at 0 after 2^64 - 1.
    pub changes: u64,
    /// Whether the image may never change.
    pub read_only: bool,
}

impl Desk {
    /// Serves a packet with a time stamp, and counts it if it may have changed the image. A read-only desk refuses what
    /// would change the image.
    pub(crate) fn serve(&mut self, packet: Packet, moment: Date3) -> Answer
        ensures { ServesPacket self.old packet moment self.new result }
    {
        if self.read_only {
            return serve_read_only(&mut self.handler, packet, moment);
        }
        let counts = may_change(&packet);
        let answer = self.handler.serve(packet, moment);
        if counts && answer.res2 == 0 {
            self.changes = self.changes.wrapping_add(1);
        }
        answer
    }
}

/// Whether the packet, if served, may change the image.
fn may_change(packet: &Packet) -> bool
    ensures { result ≡ changes packet.now }
{
    matches!(
        packet,
        Packet::RenameDisk { .. }
            | Packet::DeleteObject { .. }
            | Packet::RenameObject { .. }
            | Packet::SetProtect { .. }
            | Packet::CreateDir { .. }
            | Packet::SetComment { .. }
            | Packet::SetDate { .. }
            | Packet::Write { .. }
            | Packet::FindUpdate { .. }
            | Packet::FindOutput { .. }
            | Packet::SetFileSize { .. }
    )
}
