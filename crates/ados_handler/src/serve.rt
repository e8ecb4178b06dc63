//! The handler as a server of packets.

ghost use Rattle.std.specs.Prelude.{◌≡◌, ℤ};
ghost use Rattle.ados_name.specs.declared.stamp.Date3.{Date3 as Moment};
ghost use Rattle.ados_model.specs.declared.packet.Packet.TheVariants.{Die, Other};
ghost use Rattle.ados_handler.specs.Gives.{HandlerGives};
ghost use Rattle.ados_handler.specs.steps.Methods.{MethodGives};
ghost use Rattle.ados_handler.specs.steps.Places.{MethodRoom};

use crate::handler::Handler;
use ados_model::{Action, Answer, Body, DosError, Packet, Results};
use ados_name::Date3;
use ados_port::Server;

impl Handler {
    /// DIE. It is refused while any lock or handle is held.
    pub(crate) fn die(&mut self) -> Results
        ensures gives { (now : Moment) → MethodGives self.old Die now self.new result }
        ensures places { self.new.places ≡ self.old.places }
    {
        if self.died {
            return Results::refused(DosError::DeviceNotMounted);
        }
        if !self.locks.is_empty() || !self.handles.is_empty() {
            return Results::refused(DosError::ObjectInUse);
        }
        self.died = true;
        Results::done(Body::Empty)
    }

    /// A packet with an unknown action.
    pub(crate) fn unknown(&self) -> Results
        ensures { (action : ℤ) (now : Moment) → MethodGives self.now (Other action) now self.now result }
    {
        if self.died {
            return Results::refused(DosError::DeviceNotMounted);
        }
        Results::refused(DosError::ActionNotKnown)
    }

    /// Serves a packet with a time stamp, and answers it.
    pub fn serve(&mut self, packet: Packet, now: Date3) -> Answer
        ensures { HandlerGives self.old packet now self.new result }
    {
        let action = packet.action();
        self.results_of(packet, now).to(action)
    }

    /// Serves a packet by its method.
    #[rattlefmt::skip]
    fn results_of(&mut self, packet: Packet, now: Date3) -> Results
        ensures gives { MethodGives self.old packet now self.new result }
        ensures room { MethodRoom self.old.places self.new.places result packet }
    {
        match packet {
            Packet::Die => self.die(),
            Packet::LocateObject { lock, path, mode } => self.locate_object(lock, path.path(), mode),
            Packet::RenameDisk { name } => self.rename_disk(name.path(), now),
            Packet::FreeLock { lock } => self.free_lock(lock),
            Packet::DeleteObject { lock, path } => self.delete_object(lock, path.path(), now),
            Packet::RenameObject { from_lock, from, to_lock, to } => {
                self.rename_object(from_lock, from.path(), to_lock, to.path(), now)
            }
            Packet::CopyDir { lock } => self.copy_dir(lock),
            Packet::SetProtect { lock, path, bits } => self.set_protect(lock, path.path(), bits, now),
            Packet::CreateDir { lock, path } => self.create_dir(lock, path.path(), now),
            Packet::ExamineObject { lock } => self.examine_object(lock),
            Packet::ExamineNext { lock, key } => self.examine_next(lock, key),
            Packet::DiskInfo => self.disk_info(),
            Packet::Info { lock } => self.info(lock),
            Packet::SetComment { lock, path, comment } => self.set_comment(lock, path.path(), comment.path(), now),
            Packet::Parent { lock } => self.parent(lock),
            Packet::SetDate { lock, path, date } => self.set_date(lock, path.path(), date, now),
            Packet::SameLock { first, second } => self.same_lock(first, second),
            Packet::Read { handle, buffer } => self.read(handle, buffer),
            Packet::Write { handle, bytes } => self.write(handle, bytes, now),
            Packet::FindUpdate { lock, path } => self.find_update(lock, path.path(), now),
            Packet::FindInput { lock, path } => self.find_input(lock, path.path()),
            Packet::FindOutput { lock, path } => self.find_output(lock, path.path(), now),
            Packet::End { handle } => self.end_handle(handle),
            Packet::Seek { handle, offset, mode } => self.seek(handle, offset, mode),
            Packet::SetFileSize { handle, offset, mode } => self.set_file_size(handle, offset, mode, now),
            Packet::Other { .. } => self.unknown(),
        }
    }
}

impl Server for Handler {
    ghost use Rattle.ados_handler.specs.Gives.{HandlerGives};
    ghost use Rattle.ados_model.specs.Meaning.{is_closing};
    ghost use Rattle.ados_handler.specs.steps.Closes.{serves_dead, serves_closing};

    type Request = Packet;

    type Reply = Answer;

    type Moment = Date3;

    ghost gives = { HandlerGives };

    ghost has_died = { λ handler. handler.session.died };

    ghost is_closing = { is_closing };

    fn serve(&mut self, packet: Packet, now: Date3) -> Answer {
        Handler::serve(self, packet, now)
    }

    fn died(&self) -> bool {
        self.died
    }

    fn closes(reply: &Answer) -> bool {
        reply.res2 == DosError::DeviceNotMounted.number()
            || (reply.action == Action::Die.number() && reply.res1 == -1)
    }

    ghost stays_dead = { λ old new packet now answer given dead. serves_dead old new packet now answer given dead };

    ghost closes_dead = { λ old new packet now answer given closing. serves_closing old new packet now answer given closing };
}
