//! The action of a packet, and its number.
ghost use Rattle.std.specs.Prelude.{◌≡◌};
ghost use Rattle.ados_model.specs.Packet.{action_of};
ghost use Rattle.ados_model.specs.Actions.{action_number, kind_of};

use crate::packet::Packet;

/// An action, under its name in the AmigaDOS Technical Reference.
#[derive(Clone, Copy, PartialEq, Eq)]
pub enum Action {
    Die,
    LocateObject,
    RenameDisk,
    FreeLock,
    DeleteObject,
    RenameObject,
    CopyDir,
    SetProtect,
    CreateDir,
    ExamineObject,
    ExamineNext,
    DiskInfo,
    Info,
    SetComment,
    Parent,
    SetDate,
    SameLock,
    Read,
    Write,
    FindUpdate,
    FindInput,
    FindOutput,
    End,
    Seek,
    SetFileSize,
    /// An action without a name here, by its number.
    Other(i32),
}

impl Action {
    /// The number of the action.
    pub fn number(self) -> i32
        ensures { result ≡ action_number self }
    {
        match self {
            Action::Die => 5,
            Action::LocateObject => 8,
            Action::RenameDisk => 9,
            Action::FreeLock => 15,
            Action::DeleteObject => 16,
            Action::RenameObject => 17,
            Action::CopyDir => 19,
            Action::SetProtect => 21,
            Action::CreateDir => 22,
            Action::ExamineObject => 23,
            Action::ExamineNext => 24,
            Action::DiskInfo => 25,
            Action::Info => 26,
            Action::SetComment => 28,
            Action::Parent => 29,
            Action::SetDate => 34,
            Action::SameLock => 40,
            Action::Read => 82,
            Action::Write => 87,
            Action::FindUpdate => 1004,
            Action::FindInput => 1005,
            Action::FindOutput => 1006,
            Action::End => 1007,
            Action::Seek => 1008,
            Action::SetFileSize => 1022,
            Action::Other(number) => number,
        }
    }
}

impl Packet {
    /// The action of the packet.
    pub fn kind(&self) -> Action
        ensures kind { result ≡ kind_of self.now }
        ensures number { action_number result ≡ action_of self.now }
    {
        match self {
            Packet::Die => Action::Die,
            Packet::LocateObject { .. } => Action::LocateObject,
            Packet::RenameDisk { .. } => Action::RenameDisk,
            Packet::FreeLock { .. } => Action::FreeLock,
            Packet::DeleteObject { .. } => Action::DeleteObject,
            Packet::RenameObject { .. } => Action::RenameObject,
            Packet::CopyDir { .. } => Action::CopyDir,
            Packet::SetProtect { .. } => Action::SetProtect,
            Packet::CreateDir { .. } => Action::CreateDir,
            Packet::ExamineObject { .. } => Action::ExamineObject,
            Packet::ExamineNext { .. } => Action::ExamineNext,
            Packet::DiskInfo => Action::DiskInfo,
            Packet::Info { .. } => Action::Info,
            Packet::SetComment { .. } => Action::SetComment,
            Packet::Parent { .. } => Action::Parent,
            Packet::SetDate { .. } => Action::SetDate,
            Packet::SameLock { .. } => Action::SameLock,
            Packet::Read { .. } => Action::Read,
            Packet::Write { .. } => Action::Write,
            Packet::FindUpdate { .. } => Action::FindUpdate,
            Packet::FindInput { .. } => Action::FindInput,
            Packet::FindOutput { .. } => Action::FindOutput,
            Packet::End { .. } => Action::End,
            Packet::Seek { .. } => Action::Seek,
            Packet::SetFileSize { .. } => Action::SetFileSize,
            Packet::Other { action } => Action::Other(*action),
        }
    }

    /// The number of the packet's action (AmigaDOS Technical Reference).
    pub fn action(&self) -> i32
        ensures { result ≡ action_of self.now }
    {
        self.kind().number()
    }
}
