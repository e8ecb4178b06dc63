//! The packets with texts.

ghost use Rattle.std.specs.Prelude.{◌≡◌, ℕ, List, IfOk};
ghost use Rattle.ados_name.specs.Path.{IsPathText};
ghost use Rattle.adf_c.specs.Spelling.{packet_of};
ghost use Rattle.adf_c.specs.steps.Texts.{HasText, HasTwoTexts};

use crate::packet::JipPacket;
use ados_model::{Action, Packet, Text};
use ados_name::PathText;
use std::alloc::{AllocError, Global};

/// A text that fits into a packet, if there is memory for it.
pub(crate) fn copied(alloc: Global, text: &[u8]) -> Result<Text, AllocError>
    requires { IsPathText text.now }
    ensures { IfOk result (λ made. made ≡ text.now) }
{
    let Ok(text) = PathText::new(text) else {
        unreachable!()
    };
    Text::new(alloc, text)
}

impl JipPacket {
    /// The packet of an action with one text: a path, or the new name of RENAME_DISK.
    #[rattlefmt::skip]
    pub(crate) fn with_text(&self, action: Action, path: Text) -> Packet
        requires { HasText action }
        ensures { (text buffer : List ℕ) → result ≡ packet_of action self.now path text buffer }
    {
        let lock = self.lock;
        match action {
            Action::LocateObject => Packet::LocateObject { lock, path, mode: self.mode },
            Action::RenameDisk => Packet::RenameDisk { name: path },
            Action::DeleteObject => Packet::DeleteObject { lock, path },
            Action::SetProtect => Packet::SetProtect { lock, path, bits: self.bits },
            Action::CreateDir => Packet::CreateDir { lock, path },
            Action::SetDate => Packet::SetDate { lock, path, date: self.date.date() },
            Action::FindUpdate => Packet::FindUpdate { lock, path },
            Action::FindInput => Packet::FindInput { lock, path },
            Action::FindOutput => Packet::FindOutput { lock, path },
            _ => unreachable!(),
        }
    }

    /// The packet of an action with two texts.
    #[rattlefmt::skip]
    pub(crate) fn with_texts(&self, action: Action, path: Text, text: Text) -> Packet
        requires { HasTwoTexts action }
        ensures { (buffer : List ℕ) → result ≡ packet_of action self.now path text buffer }
    {
        let (lock, to_lock) = (self.lock, self.to_lock);
        match action {
            Action::RenameObject => Packet::RenameObject { from_lock: lock, from: path, to_lock, to: text },
            Action::SetComment => Packet::SetComment { lock, path, comment: text },
            _ => unreachable!(),
        }
    }
}
