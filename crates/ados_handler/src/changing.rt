//! Whether a packet would change the disk. The answer changes nothing.

ghost use Rattle.std.specs.Prelude.{◌≡◌};
ghost use Rattle.ados_model.specs.Tree.{Tree};
ghost use Rattle.ados_model.specs.Stands.{Stands};
ghost use Rattle.ados_model.specs.Keys.{HasKey, HasTree};
ghost use Rattle.ados_model.specs.Refusals.{is_name as is_name_text};
ghost use Rattle.ados_model.specs.Phrases.{is_comment as is_comment_text};
ghost use Rattle.ados_handler.specs.Writes.{would_write};
ghost use Rattle.ados_handler.specs.steps.Allowed.{can_empty, can_make, can_move, can_output, can_resize, can_write, leads_to_entry, removes};

use crate::handler::Handler;
use crate::set_size::LARGEST;
use crate::target::{number_within, target_of};
use ados_model::Packet;
use ados_name::{Comment, Name, PathText};

impl Handler {
    /// Whether the packet would set the disk date if the volume had room and memory for it: its success sets the disk
    /// date, and no refusal but 221 (disk is full) or 103 (out of memory) holds. Nothing changes.
    pub fn would_write(&mut self, packet: &Packet) -> bool
        ensures tree { HasTree self.old.image }
        ensures writes { (t : Tree) → Stands self.old.image t → result ≡ would_write t self.old.session packet.now }
        ensures same { self.new ≡ self.old }
    {
        if self.died {
            return false;
        }
        match packet {
            Packet::RenameDisk { name } => is_name(name.path()),
            Packet::DeleteObject { lock, path } => self.removes(*lock, path.path()),
            Packet::RenameObject {
                from_lock,
                from,
                to_lock,
                to,
            } => self.can_move(*from_lock, from.path(), *to_lock, to.path()),
            Packet::SetProtect { lock, path, .. } => self.leads_to_entry(*lock, path.path()),
            Packet::SetDate { lock, path, .. } => self.leads_to_entry(*lock, path.path()),
            Packet::SetComment {
                lock,
                path,
                comment,
            } => is_comment(comment.path()) && self.leads_to_entry(*lock, path.path()),
            Packet::CreateDir { lock, path } => self.can_make(*lock, path.path()),
            Packet::FindUpdate { lock, path } => self.can_make(*lock, path.path()),
            Packet::FindOutput { lock, path } => self.can_output(*lock, path.path()),
            Packet::Write { handle, bytes } => {
                !bytes.bytes().is_empty() && self.can_write(*handle)
            }
            Packet::SetFileSize {
                handle,
                offset,
                mode,
            } => self.can_resize(*handle, offset, mode),
            _ => false,
        }
    }

    /// Whether the path leads to an object other than the root.
    fn leads_to_entry(&mut self, lock: u32, path: &PathText) -> bool
        ensures entry { (t : Tree) → Stands self.old.image t → result ≡ leads_to_entry t self.old.session lock path.now }
        ensures same { self.new ≡ self.old }
    {
        match self.walked(lock, path) {
            Ok(key) => key != self.volume.root(),
            Err(_) => false,
        }
    }

    /// Whether the path leads to an object that can be deleted.
    fn removes(&mut self, lock: u32, path: &PathText) -> bool
        ensures removes { (t : Tree) → Stands self.old.image t → result ≡ removes t self.old.session lock path.now }
        ensures same { self.new ≡ self.old }
    {
        match self.walked(lock, path) {
            Ok(key) => self.remove_refusal(key).is_none(),
            Err(_) => false,
        }
    }

    /// Whether the object of one path can move to the place of the other.
    fn can_move(&mut self, from_lock: u32, from: &PathText, to_lock: u32, to: &PathText) -> bool
        ensures moves { (t : Tree) → Stands self.old.image t → result ≡ can_move t self.old.session from_lock from.now to_lock to.now }
        ensures same { self.new ≡ self.old }
    {
        match self.source_and_place(from_lock, from, to_lock, to) {
            Ok((key, (dir, name))) => self.move_refusal(key, dir, &name).is_none(),
            Err(_) => false,
        }
    }

    /// Whether the path is a place without an entry.
    fn can_make(&mut self, lock: u32, path: &PathText) -> bool
        ensures makes { (t : Tree) → Stands self.old.image t → result ≡ can_make t self.old.session lock path.now }
        ensures same { self.new ≡ self.old }
    {
        match self.placed(lock, path) {
            Ok((dir, name)) => self.volume.child(dir, &name).is_none(),
            Err(_) => false,
        }
    }

    /// Whether the path is a place without an entry, or with a file that can be emptied.
    fn can_output(&mut self, lock: u32, path: &PathText) -> bool
        ensures outputs { (t : Tree) → Stands self.old.image t → result ≡ can_output t self.old.session lock path.now }
        ensures same { self.new ≡ self.old }
    {
        let (dir, name) = match self.placed(lock, path) {
            Ok(found) => found,
            Err(_) => return false,
        };
        match self.volume.child(dir, &name) {
            Some(key) => self.can_empty(key),
            None => true,
        }
    }

    /// Whether the object is a file without holds, and not protected from deletion or writing.
    fn can_empty(&self, key: u32) -> bool
        requires { HasKey self.now.image key }
        ensures { (t : Tree) → Stands self.now.image t → result ≡ can_empty t self.now.session key }
    {
        if !self.volume.is_file(key) || self.is_in_use(key, true) {
            return false;
        }
        let protection = self.file_protection(key);
        !protection.denies_delete() && !protection.denies_write()
    }

    /// Whether the handle is on a file that is not protected from writing.
    fn can_write(&self, handle: u32) -> bool
        ensures { (t : Tree) → Stands self.now.image t → result ≡ can_write t self.now.session handle }
    {
        match self.hold_of(handle) {
            Some(hold) => !self.file_protection(hold.key).denies_write(),
            None => false,
        }
    }

    /// Whether the handle is on a file that is not protected from writing, and the target is another size.
    fn can_resize(&self, handle: u32, offset: &i32, mode: &i32) -> bool
        ensures { (t : Tree) → Stands self.now.image t → result ≡ can_resize t self.now.session handle offset.now mode.now }
    {
        let Some(hold) = self.hold_of(handle) else {
            return false;
        };
        if self.file_protection(hold.key).denies_write() {
            return false;
        }
        let held = self.file_size(hold.key);
        match number_within(target_of(hold.position, held, *offset, *mode), LARGEST) {
            Some(size) => size != held,
            None => false,
        }
    }
}

/// Whether the text is a name.
fn is_name(text: &PathText) -> bool
    ensures { result ≡ is_name_text text.now }
{
    match Name::new(text.bytes()) {
        Ok(_) => true,
        Err(_) => false,
    }
}

/// Whether the text is short enough for a comment.
fn is_comment(text: &PathText) -> bool
    ensures { result ≡ is_comment_text text.now }
{
    text.bytes().len() <= Comment::MAX_LEN
}
