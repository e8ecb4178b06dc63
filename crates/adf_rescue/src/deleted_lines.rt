//! What is told of deleted entries.
ghost use Rattle.std.specs.Prelude.{◌≡◌, ◌++◌, IfOk, OnOk, Some, drop, map, option_map};
ghost use Rattle.std.specs.String.{string_bytes};
ghost use Rattle.adf_rescue.specs.DeletedObject.{user_of};
ghost use Rattle.adf_rescue.specs.Undelete.{deleted_line, deleted_text, label_in, label_of, path_of, recovery_words, seen_place, told_deleted, user_text};

use crate::chosen::{Chosen, position_of};
use crate::deleted_objects::push_object;
use crate::placing::{Placed, place_at};
use adf_text::{letter_text, push_plain};
use ados_salvage::Recovery;
use std::alloc::{AllocError, Global};

/// The entries of an image, by their headers.
#[derive(Clone, Copy)]
pub(crate) struct Labels<'a> {
    pub(crate) alloc: Global,
    /// For each block, the position of its entry.
    pub(crate) positions: &'a [Option<usize>],
    pub(crate) places: &'a [Placed],
}

impl Labels<'_> {
    /// A line for each of these entries, or with `json` an object on a line of its own.
    pub(crate) fn text(&self, chosen: &[Chosen], json: bool) -> Result<Vec<u8>, AllocError>
        ensures { IfOk result (λ text. text.items ≡ deleted_text json self.now.positions.now (map seen_place self.now.places.now) chosen.now) }
    {
        let mut text = Vec::new(self.alloc);
        for entry in chosen {
            self.push_told(&mut text, entry, json)?;
        }
        Ok(text)
    }

    /// Appends what is told of an entry.
    fn push_told(&self, text: &mut Vec<u8>, entry: &Chosen, json: bool) -> Result<(), AllocError>
        ensures { OnOk result (text.new.items ≡ text.old.items ++ told_deleted json self.now.positions.now (map seen_place self.now.places.now) entry.now) }
    {
        if !json {
            return self.push_line(text, entry);
        }
        push_object(
            self.alloc,
            text,
            self.path_of(entry.deleted.header),
            entry.deleted,
        )
    }

    /// Appends the line of an entry.
    fn push_line(&self, text: &mut Vec<u8>, entry: &Chosen) -> Result<(), AllocError>
        ensures { OnOk result (text.new.items ≡ text.old.items ++ deleted_line (label_in self.now.positions.now (map seen_place self.now.places.now)) entry.now) }
    {
        let words = recovery_words(self.alloc, entry.deleted.recovery)?;
        self.push_label(text, entry.deleted.header)?;
        text.extend_from_slice(words.as_bytes())?;
        self.push_user(text, user_of(entry.deleted.recovery))?;
        text.push(b'\n')?;
        Ok(())
    }

    /// Appends the path of an entry, or its block if it has no path.
    fn push_label(&self, text: &mut Vec<u8>, header: u32) -> Result<(), AllocError>
        ensures { OnOk result (text.new.items ≡ text.old.items ++ label_in self.now.positions.now (map seen_place self.now.places.now) header) }
    {
        match self.path_of(header) {
            Some(path) => push_path(self.alloc, text, path),
            None => {
                let label = format!(in self.alloc; "the entry at block {header}")?;
                text.extend_from_slice(label.as_bytes())
            }
        }
    }

    /// The path of an entry.
    fn path_of(&self, header: u32) -> Option<&[u8]>
        ensures { option_map (λ path. path.now) result ≡ path_of self.now.positions.now (map seen_place self.now.places.now) header }
    {
        let position = position_of(self.positions, header)?;
        place_at(self.places, position)?.path()
    }

    /// Appends the entry that has blocks of another one now, if one is known.
    fn push_user(&self, text: &mut Vec<u8>, user: Option<u32>) -> Result<(), AllocError>
        ensures { OnOk result (text.new.items ≡ text.old.items ++ user_text (label_in self.now.positions.now (map seen_place self.now.places.now)) user) }
    {
        let Some(header) = user else {
            return Ok(());
        };
        text.extend_from_slice(b" by ")?;
        self.push_label(text, header)
    }
}

/// Appends a path without its first slash, with escapes for control characters.
fn push_path(alloc: Global, text: &mut Vec<u8>, path: &[u8]) -> Result<(), AllocError>
    ensures { OnOk result (text.new.items ≡ text.old.items ++ label_of (Some path.now) 0) }
{
    let shown = letter_text(alloc, behind_slash(path))?;
    push_plain(text, shown.as_str())
}

/// A path without its first slash.
pub(crate) fn behind_slash(path: &[u8]) -> &[u8]
    ensures { result.now ≡ drop 1 path.now }
{
    match path.split_first() {
        Some((_, rest)) => rest,
        None => path,
    }
}

/// How much of an entry can be recovered.
fn recovery_words(alloc: Global, recovery: Recovery) -> Result<String, AllocError>
    ensures { IfOk result (λ text. string_bytes text ≡ recovery_words recovery) }
{
    match recovery {
        Recovery::Directory => String::from_str(alloc, "/: a directory"),
        Recovery::Free { all } => format!(in alloc; ": all {all} blocks are free"),
        Recovery::Used { used, all, .. } => format!(in alloc; ": {used} of {all} blocks are used"),
        Recovery::Shared { shared, all } => {
            format!(in alloc; ": {shared} of {all} are in another deleted file")
        }
        Recovery::NotIntact => String::from_str(alloc, ": the blocks are damaged"),
    }
}

/// The header of an entry that has some of its blocks now, where one is known.
pub(crate) fn user_of(recovery: Recovery) -> Option<u32>
    ensures { result ≡ user_of recovery }
{
    match recovery {
        Recovery::Used { by, .. } => by,
        _ => None,
    }
}
