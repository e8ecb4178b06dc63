//! The entries of a salvage, put into a new volume.
ghost use Rattle.std.specs.Prelude.{OnOk};
ghost use Rattle.adf_import.specs.Progress.{Advances, IsReady};

use crate::host_files::without_note;
use crate::new_file::{NewFile, put_file};
use crate::progress::Progress;
use crate::put::enter_directory;
use crate::saved_names::comment_for;
use crate::saved_plan::SavedItem;
use crate::spots::is_directory;
use adf_text::Uaem;
use ados_name::{Comment, Date3, Name};
use ados_salvage::Salvage;
use ados_volume::Volume;
use std::alloc::{AllocError, Global};

/// What is put into a new volume, and with which time stamp.
#[derive(Drop)]
struct Filling<'a> {
    alloc: Global,
    salvage: &'a Salvage,
    moment: Date3,
}

/// Puts items of a salvage into a volume, as far as there is room and no other item has the name. Metadata of directories is set
/// last, because each entry put into a directory sets its date.
pub(crate) fn fill(
    alloc: Global,
    volume: &mut Volume,
    salvage: &Salvage,
    items: &[SavedItem],
    moment: Date3,
) -> Result<(), AllocError> {
    let filling = Filling {
        alloc,
        salvage,
        moment,
    };
    let top = volume.root();
    let mut progress = Progress::new(alloc, volume.image().blocks())?;
    let mut there = Vec::with_capacity(alloc, items.len())?;
    for item in items {
        let is_gone = is_gone(&there, item.above);
        let dir = progress.directory(item.above, top);
        let is_there = filling.put_or_leave(volume, dir, item, is_gone, &mut progress)?;
        there.push(is_there)?;
    }
    progress.note_directories(volume, moment);
    Ok(())
}

/// Whether the directory at a position is not there.
fn is_gone(there: &[bool], above: Option<usize>) -> bool {
    match above.and_then(|place| there.get(place).copied()) {
        Some(is_there) => !is_there,
        None => false,
    }
}

impl Filling<'_> {
    /// Puts an item into a directory, unless the directory that it should be in is gone. Returns whether it is there: a new file, or a
    /// directory with its name.
    fn put_or_leave(
        &self,
        volume: &mut Volume,
        dir: u32,
        item: &SavedItem,
        is_gone: bool,
        progress: &mut Progress,
    ) -> Result<bool, AllocError>
        requires { IsReady volume.old.image dir progress.old }
        ensures { OnOk result (Advances volume.old.image volume.new.image progress.new) }
    {
        if is_gone {
            progress.push(dir, dir)?;
            return Ok(false);
        }
        match item.spot.entry {
            Some(place) if self.is_file(place) => self.put_as_file(
                volume, dir, item, place, progress,
            ),
            _ => self.put_as_directory(volume, dir, item, progress),
        }
    }

    /// Whether the entry at a position is a file.
    fn is_file(&self, place: usize) -> bool {
        match self.salvage.entries().get(place) {
            Some(entry) => !is_directory(entry.state),
            None => false,
        }
    }

    /// Puts a new file with the bytes of the entry at a position.
    fn put_as_file(
        &self,
        volume: &mut Volume,
        dir: u32,
        item: &SavedItem,
        place: usize,
        progress: &mut Progress,
    ) -> Result<bool, AllocError>
        requires { IsReady volume.old.image dir progress.old }
        ensures { OnOk result (Advances volume.old.image volume.new.image progress.new) }
    {
        let bytes = self.bytes_of(place)?;
        let noted = self.note_of(Some(place))?;
        let file = NewFile {
            bytes: &bytes,
            date: noted.date,
            protection: noted.protect,
            comment: noted.comment,
        };
        self.put_new(volume, dir, item.name, &file, progress)
    }

    /// Puts a new file.
    fn put_new(
        &self,
        volume: &mut Volume,
        dir: u32,
        name: Name,
        file: &NewFile<'_>,
        progress: &mut Progress,
    ) -> Result<bool, AllocError>
        requires { IsReady volume.old.image dir progress.old }
        ensures { OnOk result (Advances volume.old.image volume.new.image progress.new) }
    {
        match put_file(volume, dir, name, file, false, self.moment) {
            Ok(key) => {
                progress.push(key, dir)?;
                Ok(true)
            }
            Err(_) => {
                progress.push(dir, dir)?;
                Ok(false)
            }
        }
    }

    /// Makes a directory. One that has the name already gets what is in both.
    fn put_as_directory(
        &self,
        volume: &mut Volume,
        dir: u32,
        item: &SavedItem,
        progress: &mut Progress,
    ) -> Result<bool, AllocError>
        requires { IsReady volume.old.image dir progress.old }
        ensures { OnOk result (Advances volume.old.image volume.new.image progress.new) }
    {
        let noted = self.note_of(item.spot.entry)?;
        match enter_directory(volume, dir, item.name, false, self.moment) {
            Ok(entered) => {
                if entered.is_new {
                    progress.push_made(entered.key, noted)?;
                    return Ok(true);
                }
                progress.push(entered.key, entered.key)?;
                Ok(true)
            }
            Err(_) => {
                progress.push(dir, dir)?;
                Ok(false)
            }
        }
    }

    /// The bytes that were saved of the entry at a position.
    fn bytes_of(&self, place: usize) -> Result<Vec<u8>, AllocError> {
        if place >= self.salvage.entries().len() {
            return Ok(Vec::new(self.alloc));
        }
        self.salvage.bytes_of(self.alloc, place)
    }

    /// The metadata in the new volume of the entry at a position. `Damaged` and `lost+found` have a date alone.
    fn note_of(&self, place: Option<usize>) -> Result<Uaem, AllocError> {
        match place.and_then(|place| self.salvage.entries().get(place)) {
            Some(entry) => {
                let comment = comment_for(self.alloc, entry.state, entry.comment.bytes())?;
                Ok(Uaem {
                    protect: entry.protection,
                    date: entry.date,
                    comment: Comment::new(&comment).unwrap_or(entry.comment),
                })
            }
            None => Ok(without_note(self.moment)),
        }
    }
}
