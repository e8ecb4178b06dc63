//! Files and directories written below a directory of the host.
ghost use Rattle.std.specs.Prelude.{◌≤◌, length, IfErr};

use crate::trees::dates::host_time;
use crate::trees::faults::{ItemFault, WriteFault, WriteWhy};
use crate::trees::items::{Contents, HostItem, ItemKind, above, fault, refuse_items, top_of};
use crate::trees::order::depth_first;
use crate::trees::standing::{Standing, may_stand, standing_at};
use crate::trees::way::Way;
use crate::{HeldDirectory, LengthLimit, OwnedFile, PromptFiles, replace_found};
use std::alloc::Global;
use std::fs;
use std::fs::{File, FileTimes, OpenFile};
use std::io::{Error, ErrorKind, Write};
use std::time::SystemTime;

/// Writes these items below a directory, which is made if it does not exist. The directory of an item comes before the
/// item.
///
/// It refuses before anything is written: an existing file, except a regular one with `force`; a symbolic link at an
/// item's path or on the way to it; a file in place of a directory or the reverse; two items with one path; a path of
/// more than 4,095 bytes, with the directory in front; and a host without `/proc`. Files and new directories get their
/// time stamps. With `force`, what killed commands left in a directory is removed before anything is written there. The bytes of a file are asked for when it is written, and let go before those of the next.
///
/// Items are written depth first: a directory, then what is in it, in the order of the list. So no directory is opened again
/// and again, in whatever order they are listed.
///
/// The directory may be, or lead through, a link: it is opened once. Everything below it is reached from there by
/// directories that are open, and no link is followed, whatever another program puts there meanwhile.
pub fn write_tree<R: PromptFiles, C: Contents>(
    rt: &R,
    alloc: Global,
    directory: &str,
    items: &[HostItem],
    contents: &mut C,
    force: bool,
) -> Result<(), WriteFault>
where
    R::File: OwnedFile,
    ensures { IfErr result (λ fault. fault.written ≤ length items.now) }
{
    let limit = LengthLimit::of(rt);
    let writer = Writer {
        rt,
        alloc,
        force,
        limit,
    };
    let order = match depth_first(alloc, items) {
        Ok(order) => order,
        Err(error) => return Err(ItemFault::from(error).told(alloc, directory, items, 0)),
    };
    let mut way = match writer.begin(directory, items, &order) {
        Ok(way) => way,
        Err(fault) => return Err(fault.told(alloc, directory, items, 0)),
    };
    let mut made = Vec::new(alloc);
    for (written, place) in order.iter().enumerate() {
        if let Err(fault) = writer.write_item(&mut way, items, *place, contents, &mut made) {
            return Err(fault.told(alloc, directory, items, written));
        }
    }
    match writer.set_times(&mut way, items, made.as_slice()) {
        Ok(()) => Ok(()),
        Err(fault) => Err(fault.told(alloc, directory, items, items.len())),
    }
}

/// The host, and how files are written there.
#[derive(Drop)]
struct Writer<'a, R> {
    rt: &'a R,
    alloc: Global,
    /// Regular files are replaced.
    force: bool,
    limit: LengthLimit,
}

impl<R: PromptFiles> Writer<'_, R>
where
    R::File: OwnedFile,
{
    /// Checks all items, and opens the directory for them.
    fn begin(
        &self,
        directory: &str,
        items: &[HostItem],
        order: &[usize],
    ) -> Result<Way<R::File>, ItemFault> {
        refuse_items(self.alloc, directory, items)?;
        let path = top_of(directory);
        match self.open_top(path) {
            Ok(Some(top)) => {
                let mut way = Way::from_top(self.alloc, top, items)?;
                self.refuse_what_stands(&mut way, items, order)?;
                self.remove_leftovers(&mut way, items, None)?;
                Ok(way)
            }
            Ok(None) => match self.make_top(path) {
                Ok(top) => Ok(Way::from_top(self.alloc, top, items)?),
                Err(error) => Err(fault_of_top(error)),
            },
            Err(error) => Err(fault_of_top(error)),
        }
    }

    /// Opens the directory for all items, if there is one. Fails if the host has no paths for handles.
    fn open_top(&self, path: &str) -> Result<Option<HeldDirectory<R::File>>, Error> {
        match HeldDirectory::at(self.rt, self.alloc, path) {
            Ok(top) => Ok(Some(top)),
            Err(error) if error.kind() == ErrorKind::NotFound => {
                HeldDirectory::at(self.rt, self.alloc, "/")?;
                Ok(None)
            }
            Err(error) => Err(error),
        }
    }

    /// Makes the directory for all items, and opens it.
    fn make_top(&self, path: &str) -> Result<HeldDirectory<R::File>, Error> {
        fs::create_dir_all(self.rt, path)?;
        HeldDirectory::at(self.rt, self.alloc, path)
    }

    /// Refuses the items if something in the place of one must not be replaced.
    fn refuse_what_stands(
        &self,
        way: &mut Way<R::File>,
        items: &[HostItem],
        order: &[usize],
    ) -> Result<(), ItemFault> {
        let mut stands = vec![in self.alloc; false; items.len()]?;
        for place in order {
            let is_reached = match above(items, *place) {
                Some(above) => stands.get(above).copied().unwrap_or(false),
                None => true,
            };
            if is_reached && self.is_directory_there(way, items, *place)? {
                if let Some(is_there) = stands.get_mut(*place) {
                    *is_there = true;
                }
            }
        }
        Ok(())
    }

    /// Whether a directory stands in the place of an item. Refuses the item if what stands there must not be replaced.
    fn is_directory_there(
        &self,
        way: &mut Way<R::File>,
        items: &[HostItem],
        place: usize,
    ) -> Result<bool, ItemFault> {
        let Some(item) = items.get(place) else {
            return Ok(false);
        };
        let directory = way.reach(self.rt, self.alloc, items, item.above)?;
        let standing = match standing_at(self.rt, self.alloc, directory, item.name.as_str()) {
            Ok(standing) => standing,
            Err(error) => return Err(fault(place, WriteWhy::Host(error))),
        };
        match may_stand(standing, item.kind, self.force) {
            Ok(()) => Ok(matches!(standing, Standing::Directory)),
            Err(why) => Err(fault(place, why)),
        }
    }

    /// Writes the file of an item, or makes its directory unless it exists. A new one is added to those that were made.
    fn write_item<C: Contents>(
        &self,
        way: &mut Way<R::File>,
        items: &[HostItem],
        place: usize,
        contents: &mut C,
        made: &mut Vec<usize>,
    ) -> Result<(), ItemFault> {
        let Some(item) = items.get(place) else {
            return Ok(());
        };
        let directory = way.reach(self.rt, self.alloc, items, item.above)?;
        let name = item.name.as_str();
        let is_new_directory = match item.kind {
            ItemKind::Directory => self.make_directory(directory, name),
            ItemKind::File => {
                let path = directory.path_of(self.alloc, name)?;
                let bytes = contents.bytes_of(self.alloc, place)?;
                self.write_file(path.as_str(), bytes.as_slice(), host_time(item.date))
                    .map(|()| false)
            }
        };
        match is_new_directory {
            Ok(true) => {
                made.push(place)?;
                Ok(())
            }
            Ok(false) if item.kind == ItemKind::Directory => {
                self.remove_leftovers(way, items, Some(place))
            }
            Ok(false) => Ok(()),
            Err(why) => Err(fault(place, why)),
        }
    }

    /// Removes what commands of this user left in the directory of an item, or in the top, if files there are replaced.
    /// Nothing is written there yet, so what has the name of a leftover is no file of this list.
    fn remove_leftovers(
        &self,
        way: &mut Way<R::File>,
        items: &[HostItem],
        place: Option<usize>,
    ) -> Result<(), ItemFault> {
        if self.force {
            way.reach(self.rt, self.alloc, items, place)?
                .remove_leftovers(self.rt, self.alloc);
        }
        Ok(())
    }

    /// Makes a directory unless it exists, and returns whether it is new.
    fn make_directory(&self, above: &HeldDirectory<R::File>, name: &str) -> Result<bool, WriteWhy> {
        let path = above.path_of(self.alloc, name)?;
        match fs::create_dir(self.rt, path.as_str()) {
            Ok(()) => Ok(true),
            Err(error) => match standing_at(self.rt, self.alloc, above, name) {
                Ok(Standing::Directory) => Ok(false),
                _ => Err(WriteWhy::Host(error)),
            },
        }
    }

    /// Writes a new file, or replaces a regular one. A new file that cannot be written whole is removed.
    fn write_file(&self, path: &str, bytes: &[u8], time: SystemTime) -> Result<(), WriteWhy> {
        self.limit.refuse(bytes.len() as u64)?;
        match File::create_new(self.rt, path) {
            Ok(file) => {
                let done = fill_new(file, bytes, time);
                if done.is_err() {
                    let _ = fs::remove_file(self.rt, path);
                }
                done.map_err(WriteWhy::Host)
            }
            Err(error) if self.force && error.kind() == ErrorKind::AlreadyExists => {
                self.replace_regular(path, bytes, time)
            }
            Err(error) => Err(WriteWhy::Host(error)),
        }
    }

    /// Replaces a regular file whole. If a link has taken its place meanwhile, it is not followed.
    fn replace_regular(&self, path: &str, bytes: &[u8], time: SystemTime) -> Result<(), WriteWhy> {
        let found = fs::symlink_metadata(self.rt, path)?;
        if !found.is_file() {
            return Err(WriteWhy::NoFile);
        }
        replace_found(self.rt, self.alloc, path, &found, bytes, time).map_err(WriteWhy::Replace)
    }

    /// Sets the time stamps of new directories, the last one first, after everything in them was written.
    fn set_times(
        &self,
        way: &mut Way<R::File>,
        items: &[HostItem],
        made: &[usize],
    ) -> Result<(), ItemFault> {
        for place in made.iter().rev() {
            let directory = way.reach(self.rt, self.alloc, items, Some(*place))?;
            if let Some(item) = items.get(*place) {
                if let Err(error) = directory.set_modified(host_time(item.date)) {
                    return Err(fault(*place, WriteWhy::Host(error)));
                }
            }
        }
        Ok(())
    }
}

/// The fault of the directory for all items.
fn fault_of_top(error: Error) -> ItemFault {
    ItemFault {
        place: None,
        why: WriteWhy::Host(error),
    }
}

/// Writes the bytes of a new file, and sets its time stamp.
fn fill_new<F: Write + OpenFile + Drop>(
    mut file: F,
    bytes: &[u8],
    time: SystemTime,
) -> Result<(), Error> {
    file.write_all(bytes)?;
    file.set_times(FileTimes::new().set_modified(time))
}
