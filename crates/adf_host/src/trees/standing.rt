//! What stands in the place of an item.
ghost use Rattle.std.specs.Prelude.{◌↔◌, IsOk};
ghost use Rattle.adf_host.specs.Writing.{MayStand};

use crate::trees::faults::WriteWhy;
use crate::trees::items::ItemKind;
use crate::{HeldDirectory, OwnedFile};
use std::alloc::Global;
use std::fs;
use std::io::{Error, ErrorKind};
use std::rt::Files;

/// What exists at a host path. Links are not followed.
#[derive(Clone, Copy)]
pub(crate) enum Standing {
    Nothing,
    Directory,
    File,
    Link,
    Other,
}

/// What exists under a name in a directory.
pub(crate) fn standing_at<R: Files>(
    rt: &R,
    alloc: Global,
    directory: &HeldDirectory<R::File>,
    name: &str,
) -> Result<Standing, Error>
where
    R::File: OwnedFile,
{
    let path = directory.path_of(alloc, name)?;
    match fs::symlink_metadata(rt, path.as_str()) {
        Ok(found) if found.is_symlink() => Ok(Standing::Link),
        Ok(found) if found.is_dir() => Ok(Standing::Directory),
        Ok(found) if found.is_file() => Ok(Standing::File),
        Ok(_) => Ok(Standing::Other),
        Err(error) if error.kind() == ErrorKind::NotFound => Ok(Standing::Nothing),
        Err(error) => Err(error),
    }
}

/// Whether an item may be written over this: nothing; a directory for a directory; with `force`, a regular file for a
/// file.
pub(crate) fn may_stand(standing: Standing, kind: ItemKind, force: bool) -> Result<(), WriteWhy>
    ensures { IsOk result ↔ MayStand standing kind force }
{
    match (standing, kind) {
        (Standing::Nothing, _) | (Standing::Directory, ItemKind::Directory) => Ok(()),
        (Standing::Link, _) => Err(WriteWhy::Link),
        (Standing::Directory, ItemKind::File) => Err(WriteWhy::Directory),
        (Standing::File, ItemKind::File) if force => Ok(()),
        (Standing::File, ItemKind::File) => Err(WriteWhy::Exists),
        (_, ItemKind::Directory) => Err(WriteWhy::NoDirectory),
        (Standing::Other, ItemKind::File) => Err(WriteWhy::NoFile),
    }
}
