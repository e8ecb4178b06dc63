//! Directories that are made with those on the way to them.

ghost use Rattle.std.specs.Prelude.{◌≡◌, ◌+◌, ◌<◌, IfOk, IfSome, length, slice_index, take};
ghost use Rattle.adf_import.specs.Commands.{Makes, MakesMissing, MakesWay, without_answer};
ghost use Rattle.adf_import.specs.Turns.{EndsOneByOne};
ghost use Rattle.adf_import.specs.Ways.{fronts};
ghost use Rattle.adf_import.specs.steps.Reached.{IsBegin, IsFound, IsReached};

use crate::entries::make_directory;
use crate::paths::{directory_at, object_at};
use ados_model::DosError;
use ados_name::{Date3, Name, split_last};
use ados_volume::{Volume, place};

/// Makes a directory.
///
/// Errors: those of a place (204, 205, 210, 212), 203 and 221.
pub(crate) fn make_one(volume: &mut Volume, path: &[u8], moment: Date3) -> Result<(), DosError>
    ensures { Makes moment path.now volume.old volume.new result }
{
    let (dir, name) = place(volume, path)?;
    match make_directory(volume, dir, name, moment) {
        Ok(_) => Ok(()),
        Err(error) => Err(error),
    }
}

/// Makes each missing directory on the way to a path, and the one at the path. Existing ones stay as they are.
///
/// Errors: those of [`make_one`]: 212 for a file on the way, 203 for a file at the path.
pub(crate) fn make_way(volume: &mut Volume, path: &[u8], moment: Date3) -> Result<(), DosError>
    ensures { MakesWay moment path.now volume.old volume.new result }
{
    make_fronts(volume, path, moment)?;
    match directory_at(volume, path) {
        Ok(_) => Ok(()),
        Err(_) => make_one(volume, path, moment),
    }
}

/// Makes each missing directory on the way to a path.
fn make_fronts(volume: &mut Volume, path: &[u8], moment: Date3) -> Result<(), DosError>
    ensures { EndsOneByOne (MakesMissing moment) (fronts path.now) volume.old volume.new result }
{
    let begin = begin_of(path);
    let root = volume.root();
    let mut known = Some(Reached {
        len: begin,
        key: root,
    });
    for at in begin..path.len() {
        if path[at] == b'/' {
            match make_front(volume, known, path, at, moment) {
                Ok(next) => known = next,
                Err(error) => return Err(error),
            }
            prove!(volume.image().blocks() >= 16);
        }
    }
    Ok(())
}

/// Where the steps of a path begin: after the volume's name, or at the first byte.
fn begin_of(path: &[u8]) -> usize
    ensures { IsBegin path.now result }
{
    for at in 0..path.len() {
        if path[at] == b':' {
            return at + 1;
        }
    }
    0
}

/// Makes the directory whose path ends before this `/`, if there is no object at its path. It returns the object to
/// which the path with the `/` leads, if that is known.
fn make_front(
    volume: &mut Volume,
    known: Option<Reached>,
    path: &[u8],
    at: usize,
    moment: Date3,
) -> Result<Option<Reached>, DosError>
    requires at { at < length path.now }
    requires slash { slice_index path.now at ≡ 47 }
    requires known { IfSome known (IsReached volume.old.image path.now at) }
    ensures made { MakesMissing moment (take at path.now) volume.old volume.new (without_answer result) }
    ensures next { IfOk result (λ next. IfSome next (IsReached volume.new.image path.now (at + 1))) }
{
    prove!(volume.image().blocks() >= 16);
    match look_up(volume, known, path, at) {
        Found::There(next) => Ok(Some(next)),
        Found::Missing(dir, name) => match make_directory(volume, dir, name, moment) {
            Ok(key) => Ok(Some(Reached { len: at + 1, key })),
            Err(error) => Err(error),
        },
        Found::Unknown => match make_missing(volume, &path[..at], moment) {
            Ok(()) => Ok(None),
            Err(error) => Err(error),
        },
    }
}

/// A part of a path, and the object to which its steps lead from the root.
#[derive(Clone, Copy)]
struct Reached {
    /// The number of bytes of the part. It ends after the volume's name or a `/`.
    len: usize,
    key: u32,
}

/// What is known of the path that ends before a `/`.
#[derive(Clone, Copy)]
enum Found {
    /// It leads to an object. The path with the `/` leads to this one.
    There(Reached),
    /// It leads to no object, but its last name would be new in this directory.
    Missing(u32, Name),
    Unknown,
}

/// Goes on from a known part of a path to the `/` at a byte.
fn look_up(volume: &mut Volume, known: Option<Reached>, path: &[u8], at: usize) -> Found
    requires at { at < length path.now }
    requires slash { slice_index path.now at ≡ 47 }
    requires known { IfSome known (IsReached volume.old.image path.now at) }
    ensures found { IsFound volume.old.image path.now at result }
    ensures same { volume.new ≡ volume.old }
{
    let Some(from) = known else {
        return Found::Unknown;
    };
    let (before, last) = split_last(&path[..at]);
    if before.len() != from.len {
        return Found::Unknown;
    }
    if last.is_empty() {
        return match volume.parent(from.key) {
            Some(key) => Found::There(Reached { len: at + 1, key }),
            None => Found::Unknown,
        };
    }
    if volume.is_file(from.key) {
        return Found::Unknown;
    }
    let Ok(name) = Name::new(last) else {
        return Found::Unknown;
    };
    match volume.child(from.key, &name) {
        Some(key) => Found::There(Reached { len: at + 1, key }),
        None => Found::Missing(from.key, name),
    }
}

/// Makes a directory if there is no object at its path.
fn make_missing(volume: &mut Volume, path: &[u8], moment: Date3) -> Result<(), DosError>
    ensures { MakesMissing moment path.now volume.old volume.new result }
{
    match object_at(volume, path) {
        Ok(_) => Ok(()),
        Err(_) => make_one(volume, path, moment),
    }
}
