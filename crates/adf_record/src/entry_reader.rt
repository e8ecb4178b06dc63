//! An entry of a bundle, read from JSON.

use crate::bundle::BundleEntry;
use crate::bundle_fault::BundleWhy;
use crate::bundle_reader::set;
use crate::bundle_tree::BundleTree;
use crate::bundle_values::{comment_of, date_of, is_directory_of, number_of, path_of};
use ados_name::{Comment, Date3, Name, Protect};
use json::{Reader, Token};
use std::alloc::Global;

/// The number of members of an entry's object.
const MEMBERS: usize = 6;

/// The members of an entry's object read so far.
#[derive(Drop)]
struct Members {
    path: Option<Vec<u8>>,
    is_directory: Option<bool>,
    size: Option<u32>,
    bits: Option<u32>,
    date: Option<Date3>,
    comment: Option<Comment>,
}

/// Reads an entry, and adds it to those before it.
pub(crate) fn read_entry(
    alloc: Global,
    reader: &mut Reader<'_>,
    tree: &mut BundleTree,
) -> Result<(), BundleWhy> {
    let members = read_members(alloc, reader)?;
    let path = members.path.ok_or(BundleWhy::Missing("path"))?;
    let entry = BundleEntry {
        above: None,
        name: Name::new(b"-").unwrap(),
        size: size_of(members.is_directory, members.size)?,
        protection: Protect(members.bits.ok_or(BundleWhy::Missing("bits"))?),
        date: members.date.ok_or(BundleWhy::Missing("date"))?,
        comment: members.comment.ok_or(BundleWhy::Missing("comment"))?,
    };
    tree.enter(&path, entry)
}

/// The size of a file; a directory has none.
fn size_of(is_directory: Option<bool>, size: Option<u32>) -> Result<Option<u32>, BundleWhy> {
    let is_directory = is_directory.ok_or(BundleWhy::Missing("type"))?;
    if is_directory != size.is_none() {
        return Err(size_fault(is_directory));
    }
    Ok(size)
}

/// The fault of a directory with a size, or of a file without one.
fn size_fault(is_directory: bool) -> BundleWhy {
    if is_directory {
        return BundleWhy::Wrong {
            member: "size",
            wanted: "none, since it is a directory",
        };
    }
    BundleWhy::Missing("size")
}

/// The members of an entry's object.
fn read_members(alloc: Global, reader: &mut Reader<'_>) -> Result<Members, BundleWhy> {
    let mut members = Members {
        path: None,
        is_directory: None,
        size: None,
        bits: None,
        date: None,
        comment: None,
    };
    if !matches!(reader.next(), Some(Token::BeginObject)) {
        return Err(BundleWhy::NotJson(reader.offset()));
    }
    for _ in 0..MEMBERS + 1 {
        let Ok(key) = reader.next_key() else {
            return Err(BundleWhy::NotJson(reader.offset()));
        };
        let Some(key) = key else {
            break;
        };
        members.read(alloc, reader, key)?;
    }
    Ok(members)
}

impl Members {
    /// Reads the value of a member.
    fn read(&mut self, alloc: Global, reader: &mut Reader<'_>, key: &str) -> Result<(), BundleWhy> {
        match key {
            "path" => set(&mut self.path, "path", path_of(alloc, reader)?),
            "type" => set(&mut self.is_directory, "type", is_directory_of(reader)?),
            "size" => set(&mut self.size, "size", number_of(reader, "size")?),
            "bits" => set(&mut self.bits, "bits", number_of(reader, "bits")?),
            "date" => set(&mut self.date, "date", date_of(alloc, reader, "date")?),
            "comment" => set(&mut self.comment, "comment", comment_of(alloc, reader)?),
            other => Err(BundleWhy::unknown(alloc, other)),
        }
    }
}
