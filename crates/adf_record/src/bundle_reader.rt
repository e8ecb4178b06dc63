//! The bundle that a text describes.

use crate::bundle::{Bundle, BundleEntry, BundleHead};
use crate::bundle_fault::{BundleFault, BundleWhy};
use crate::bundle_lines::MOST_BUNDLE_BYTES;
use crate::bundle_tree::BundleTree;
use crate::bundle_values::{boot_of, date_of, kind_of, label_of, number_of};
use crate::entry_reader::read_entry;
use adf_block::{Format, size_ok};
use ados_name::{Date3, Name};
use json::{Reader, Scratch, Token};
use std::alloc::Global;
use std::str::from_utf8;

/// The number of members of a bundle's object.
const MEMBERS: usize = 8;

/// The most entries of a bundle: the blocks of the largest volume.
const MOST_ENTRIES: usize = 101_602;

/// The members of a bundle's object read so far.
#[derive(Drop)]
struct Members {
    kind: Option<Format>,
    blocks: Option<u32>,
    label: Option<Name>,
    created: Option<Date3>,
    changed: Option<Date3>,
    root: Option<Date3>,
    boot: Option<Vec<u8>>,
    entries: Option<Vec<BundleEntry>>,
}

/// The bundle that a text describes: a JSON object with each member once, in any order, and no other.
pub fn read_bundle(alloc: Global, text: &[u8]) -> Result<Bundle, BundleFault> {
    if text.len() > MOST_BUNDLE_BYTES {
        return Err(BundleFault::from(BundleWhy::Long));
    }
    let Ok(text) = from_utf8(text) else {
        return Err(BundleFault::from(BundleWhy::NotText));
    };
    let mut scratch = Scratch::new(alloc);
    let Ok(mut reader) = Reader::new(text, &mut scratch) else {
        return Err(BundleFault::from(BundleWhy::Memory));
    };
    let members = read_members(alloc, &mut reader)?;
    Ok(finished(members)?)
}

/// The members of the one object of a text.
fn read_members(alloc: Global, reader: &mut Reader<'_>) -> Result<Members, BundleFault> {
    let mut members = Members {
        kind: None,
        blocks: None,
        label: None,
        created: None,
        changed: None,
        root: None,
        boot: None,
        entries: None,
    };
    if !matches!(reader.next(), Some(Token::BeginObject)) {
        return Err(not_json(reader));
    }
    for _ in 0..MEMBERS + 1 {
        let Ok(key) = reader.next_key() else {
            return Err(not_json(reader));
        };
        let Some(key) = key else {
            break;
        };
        members.read(alloc, reader, key)?;
    }
    match reader.next() {
        None => Ok(members),
        Some(_) => Err(not_json(reader)),
    }
}

/// The fault of a text that is no JSON of a bundle from here on.
fn not_json(reader: &Reader<'_>) -> BundleFault {
    BundleFault::from(BundleWhy::NotJson(reader.offset()))
}

impl Members {
    /// Reads the value of a member.
    fn read(
        &mut self,
        alloc: Global,
        reader: &mut Reader<'_>,
        key: &str,
    ) -> Result<(), BundleFault> {
        if key != "entries" {
            return Ok(self.read_fact(alloc, reader, key)?);
        }
        if self.entries.is_some() {
            return Err(BundleFault::from(BundleWhy::Twice("entries")));
        }
        self.entries = Some(read_entries(alloc, reader)?);
        Ok(())
    }

    /// Reads the value of a member other than the entries.
    fn read_fact(
        &mut self,
        alloc: Global,
        reader: &mut Reader<'_>,
        key: &str,
    ) -> Result<(), BundleWhy> {
        match key {
            "kind" => set(&mut self.kind, "kind", kind_of(reader)?),
            "blocks" => set(&mut self.blocks, "blocks", number_of(reader, "blocks")?),
            "label" => set(&mut self.label, "label", label_of(alloc, reader)?),
            "boot" => set(&mut self.boot, "boot", boot_of(alloc, reader)?),
            "created" => set(
                &mut self.created,
                "created",
                date_of(alloc, reader, "created")?,
            ),
            "changed" => set(
                &mut self.changed,
                "changed",
                date_of(alloc, reader, "changed")?,
            ),
            "root" => set(&mut self.root, "root", date_of(alloc, reader, "root")?),
            other => Err(BundleWhy::unknown(alloc, other)),
        }
    }
}

/// Sets a member that was not read yet.
pub(crate) fn set<T: Drop>(
    member: &mut Option<T>,
    name: &'static str,
    value: T,
) -> Result<(), BundleWhy> {
    if member.is_some() {
        return Err(BundleWhy::Twice(name));
    }
    *member = Some(value);
    Ok(())
}

/// The entries of a list.
fn read_entries(alloc: Global, reader: &mut Reader<'_>) -> Result<Vec<BundleEntry>, BundleFault> {
    let mut tree = BundleTree::new(alloc);
    if !matches!(reader.next(), Some(Token::BeginArray)) {
        return Err(BundleFault::from(BundleWhy::Wrong {
            member: "entries",
            wanted: "a list of objects",
        }));
    }
    for place in 0..MOST_ENTRIES {
        if reader.take_end_array() {
            return Ok(tree.into_entries());
        }
        if let Err(why) = read_entry(alloc, reader, &mut tree) {
            return Err(BundleFault {
                entry: Some(place + 1),
                why,
            });
        }
    }
    Err(BundleFault::from(BundleWhy::Many))
}

/// The bundle of the members.
fn finished(members: Members) -> Result<Bundle, BundleWhy> {
    let head = BundleHead {
        format: members.kind.ok_or(BundleWhy::Missing("kind"))?,
        blocks: members.blocks.ok_or(BundleWhy::Missing("blocks"))?,
        label: members.label.ok_or(BundleWhy::Missing("label"))?,
        created: members.created.ok_or(BundleWhy::Missing("created"))?,
        changed: members.changed.ok_or(BundleWhy::Missing("changed"))?,
        root_date: members.root.ok_or(BundleWhy::Missing("root"))?,
    };
    let boot = members.boot.ok_or(BundleWhy::Missing("boot"))?;
    let entries = members.entries.ok_or(BundleWhy::Missing("entries"))?;
    if !size_ok(head.blocks) {
        return Err(BundleWhy::Wrong {
            member: "blocks",
            wanted: "16 to 101,602",
        });
    }
    if boot.get(..4) != Some(kind_bytes(head.format)) {
        return Err(BundleWhy::Wrong {
            member: "boot",
            wanted: "the four bytes of the kind first",
        });
    }
    Ok(Bundle {
        head,
        boot,
        entries,
    })
}

/// The four bytes of a kind of disk.
fn kind_bytes(format: Format) -> &'static [u8] {
    match format {
        Format::Ofs => b"DOS\x00",
        Format::Ffs => b"DOS\x01",
    }
}
