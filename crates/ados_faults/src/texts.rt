//! What is wrong with a block, as text: what was found there, and what would be right.
ghost use Rattle.std.specs.Prelude.{◌<◌};
ghost use Rattle.adf_block.specs.Image.{block_count};

use crate::marked::mark_at;
use crate::places::place_text;
use crate::same_name::same_named;
use adf_block::Image;
use adf_block::layout::*;
use adf_text::Grouped;
use ados_check::{Evidence, Mark};
use ados_model::{FaultKind, Role};
use ados_name::{Comment, Name};
use std::alloc::{AllocError, Global};

/// A block of an image that shows a fault, and the places that name the blocks of the image: the first one of each
/// block by the walk, and of some a second one.
#[derive(Clone, Copy)]
pub(crate) struct BadBlock<'a> {
    pub(crate) image: &'a Image,
    pub(crate) marks: &'a [Option<Mark>],
    pub(crate) seconds: &'a [Option<Mark>],
    pub(crate) block: u32,
    /// The role of the block by the first place that names it.
    pub(crate) role: Option<Role>,
    ghost inside: { block < block_count image.now },
}

impl BadBlock<'_> {
    /// The text for a kind of fault, and for the long that shows it, if there is one.
    pub(crate) fn text(
        &self,
        alloc: Global,
        kind: FaultKind,
        values: Option<Evidence>,
    ) -> Result<String, AllocError> {
        let Some(values) = values else {
            return self.text_without_long(alloc, kind);
        };
        let (found, wanted) = (values.found, values.wanted.unwrap_or(0));
        match kind {
            FaultKind::BadSum => {
                let sum = found.wrapping_sub(wanted);
                format!(in alloc; "its checksum is wrong (off by {sum:08x})")
            }
            FaultKind::BadType => type_text(alloc, values),
            FaultKind::BadOwnKey => {
                format!(in alloc; "its own number is {found}; it should be {wanted}")
            }
            FaultKind::BadParent => {
                let what = self.word_for_parent();
                format!(in alloc; "its {what} is block {found}; it should be {wanted}")
            }
            FaultKind::BadPointer => self.pointer_text(alloc, values),
            FaultKind::BadName => name_text(alloc, values),
            FaultKind::BadComment => {
                let length = found >> 24;
                format!(in alloc;
                    "its comment has {length} characters; it should have at most {}",
                    Comment::MAX_LEN
                )
            }
            FaultKind::BadCount => count_text(alloc, values),
            FaultKind::BadSequence => {
                let (found, wanted) = (grouped(found), grouped(wanted));
                format!(in alloc;
                    "its sequence number is {found}; its place in the file is {wanted}"
                )
            }
            _ => kind_text(alloc, kind, values),
        }
    }

    /// What the block calls the block above it.
    fn word_for_parent(&self) -> &'static str {
        match self.role {
            Some(Role::Data(_) | Role::Extension(_)) => "file header",
            _ => "parent",
        }
    }

    /// A place that names a block outside the image, or a wrong link between data blocks.
    fn pointer_text(&self, alloc: Global, values: Evidence) -> Result<String, AllocError> {
        let found = values.found;
        if values.long == NEXT_DATA {
            let what = match self.role {
                Some(Role::Data(_)) => "next",
                _ => "first",
            };
            let wanted = values.wanted.unwrap_or(0);
            return format!(in alloc; "its {what} data block is {found}; it should be {wanted}");
        }
        let place = place_text(alloc, self.image, self.marks, self.block, values.long)?;
        let last = self.image.blocks() - 1;
        format!(in alloc;
            "its {} names block {found}; it should name one of {BOOT_BLOCKS} to {last}",
            place.as_str()
        )
    }

    /// A fault that no long of this block alone shows.
    fn text_without_long(&self, alloc: Global, kind: FaultKind) -> Result<String, AllocError> {
        match kind {
            FaultKind::BlockUsedTwice => self.twice_text(alloc),
            FaultKind::WrongChain => self.chain_text(alloc),
            FaultKind::DuplicateName => self.same_name_text(alloc),
            FaultKind::BadParent => self.other_holder_text(alloc),
            FaultKind::MarkedFree => String::from_str(
                alloc,
                "it is in use but marked free (adf_serve validate mends that)",
            ),
            FaultKind::NoMemory => String::from_str(alloc, "there was no memory for the check"),
            _ => String::from_str(
                alloc,
                "it is right where it is named first, and wrong where it is named again",
            ),
        }
    }

    /// A block that names one of its holders, and has another one.
    fn other_holder_text(&self, alloc: Global) -> Result<String, AllocError> {
        let named = match self.role {
            Some(Role::Data(holder) | Role::Extension(holder) | Role::Entry(holder, _)) => holder,
            _ => 0,
        };
        let (what, second) = (self.word_for_parent(), self.second_text(alloc)?);
        format!(in alloc;
            "its {what} is block {named}; {} names it too",
            second.as_str()
        )
    }

    /// A block that two places name.
    fn twice_text(&self, alloc: Global) -> Result<String, AllocError> {
        let second = self.second_text(alloc)?;
        match mark_at(self.marks, self.block) {
            Some(first) if first.holder != 0 => {
                let first = self.holder_text(alloc, first)?;
                format!(in alloc;
                    "it is used twice: by {} and by {}",
                    first.as_str(),
                    second.as_str()
                )
            }
            _ => format!(in alloc; "it is the root; {} names it too", second.as_str()),
        }
    }

    /// The second place that names the block, if one is known.
    fn second_text(&self, alloc: Global) -> Result<String, AllocError> {
        match mark_at(self.seconds, self.block) {
            Some(place) => self.holder_text(alloc, place),
            None => String::from_str(alloc, "another place"),
        }
    }

    /// A place: its block, and the words for it there.
    fn holder_text(&self, alloc: Global, place: Mark) -> Result<String, AllocError> {
        let words = place_text(alloc, self.image, self.marks, place.holder, place.long)?;
        format!(in alloc; "block {} ({})", place.holder, words.as_str())
    }

    /// An entry with the name of another one.
    fn same_name_text(&self, alloc: Global) -> Result<String, AllocError> {
        match same_named(self.image, self.marks, self.block) {
            Some(other) => {
                format!(in alloc; "block {other} of the same directory has its name too")
            }
            None => String::from_str(
                alloc,
                "another entry of the same directory has its name too",
            ),
        }
    }

    /// An entry in another hash chain than that of its name.
    fn chain_text(&self, alloc: Global) -> Result<String, AllocError> {
        let length = usize::from(self.image.byte(self.block, NAME_BYTE)).min(Name::MAX_LEN);
        let start = NAME_BYTE as usize + 1;
        let name = Name::new(&self.image.block(self.block)[start..start + length]);
        match (self.role, name) {
            (Some(Role::Entry(_, slot)), Ok(name)) => {
                format!(in alloc;
                    "its hash chain is that of slot {slot}; its name belongs to slot {}",
                    name.slot()
                )
            }
            _ => String::from_str(
                alloc,
                "its hash chain is that of one slot; its name belongs to another one",
            ),
        }
    }
}

/// A number with commas.
fn grouped(number: u32) -> Grouped {
    Grouped(u64::from(number))
}

/// A wrong type or hash table size. Types have a sign: a file has the type -3.
fn type_text(alloc: Global, values: Evidence) -> Result<String, AllocError> {
    let found = values.found.cast_signed();
    let Some(wanted) = values.wanted else {
        return format!(in alloc;
            "its secondary type is {found}; it should be 2 (a directory) or -3 (a file)"
        );
    };
    if values.long == TABLE_SIZE {
        let (found, wanted) = (grouped(values.found), grouped(wanted));
        return format!(in alloc; "its number of hash slots is {found}; it should be {wanted}");
    }
    let what = match values.long {
        PRIMARY_TYPE => "primary type",
        _ => "secondary type",
    };
    format!(in alloc;
        "its {what} is {found}; it should be {}",
        wanted.cast_signed()
    )
}

/// A name without letters, with too many of them, or with a slash or a colon.
fn name_text(alloc: Global, values: Evidence) -> Result<String, AllocError> {
    let length = (values.found >> 24) as usize;
    if values.long == NAME_BYTE / 4 && (length == 0 || length > Name::MAX_LEN) {
        return format!(in alloc;
            "its name has {length} characters; it should have 1 to {}",
            Name::MAX_LEN
        );
    }
    String::from_str(
        alloc,
        "its name has a slash or a colon; no name may have one",
    )
}

/// A count or a size that does not match the blocks of a file.
fn count_text(alloc: Global, values: Evidence) -> Result<String, AllocError> {
    let (count, found) = (values.found, grouped(values.found));
    match (values.long, values.wanted) {
        (HELD, Some(wanted)) => {
            format!(in alloc; "it holds {found} bytes; it should hold {wanted}")
        }
        (HELD, None) => {
            format!(in alloc;
                "it holds {found} bytes; the last block of a file holds 1 to {OFS_ROOM}"
            )
        }
        (FILE_SIZE, _) => {
            format!(in alloc; "its size of {found} bytes does not match its data blocks")
        }
        (_, None) if count == 0 => {
            format!(in alloc;
                "it is an extension block without data pointers; it should have 1 to {TABLE_LONGS}"
            )
        }
        (_, Some(wanted)) if count < wanted => {
            format!(in alloc;
                "it has {found} data pointers; before an extension block it should have {wanted}"
            )
        }
        _ => {
            format!(in alloc; "it has {found} data pointers; it should have at most {TABLE_LONGS}")
        }
    }
}

/// Faults of the disk's kind, and links.
fn kind_text(alloc: Global, kind: FaultKind, values: Evidence) -> Result<String, AllocError> {
    let found = values.found;
    match kind {
        FaultKind::NotADosDisk => {
            let bytes = found.to_be_bytes();
            format!(in alloc;
                "not an AmigaDOS disk: its boot block begins with {:02X} {:02X} {:02X} {:02X} (a game's own format, perhaps)",
                bytes[0], bytes[1], bytes[2], bytes[3]
            )
        }
        FaultKind::UnsupportedKind => {
            let byte = found & 0xff;
            format!(in alloc;
                "its file system is DOS\\{byte}; only DOS\\0 (OFS) and DOS\\1 (FFS) are supported"
            )
        }
        _ => {
            format!(in alloc;
                "it is a link (secondary type {}); only directories and files are supported",
                found.cast_signed()
            )
        }
    }
}
