//! The rules that a block keeps in its role, as far as they need no other block, each with the long that shows that it
//! is broken: one table, for the check, which stops at the first fault, and for the list of all faults.
ghost use Rattle.std.specs.Prelude.{◌≡◌, ◌≢◌, ◌<◌, ◌⊎◌, ◌↔◌, IfSome, IsTrue, is_some, slice_index};
ghost use Rattle.adf_block.specs.Fields.{own_key};
ghost use Rattle.adf_block.specs.Image.{block_count, block_sum, byte_at};
ghost use Rattle.ados_check.specs.Evidence.{IsFieldEvidence, IsTypeEvidence, evidence_of, full_count, sum_evidence};
ghost use Rattle.ados_check.specs.Marks.{HasEntryType};
ghost use Rattle.ados_check.specs.PlacesTold.{TellsAll};
ghost use Rattle.ados_check.specs.Rules.{HasBadExtensionField, HasBadField, HasBadSumAs, HasBadTypeAs, HasNoType, HasOtherCount, HasOtherFirst, TellsFields, TellsTypes, kind_of};
ghost use Rattle.ados_model.specs.Faults.{HasFileType, HasLinkType, IsOfs, pointers_of};
ghost use Rattle.ados_model.specs.declared.role.Role.TheVariants.{Extension};

use crate::evidence::{Evidence, broken_at, other_at};
use crate::naming::{is_of_other_slot, name_evidence};
use crate::source::Source;
use adf_block::Image;
use adf_block::beside::{
    CHECKSUM, DIRECTORY_LINK_TYPE, FILE_LINK_TYPE, PAGE_CHECKSUM, SOFT_LINK_TYPE,
};
use adf_block::layout::{
    COMMENT_BYTE, DATA_TYPE, DIRECTORY_TYPE, FILE_TYPE, FIRST_POINTER, HEADER_TYPE, LIST_TYPE,
    NAME_BYTE, NEXT_DATA, NEXT_EXTENSION, OWN_KEY, PARENT, POINTER_COUNT, PRIMARY_TYPE, ROOT_TYPE,
    SECONDARY_TYPE, TABLE_LONGS, TABLE_SIZE,
};
use ados_model::{FaultKind, Role};
use ados_name::Comment;

/// A rule for fields of a block.
#[derive(Clone, Copy)]
pub enum FieldRule {
    /// An entry is no link.
    NoLink,
    /// A block has its own number.
    OwnKey,
    /// A block has the number of the block to which it belongs.
    Parent,
    /// A name is valid.
    Name,
    /// An entry is in the hash chain of its name.
    Chain,
    /// A comment has at most 79 bytes.
    Comment,
    /// The table of pointers is full if another block follows.
    PointerCount,
    /// In OFS, the header of a file links its first data block.
    FirstData,
}

/// The rules of fields, in the order in which the check looks at them.
pub const FIELD_RULES: [FieldRule; 6] = [
    FieldRule::NoLink,
    FieldRule::OwnKey,
    FieldRule::Parent,
    FieldRule::Name,
    FieldRule::Chain,
    FieldRule::Comment,
];

/// The rules of pointers, which the check looks at together with all blocks of a file.
pub const POINTER_RULES: [FieldRule; 2] = [FieldRule::PointerCount, FieldRule::FirstData];

impl FieldRule {
    /// The kind of fault of a block that breaks the rule.
    pub fn kind(self) -> FaultKind
        ensures { result ≡ kind_of self }
    {
        match self {
            FieldRule::NoLink => FaultKind::LinkEntry,
            FieldRule::OwnKey => FaultKind::BadOwnKey,
            FieldRule::Parent => FaultKind::BadParent,
            FieldRule::Name => FaultKind::BadName,
            FieldRule::Chain => FaultKind::WrongChain,
            FieldRule::Comment => FaultKind::BadComment,
            FieldRule::PointerCount => FaultKind::BadCount,
            FieldRule::FirstData => FaultKind::BadPointer,
        }
    }
}

/// Whether the checksum of a block is wrong, if a block has one in this role.
pub fn has_bad_sum(source: &Source<'_>, block: u32, role: Role) -> bool
    requires inside { block < block_count source.now.bytes }
    ensures { IsTrue result ↔ HasBadSumAs source.now.bytes block role }
{
    match role {
        Role::Data(_) => source.kind_byte() == 0 && !source.has_sum(block),
        Role::Root | Role::Page | Role::Entry(_, _) | Role::Extension(_) => !source.has_sum(block),
    }
}

/// The checksum of a block, if the block has one in this role, and it is wrong.
pub fn sum_evidence(image: &Image, block: u32, role: Role) -> Option<Evidence>
    requires inside { block < block_count image.now }
    ensures broken { IsTrue (is_some result) ↔ HasBadSumAs image.now block role }
    ensures evidence { IfSome result (λ e. e ≡ sum_evidence image.now block role) }
{
    if !has_bad_sum(&Source::whole(image), block, role) {
        return None;
    }
    let i = match role {
        Role::Page => PAGE_CHECKSUM,
        Role::Root | Role::Entry(_, _) | Role::Data(_) | Role::Extension(_) => CHECKSUM,
    };
    let found = image.long(block, i);
    Some(Evidence {
        long: i,
        found,
        wanted: Some(found.wrapping_sub(image.sum(block))),
    })
}

/// The first type of a block that is not that of this role, or a root's other size of its table.
pub fn type_evidence(source: &Source<'_>, block: u32, role: Role) -> Option<Evidence>
    requires inside { block < block_count source.now.bytes }
    requires told { TellsTypes source.now block role }
    ensures broken { IsTrue (is_some result) ↔ HasBadTypeAs source.now.bytes block role }
    ensures evidence { IfSome result (IsTypeEvidence source.now.bytes block role) }
{
    let primary = match role {
        Role::Page => return None,
        Role::Data(_) if source.kind_byte() != 0 => return None,
        Role::Root | Role::Entry(_, _) => HEADER_TYPE,
        Role::Data(_) => DATA_TYPE,
        Role::Extension(_) => LIST_TYPE,
    };
    if source.long(block, PRIMARY_TYPE) != primary {
        return Some(Evidence::of(source, block, PRIMARY_TYPE, Some(primary)));
    }
    match role {
        Role::Root => {
            if source.long(block, TABLE_SIZE) != TABLE_LONGS {
                return Some(Evidence::of(source, block, TABLE_SIZE, Some(TABLE_LONGS)));
            }
            other_at(source, block, SECONDARY_TYPE, ROOT_TYPE)
        }
        Role::Entry(_, _) => {
            broken_at(source, block, SECONDARY_TYPE, has_no_type(source, block))
        }
        Role::Extension(_) => other_at(source, block, SECONDARY_TYPE, FILE_TYPE),
        Role::Page | Role::Data(_) => None,
    }
}

/// The field of a block that breaks a rule in this role. Each block is asked for each rule, so it is inlined.
#[inline(always)]
pub fn field_evidence(
    source: &Source<'_>,
    block: u32,
    role: Role,
    rule: FieldRule,
) -> Option<Evidence>
    requires inside { block < block_count source.now.bytes }
    requires told { TellsFields source.now block role }
    ensures broken { IsTrue (is_some result) ↔ HasBadField source.now.bytes block role rule }
    ensures evidence { IfSome result (IsFieldEvidence source.now.bytes block role rule) }
{
    match role {
        Role::Root => match rule {
            FieldRule::Parent => other_at(source, block, PARENT, 0),
            FieldRule::Name => name_evidence(source, block),
            _ => None,
        },
        Role::Page => None,
        Role::Entry(dir, slot) => match rule {
            FieldRule::NoLink => {
                let is_link = has_link_type(source, block);
                broken_at(source, block, SECONDARY_TYPE, is_link)
            }
            FieldRule::OwnKey => other_at(source, block, OWN_KEY, block),
            FieldRule::Parent => other_at(source, block, PARENT, dir),
            FieldRule::Name => name_evidence(source, block),
            FieldRule::Chain => {
                let is_other = is_of_other_slot(source, block, slot);
                broken_at(source, block, NAME_BYTE / 4, is_other)
            }
            FieldRule::Comment => {
                let length = usize::from(source.byte(block, COMMENT_BYTE));
                if has_entry_type(source, block) && length > Comment::MAX_LEN {
                    Some(Evidence::of(source, block, COMMENT_BYTE / 4, None))
                } else {
                    None
                }
            }
            FieldRule::PointerCount => {
                if is_file(source, block) && has_other_count(source, block) {
                    count_of(source, block)
                } else {
                    None
                }
            }
            FieldRule::FirstData => first_data(source, block),
        },
        Role::Data(file) => match rule {
            FieldRule::Parent => {
                if source.kind_byte() == 0 {
                    other_at(source, block, OWN_KEY, file)
                } else {
                    None
                }
            }
            _ => None,
        },
        Role::Extension(file) => extension_evidence(source, block, file, rule),
    }
}

/// The field of an extension block of a file that breaks a rule.
#[inline(always)]
fn extension_evidence(
    source: &Source<'_>,
    block: u32,
    file: u32,
    rule: FieldRule,
) -> Option<Evidence>
    requires inside { block < block_count source.now.bytes }
    requires told { TellsAll source.now block }
    ensures broken { IsTrue (is_some result) ↔ HasBadExtensionField source.now.bytes block file rule }
    ensures evidence { IfSome result (IsFieldEvidence source.now.bytes block (Extension file) rule) }
{
    match rule {
        FieldRule::OwnKey => other_at(source, block, OWN_KEY, block),
        FieldRule::Parent => other_at(source, block, PARENT, file),
        FieldRule::PointerCount => {
            if source.long(block, POINTER_COUNT) == 0 || has_other_count(source, block) {
                count_of(source, block)
            } else {
                None
            }
        }
        _ => None,
    }
}

/// The link of a file's header to its first data block, if it is not its first pointer. Only in OFS has it one.
#[inline(always)]
fn first_data(source: &Source<'_>, block: u32) -> Option<Evidence>
    requires inside { block < block_count source.now.bytes }
    requires told { TellsAll source.now block }
    ensures broken { IsTrue (is_some result) ↔ (HasFileType source.now.bytes block × HasOtherFirst source.now.bytes block) }
    ensures evidence { IfSome result (λ e. e ≡ evidence_of source.now.bytes block NEXT_DATA (Some (slice_index (pointers_of source.now.bytes block) 0))) }
{
    if is_file(source, block) && source.kind_byte() == 0 {
        other_at(source, block, NEXT_DATA, first_pointer(source, block))
    } else {
        None
    }
}

/// The wrong number of pointers of a block. Before an extension block only 72 is right.
fn count_of(source: &Source<'_>, block: u32) -> Option<Evidence>
    requires inside { block < block_count source.now.bytes }
    requires told { TellsAll source.now block }
    ensures { result ≡ Some (evidence_of source.now.bytes block POINTER_COUNT (full_count source.now.bytes block)) }
{
    let full = match source.long(block, NEXT_EXTENSION) {
        0 => None,
        _ => Some(TABLE_LONGS),
    };
    Some(Evidence::of(source, block, POINTER_COUNT, full))
}

/// Whether the header is that of a file.
fn is_file(source: &Source<'_>, block: u32) -> bool
    requires inside { block < block_count source.now.bytes }
    requires told { TellsAll source.now block }
    ensures { IsTrue result ↔ HasFileType source.now.bytes block }
{
    source.long(block, SECONDARY_TYPE) == FILE_TYPE
}

/// Whether the header is that of no directory, no file and no link.
fn has_no_type(source: &Source<'_>, block: u32) -> bool
    requires inside { block < block_count source.now.bytes }
    requires told { TellsAll source.now block }
    ensures { IsTrue result ↔ HasNoType source.now.bytes block }
{
    !has_entry_type(source, block) && !has_link_type(source, block)
}

/// Whether the header is that of a directory or a file.
fn has_entry_type(source: &Source<'_>, block: u32) -> bool
    requires inside { block < block_count source.now.bytes }
    requires told { TellsAll source.now block }
    ensures { IsTrue result ↔ HasEntryType source.now.bytes block }
{
    let kind = source.long(block, SECONDARY_TYPE);
    kind == DIRECTORY_TYPE || kind == FILE_TYPE
}

/// Whether the header is that of a link.
fn has_link_type(source: &Source<'_>, block: u32) -> bool
    requires inside { block < block_count source.now.bytes }
    requires told { TellsAll source.now block }
    ensures { IsTrue result ↔ HasLinkType source.now.bytes block }
{
    let kind = source.long(block, SECONDARY_TYPE);
    kind == SOFT_LINK_TYPE || kind == DIRECTORY_LINK_TYPE || kind == FILE_LINK_TYPE
}

/// Whether there are more than 72 pointers, or fewer although another block follows.
fn has_other_count(source: &Source<'_>, block: u32) -> bool
    requires inside { block < block_count source.now.bytes }
    requires told { TellsAll source.now block }
    ensures { IsTrue result ↔ HasOtherCount source.now.bytes block }
{
    let count = source.long(block, POINTER_COUNT);
    count > TABLE_LONGS || count < TABLE_LONGS && source.long(block, NEXT_EXTENSION) != 0
}

/// The first data pointer of a header, or 0 if it has none.
pub(crate) fn first_pointer(source: &Source<'_>, block: u32) -> u32
    requires inside { block < block_count source.now.bytes }
    requires told { TellsAll source.now block }
    ensures { result ≡ slice_index (pointers_of source.now.bytes block) 0 }
{
    let count = source.long(block, POINTER_COUNT);
    if count == 0 || count > TABLE_LONGS {
        return 0;
    }
    source.long(block, FIRST_POINTER)
}
