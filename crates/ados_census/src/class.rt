//! What a block is by its own bytes, whatever leads to it.
ghost use Rattle.std.specs.Prelude.{◌≡◌, ◌<◌, ◌↔◌, All, IsTrue, MatchOption};
ghost use Rattle.adf_block.specs.Image.{block_count, block_sum, long};
ghost use Rattle.adf_block.specs.declared.layout.TheConstants.{BLOCK_BYTES, BLOCK_LONGS};
ghost use Rattle.ados_census.specs.Classes.{HasClass, HasData, HasFields, HasHeading, HasListHeading, HasNoClass, HasOtherFields, HasPointers, HasWrongName, IsKind, IsMendedBy, IsOtherThan, IsSoundAs, IsSoundBut, LooksLike, byte_of, longs_of, mended};

use adf_block::Image;
use adf_block::beside::CHECKSUM;
use adf_block::layout::{
    BOOT_BLOCKS, COMMENT_BYTE, DATA_TYPE, DIRECTORY_TYPE, FILE_TYPE, HEADER_TYPE, HELD, LIST_TYPE,
    NAME_BYTE, NEXT_DATA, OFS_ROOM, OWN_KEY, PARENT, POINTER_COUNT, PRIMARY_TYPE, SECONDARY_TYPE,
    SEQUENCE, TABLE_LONGS,
};
use ados_name::{Comment, Name};

/// A kind of block that has a checksum, but for the root.
#[derive(Clone, Copy, PartialEq, Eq)]
pub enum BlockKind {
    /// The header of a file.
    FileHeader,
    /// The header of a directory.
    DirectoryHeader,
    /// An extension block of a file.
    Extension,
    /// A data block of a file in OFS.
    OfsData,
    /// A bitmap block. It has no field but its sum, so each block whose longs sum to 0 could be one.
    Bitmap,
}

/// A long without which a block would be sound.
#[derive(Clone, Copy, PartialEq, Eq)]
pub struct WrongLong {
    /// The index of the long in its block, 0 to 127.
    pub long: u32,
    /// What the long holds.
    pub found: u32,
    /// What it should hold.
    pub wanted: u32,
}

/// What a block is by its own bytes.
#[derive(Clone, Copy, PartialEq, Eq)]
pub struct BlockClass {
    pub kind: BlockKind,
    /// The one long that is wrong, or `None` if the block is sound.
    pub wrong: Option<WrongLong>,
}

/// The kinds, in the order in which a class is looked for.
pub const BLOCK_KINDS: [BlockKind; 5] = [
    BlockKind::FileHeader,
    BlockKind::DirectoryHeader,
    BlockKind::Extension,
    BlockKind::OfsData,
    BlockKind::Bitmap,
];

/// The long with the length of a comment, and its first letters.
const COMMENT_LONG: u32 = COMMENT_BYTE / 4;

/// The long with the length of a name, and its first letters. A name has up to 8 longs.
const NAME_LONG: u32 = NAME_BYTE / 4;

/// The class of a block: the first kind of which it is, sound or but for one long; or `None` if it is of no kind, as a boot
/// block is.
pub fn class_of(image: &Image, block: u32) -> Option<BlockClass>
    requires { block < block_count image.now }
    ensures { MatchOption result (HasNoClass image.now block) (HasClass image.now block) }
{
    let sum = image.sum(block);
    for kind in BLOCK_KINDS.iter() {
        if let Some(wrong) = look_as(image, block, sum, *kind) {
            return Some(BlockClass { kind: *kind, wrong });
        }
    }
    None
}

/// The class of a block as this kind, if it is sound or sound but for one long.
pub fn class_as(image: &Image, block: u32, kind: BlockKind) -> Option<BlockClass>
    requires { block < block_count image.now }
    ensures { MatchOption result (IsOtherThan image.now block kind) (λ class. (class.kind ≡ kind) × IsKind image.now block kind class.wrong) }
{
    match look_as(image, block, image.sum(block), kind) {
        Some(wrong) => Some(BlockClass { kind, wrong }),
        None => None,
    }
}

/// Whether a block is sound as this kind. Only its fields and its sum are looked at.
pub fn is_sound_as(image: &Image, block: u32, kind: BlockKind) -> bool
    requires { block < block_count image.now }
    ensures { IsTrue result ↔ IsSoundAs image.now block kind }
{
    has_fields(image, block, None, kind) && image.sum(block) == 0
}

/// Whether a block looks like this kind by its types, its own number and its name, as far as the kind has them. Its sum and its
/// other fields are not looked at.
pub fn looks_like(image: &Image, block: u32, kind: BlockKind) -> bool
    requires { block < block_count image.now }
    ensures { IsTrue result ↔ LooksLike kind block (long image.now block) }
{
    has_look(image, block, None, kind)
}

/// The wrong long of a block as this kind: `Some(None)` if the block is sound, `None` if it is of another kind.
fn look_as(image: &Image, block: u32, sum: u32, kind: BlockKind) -> Option<Option<WrongLong>>
    requires block { block < block_count image.now }
    requires sum { sum ≡ block_sum image.now block }
    ensures { MatchOption result (IsOtherThan image.now block kind) (IsKind image.now block kind) }
{
    if sum == 0 {
        if has_fields(image, block, None, kind) {
            return Some(None);
        }
        return None;
    }
    if let Some(wrong) = wrong_long(image, block, sum, kind) {
        return Some(Some(wrong));
    }
    None
}

/// The first long by which a block with a wrong sum can be made sound as this kind.
fn wrong_long(image: &Image, block: u32, sum: u32, kind: BlockKind) -> Option<WrongLong>
    requires block { block < block_count image.now }
    requires sum { sum ≡ block_sum image.now block }
    requires wrong { ¬ (block_sum image.now block ≡ 0) }
    ensures { MatchOption result (All (λ i. ¬ IsMendedBy image.now block kind i) (longs_of kind)) (IsSoundBut image.now block kind) }
{
    let longs = longs_of(kind);
    for place in longs.iter() {
        let found = image.long(block, *place);
        let wanted = found.wrapping_sub(sum);
        let wrong = WrongLong {
            long: *place,
            found,
            wanted,
        };
        if has_fields(image, block, Some(wrong), kind) {
            return Some(wrong);
        }
    }
    None
}

/// The longs that the fields of a kind depend on, first the checksum.
fn longs_of(kind: BlockKind) -> &'static [u32]
    ensures { result.now ≡ longs_of kind }
{
    match kind {
        BlockKind::FileHeader | BlockKind::DirectoryHeader => &[
            CHECKSUM,
            PRIMARY_TYPE,
            OWN_KEY,
            SECONDARY_TYPE,
            COMMENT_LONG,
            NAME_LONG,
            NAME_LONG + 1,
            NAME_LONG + 2,
            NAME_LONG + 3,
            NAME_LONG + 4,
            NAME_LONG + 5,
            NAME_LONG + 6,
            NAME_LONG + 7,
        ],
        BlockKind::Extension => &[
            CHECKSUM,
            PRIMARY_TYPE,
            OWN_KEY,
            SECONDARY_TYPE,
            PARENT,
            POINTER_COUNT,
        ],
        BlockKind::OfsData => &[CHECKSUM, PRIMARY_TYPE, OWN_KEY, SEQUENCE, HELD, NEXT_DATA],
        BlockKind::Bitmap => &[],
    }
}

/// Whether a block has the fields of a kind, with what is wanted in place of a wrong long.
fn has_fields(image: &Image, block: u32, wrong: Option<WrongLong>, kind: BlockKind) -> bool
    requires { block < block_count image.now }
    ensures { IsTrue result ↔ HasFields kind (block_count image.now) block (mended image.now block wrong) }
{
    BOOT_BLOCKS <= block
        && has_look(image, block, wrong, kind)
        && has_other_fields(image, block, wrong, kind)
}

/// Whether a block looks like a kind, with what is wanted in place of a wrong long.
fn has_look(image: &Image, block: u32, wrong: Option<WrongLong>, kind: BlockKind) -> bool
    requires { block < block_count image.now }
    ensures { IsTrue result ↔ LooksLike kind block (mended image.now block wrong) }
{
    match kind {
        BlockKind::FileHeader => has_heading(image, block, wrong, FILE_TYPE),
        BlockKind::DirectoryHeader => has_heading(image, block, wrong, DIRECTORY_TYPE),
        BlockKind::Extension => has_list_heading(image, block, wrong),
        BlockKind::OfsData => mended(image, block, wrong, PRIMARY_TYPE) == DATA_TYPE,
        BlockKind::Bitmap => true,
    }
}

/// Whether a block has the types, the own number and the name of a header with this secondary type.
fn has_heading(image: &Image, block: u32, wrong: Option<WrongLong>, secondary: u32) -> bool
    requires { block < block_count image.now }
    ensures { IsTrue result ↔ HasHeading secondary block (mended image.now block wrong) }
{
    mended(image, block, wrong, PRIMARY_TYPE) == HEADER_TYPE
        && mended(image, block, wrong, OWN_KEY) == block
        && mended(image, block, wrong, SECONDARY_TYPE) == secondary
        && !has_wrong_name(image, block, wrong)
}

/// Whether a block has the types and the own number of an extension block.
fn has_list_heading(image: &Image, block: u32, wrong: Option<WrongLong>) -> bool
    requires { block < block_count image.now }
    ensures { IsTrue result ↔ HasListHeading block (mended image.now block wrong) }
{
    mended(image, block, wrong, PRIMARY_TYPE) == LIST_TYPE
        && mended(image, block, wrong, OWN_KEY) == block
        && mended(image, block, wrong, SECONDARY_TYPE) == FILE_TYPE
}

/// Whether a block has the other fields of a kind.
fn has_other_fields(image: &Image, block: u32, wrong: Option<WrongLong>, kind: BlockKind) -> bool
    requires { block < block_count image.now }
    ensures { IsTrue result ↔ HasOtherFields kind (block_count image.now) (mended image.now block wrong) }
{
    match kind {
        BlockKind::FileHeader | BlockKind::DirectoryHeader => {
            usize::from(byte_of(image, block, wrong, COMMENT_BYTE)) <= Comment::MAX_LEN
        }
        BlockKind::Extension => has_pointers(image, block, wrong),
        BlockKind::OfsData => has_data(image, block, wrong),
        BlockKind::Bitmap => true,
    }
}

/// Whether a block has the file and the count of pointers of an extension block.
fn has_pointers(image: &Image, block: u32, wrong: Option<WrongLong>) -> bool
    requires { block < block_count image.now }
    ensures { IsTrue result ↔ HasPointers (block_count image.now) (mended image.now block wrong) }
{
    let file = mended(image, block, wrong, PARENT);
    let pointers = mended(image, block, wrong, POINTER_COUNT);
    BOOT_BLOCKS <= file && file < image.blocks() && 1 <= pointers && pointers <= TABLE_LONGS
}

/// Whether a block has the file, the number, the count of bytes and the link of an OFS data block.
fn has_data(image: &Image, block: u32, wrong: Option<WrongLong>) -> bool
    requires { block < block_count image.now }
    ensures { IsTrue result ↔ HasData (block_count image.now) (mended image.now block wrong) }
{
    let file = mended(image, block, wrong, OWN_KEY);
    let held = mended(image, block, wrong, HELD);
    BOOT_BLOCKS <= file
        && file < image.blocks()
        && 1 <= mended(image, block, wrong, SEQUENCE)
        && 1 <= held
        && held <= OFS_ROOM
        && mended(image, block, wrong, NEXT_DATA) < image.blocks()
}

/// Whether a name is empty, too long, or has a separator.
fn has_wrong_name(image: &Image, block: u32, wrong: Option<WrongLong>) -> bool
    requires { block < block_count image.now }
    ensures { IsTrue result ↔ HasWrongName (mended image.now block wrong) }
{
    let length = byte_of(image, block, wrong, NAME_BYTE);
    if length == 0 || usize::from(length) > Name::MAX_LEN {
        return true;
    }
    for p in NAME_BYTE + 1..NAME_BYTE + 1 + u32::from(length) {
        if matches!(byte_of(image, block, wrong, p), b'/' | b':') {
            return true;
        }
    }
    false
}

/// Byte `p` of a block, with what is wanted in place of a wrong long.
fn byte_of(image: &Image, block: u32, wrong: Option<WrongLong>, p: u32) -> u8
    requires block { block < block_count image.now }
    requires place { p < BLOCK_BYTES }
    ensures { result ≡ byte_of (mended image.now block wrong) p }
{
    let long = mended(image, block, wrong, p / 4);
    ((long >> (24 - 8 * (p % 4))) % 256) as u8
}

/// Long `i` of a block, with what is wanted in place of a wrong long.
fn mended(image: &Image, block: u32, wrong: Option<WrongLong>, i: u32) -> u32
    requires block { block < block_count image.now }
    requires place { i < BLOCK_LONGS }
    ensures { result ≡ mended image.now block wrong i }
{
    match wrong {
        None => image.long(block, i),
        Some(wrong) => {
            if i == wrong.long {
                wrong.wanted
            } else {
                image.long(block, i)
            }
        }
    }
}
