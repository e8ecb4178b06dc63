//! What a file that is no image looks like.
ghost use Rattle.std.specs.Prelude.{◌<◌, ◌↔◌, ℕ, IsTrue, MatchOption};
ghost use Rattle.adf_block.specs.Image.{IsInside, block_count};
ghost use Rattle.adf_archive.specs.FileTypes.{BeginsAs, IsFirstRoot, LooksLikeRoot};
ghost use Rattle.adf_archive.specs.declared.file_type.FileType.{FileType};

use adf_block::Image;
use adf_block::layout::{
    BLOCK_BYTES, BOOT_BLOCKS, FEWEST_BLOCKS, HEADER_TYPE, MOST_BLOCKS, PRIMARY_TYPE, ROOT_TYPE,
    SECONDARY_TYPE, TABLE_LONGS, TABLE_SIZE,
};
use thiserror::Error;

/// A kind of file that is met under the name of an image.
#[derive(Clone, Copy, Debug, PartialEq, Eq, Error)]
pub enum FileType {
    #[error("it looks like a gzip file, which has to be unpacked first")]
    Gzip,
    #[error("it looks like a ZIP file, which has to be unpacked first")]
    Zip,
    #[error("it looks like a DMS file, which has to be unpacked first")]
    Dms,
    #[error("it looks like an IPF file, which has the tracks of a disk and not its blocks: emulators read it")]
    Ipf,
    #[error("it looks like an extended ADF file (UAE-1ADF), which has the tracks of a disk: emulators read it")]
    ExtendedAdf,
    #[error("it looks like an SCP file, which has the magnetic flux of a disk: `gw convert` of Greaseweazle makes an ADF file of it")]
    Scp,
    #[error("it looks like an HFE file, which has the bits of tracks: `gw convert` of Greaseweazle makes an ADF file of it")]
    Hfe,
    #[error("it looks like a hard disk with partitions (RDB): `rdbtool` of amitools reads it")]
    Rdb,
}

/// What a file with these first bytes looks like.
pub fn file_type_of(front: &[u8]) -> Option<FileType>
    ensures { MatchOption result ((file_type : FileType) → ¬ BeginsAs file_type front.now) (λ file_type. BeginsAs file_type front.now) }
{
    if front.starts_with(b"\x1f\x8b") {
        return Some(FileType::Gzip);
    }
    if front.starts_with(b"PK\x03\x04") {
        return Some(FileType::Zip);
    }
    if front.starts_with(b"DMS!") {
        return Some(FileType::Dms);
    }
    if front.starts_with(b"CAPS") {
        return Some(FileType::Ipf);
    }
    if front.starts_with(b"UAE-") {
        return Some(FileType::ExtendedAdf);
    }
    if front.starts_with(b"SCP") {
        return Some(FileType::Scp);
    }
    if front.starts_with(b"HXC") {
        return Some(FileType::Hfe);
    }
    if front.starts_with(b"RDSK") {
        return Some(FileType::Rdb);
    }
    None
}

/// The first bytes of a file that show its kind: sixteen blocks, one of which begins the table of a disk with partitions.
pub(crate) const FRONT_BYTES: usize = 16 * BLOCK_BYTES as usize;

/// What a file with these first bytes looks like. The table of partitions begins in one of the first sixteen blocks.
pub(crate) fn look_of(front: &[u8]) -> Option<FileType> {
    let has_table = front
        .chunks(BLOCK_BYTES as usize)
        .take(16)
        .any(|block| block.starts_with(b"RDSK"));
    match file_type_of(front) {
        None if has_table => Some(FileType::Rdb),
        file_type => file_type,
    }
}

/// The byte that all these bytes are, if they are one.
pub(crate) fn filling(bytes: &[u8]) -> Option<u8> {
    let first = *bytes.first()?;
    for byte in bytes {
        if *byte != first {
            return None;
        }
    }
    Some(first)
}

/// The first block that looks like a root, if the block where an image of this size has its root does not.
pub(crate) fn other_root(image: &Image) -> Option<u32> {
    prove!(image.blocks() >= 16);
    if looks_like_root(image, image.root()) {
        return None;
    }
    first_root(image)
}

/// The first block that looks like a root in the first bytes of a file of any length.
pub(crate) fn root_in(mut front: Vec<u8>) -> Option<u32> {
    let blocks = front.len().div_ceil(BLOCK_BYTES as usize);
    let most = blocks.clamp(FEWEST_BLOCKS as usize, MOST_BLOCKS as usize);
    front.resize(most * BLOCK_BYTES as usize, 0).ok()?;
    match Image::from_bytes(front) {
        Ok(image) => first_root(&image),
        Err(_) => None,
    }
}

/// The first block that looks like a root.
fn first_root(image: &Image) -> Option<u32>
    ensures { MatchOption result ((block : ℕ) → IsInside (block_count image.now) block → ¬ LooksLikeRoot image.now block) (IsFirstRoot image.now) }
{
    for block in BOOT_BLOCKS..image.blocks() {
        if looks_like_root(image, block) {
            return Some(block);
        }
    }
    None
}

/// Whether a block has the types, the table size and the checksum of a root.
fn looks_like_root(image: &Image, block: u32) -> bool
    requires { block < block_count image.now }
    ensures { IsTrue result ↔ LooksLikeRoot image.now block }
{
    image.long(block, PRIMARY_TYPE) == HEADER_TYPE
        && image.long(block, SECONDARY_TYPE) == ROOT_TYPE
        && image.long(block, TABLE_SIZE) == TABLE_LONGS
        && image.sum(block) == 0
}
