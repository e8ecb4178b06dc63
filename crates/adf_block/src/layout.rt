//! The position of each field in a block, the numbers for types and sizes, and the two file systems. Each number of
//! the disk is defined once, here or in `beside` (AmigaDOS Technical Reference).
//! A block has 512 bytes, or 128 big-endian longs. A constant is the index of a long in its block unless its text
//! names another unit.

/// The layout of data blocks.
#[derive(Clone, Copy, PartialEq, Eq)]
pub enum Format {
    Ofs, // The old file system: a header of 24 bytes, then 488 bytes of data.
    Ffs, // The fast file system: 512 bytes of data.
}

// The volume.
/// The fewest blocks of a volume: this project's own limit, with room for a root.
pub const FEWEST_BLOCKS: u32 = 16;
/// The most blocks of a volume: this project's own limit, the blocks that 25 bitmap blocks cover.
pub const MOST_BLOCKS: u32 = 101_602;
/// The number of boot blocks at the start of a volume.
pub const BOOT_BLOCKS: u32 = 2;
/// Bytes in a block.
pub const BLOCK_BYTES: u32 = 512;
/// Longs in a block.
pub const BLOCK_LONGS: u32 = 128;

// Blocks of any type but bitmap blocks and FFS data blocks.
/// The primary type: `HEADER_TYPE`, `DATA_TYPE` or `LIST_TYPE`.
pub const PRIMARY_TYPE: u32 = 0;
/// The block's own number. In an OFS data block it is that of the file header.
pub const OWN_KEY: u32 = 1;
/// The secondary type: `ROOT_TYPE`, `DIRECTORY_TYPE`, `FILE_TYPE` or a link type; in an extension block `FILE_TYPE`.
pub const SECONDARY_TYPE: u32 = 127;

/// The primary type of a root, directory or file header.
pub const HEADER_TYPE: u32 = 2;
/// The primary type of an OFS data block.
pub const DATA_TYPE: u32 = 8;
/// The primary type of an extension block.
pub const LIST_TYPE: u32 = 16;
/// The secondary type of a root.
pub const ROOT_TYPE: u32 = 1;
/// The secondary type of a directory.
pub const DIRECTORY_TYPE: u32 = 2;
/// The secondary type of a file, -3.
pub const FILE_TYPE: u32 = 0xffff_fffd;

// The table of a root or directory, and that of a file header or extension block.
/// Longs in a table: the slots of a directory, or the data pointers of a file.
pub const TABLE_LONGS: u32 = 72;
/// The number of slots that a root declares for its table.
pub const TABLE_SIZE: u32 = 3;
/// The first slot of a directory's table.
pub const FIRST_SLOT: u32 = 6;
/// The number of data pointers in use, in a file header or extension block.
pub const POINTER_COUNT: u32 = 2;
/// The first data pointer: the last long of the table. Later pointers are at lower longs.
pub const FIRST_POINTER: u32 = 77;

// The root.
/// The flag of a valid bitmap.
pub const BITMAP_FLAG: u32 = 78;
/// The flag's value for a valid bitmap, -1.
pub const BITMAP_VALID: u32 = 0xffff_ffff;
/// The first pointer to a bitmap block.
pub const FIRST_PAGE: u32 = 79;
/// The first of three longs: the time stamp of the last change of the disk.
pub const DISK_DATE: u32 = 118;
/// The first of three longs: the time stamp of the volume's creation.
pub const CREATION_DATE: u32 = 121;

// Entries: directories and files. A root has a time stamp and a name as well.
/// The protection bits.
pub const PROTECTION: u32 = 80;
/// The size of a file in bytes.
pub const FILE_SIZE: u32 = 81;
/// A byte: the length of the comment. The comment follows it.
pub const COMMENT_BYTE: u32 = 328;
/// The first of three longs of the time stamp: days, minutes and ticks.
pub const DATE: u32 = 105;
/// A byte: the length of the name. The name follows it.
pub const NAME_BYTE: u32 = 432;
/// The next entry of the hash chain.
pub const NEXT_IN_CHAIN: u32 = 124;
/// The directory of an entry. In an extension block it is the file header.
pub const PARENT: u32 = 125;
/// The first extension block in a file header, or the next one in an extension block.
pub const NEXT_EXTENSION: u32 = 126;

// Data blocks. FFS data blocks have no fields.
/// The number of an OFS data block in its file, from 1.
pub const SEQUENCE: u32 = 2;
/// The number of data bytes in an OFS data block.
pub const HELD: u32 = 3;
/// The first data block in a file header, or the next one in an OFS data block.
pub const NEXT_DATA: u32 = 4;
/// A byte: the start of the data in an OFS data block.
pub const OFS_DATA_BYTE: u32 = 24;
/// Data bytes that fit into an OFS data block.
pub const OFS_ROOM: u32 = 488;
/// Data bytes that fit into an FFS data block.
pub const FFS_ROOM: u32 = 512;

// Bitmap blocks.
/// The first long with bits.
pub const FIRST_MAP_LONG: u32 = 1;
/// The number of longs with bits in a bitmap block.
pub const MAP_LONGS: u32 = 127;
/// Bits in a long.
pub const LONG_BITS: u32 = 32;
/// Bits in a bitmap block.
pub const PAGE_BITS: u32 = LONG_BITS * MAP_LONGS;
