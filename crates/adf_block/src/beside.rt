//! The numbers of the disk that no tree depends on: the boot block, the positions of checksums, links, and how the
//! bitmap goes on. As in `layout`, a constant is the index of a long in its block unless its text names another unit.

// The boot blocks.
/// The kind of the disk: the bytes `DOS` and one more.
pub const KIND: u32 = 0;
/// The byte after `DOS`: 0 is the old file system, 1 the fast one.
pub const KIND_BYTE: u32 = 3;
/// The checksum of the boot blocks.
pub const BOOT_CHECKSUM: u32 = 1;

// Checksums.
/// The checksum of a block of any type but bitmap blocks and FFS data blocks.
pub const CHECKSUM: u32 = 5;
/// The checksum of a bitmap block.
pub const PAGE_CHECKSUM: u32 = 0;

// Links.
/// The secondary type of a soft link.
pub const SOFT_LINK_TYPE: u32 = 3;
/// The secondary type of a hard link to a directory.
pub const DIRECTORY_LINK_TYPE: u32 = 4;
/// The secondary type of a hard link to a file, -4.
pub const FILE_LINK_TYPE: u32 = 0xffff_fffc;

// The bitmap.
/// The number of pointers to bitmap blocks in a root.
pub const PAGE_LONGS: u32 = 25;
/// In a root: the bitmap extension block, with pointers to more bitmap blocks.
pub const BITMAP_EXTENSION: u32 = 104;
