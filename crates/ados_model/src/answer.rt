//! The answers to packets, with the descriptions of an object and of a volume.
use crate::buffer::Buffer;
use ados_name::{Comment, Date3, Name, Protect};

/// The data of an answer, next to its two results.
#[derive(Drop)]
pub enum Body {
    Empty,
    Buffer(Buffer), // The bytes of a READ or WRITE.
    Handle(u32), // The number of a new file handle.
    Entry(FileInfo), // The description of an object.
    Disk(DiskInfo), // The description of the volume.
}

/// The answer to a packet: the packet's action, two results, and data. The second result is 0 or a DOS error number.
#[derive(Drop)]
pub struct Answer {
    pub action: i32,
    pub res1: i32,
    pub res2: i32,
    pub body: Body,
}

/// What EXAMINE_OBJECT and EXAMINE_NEXT return of an object.
#[derive(Clone, Copy, PartialEq, Eq)]
pub struct FileInfo {
    pub key: u32,
    pub entry_type: i32, // 1 for the root, 2 for a directory, -3 for a file.
    pub name: Name,
    pub protection: Protect, // 0 for the root.
    pub size: u32, // The size of a file in bytes; 0 for a directory or the root.
    pub blocks: u32, // The blocks in use: its own, and the data and extension blocks of a file.
    pub date: Date3,
    pub comment: Comment, // Empty for the root.
}

/// What DISK_INFO and INFO return of a volume.
#[derive(Clone, Copy, PartialEq, Eq)]
pub struct DiskInfo {
    pub state: u32, // 80 write protected, 81 validating, 82 valid.
    pub blocks: u32, // The number of blocks after the boot blocks.
    pub used: u32, // The number of these blocks in use.
    pub bytes_per_block: u32, // The bytes of a file that fit into a data block: 488 or 512.
    pub disk_type: u32, // The DOS type: the bytes `DOS` and 0 for OFS or 1 for FFS.
}
