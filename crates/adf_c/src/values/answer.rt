//! The answers for C.

ghost use Rattle.std.specs.Prelude.{◌≡◌, ◌≤◌, length};
ghost use Rattle.adf_c.specs.Answers.{cells_of, disk_of as disk_told, entry_of as entry_told, told_disk, told_entry, told_handle, told_of};

use crate::values::date::JipDate;
use ados_model::{Answer, Body, DiskInfo, FileInfo};

/// The answer to a packet. Fields that the packet does not set are 0.
#[repr(C)]
#[derive(Clone, Copy)]
pub struct JipAnswer {
    pub res1: i32,
    /// 0, or a DOS error number.
    pub res2: i32,
    /// The number of a new file handle.
    pub handle: u32,
    pub entry: JipEntry,
    pub disk: JipDisk,
}

/// The result of EXAMINE_OBJECT and EXAMINE_NEXT. Each text has its length next to it, and zeros after it.
#[repr(C)]
#[derive(Clone, Copy)]
pub struct JipEntry {
    pub key: u32,
    /// 1 for the root, 2 for a directory, -3 for a file.
    pub entry_type: i32,
    pub protection: u32,
    /// The size of a file in bytes; 0 for a directory.
    pub size: u32,
    pub blocks: u32,
    pub date: JipDate,
    pub name_length: u32,
    pub comment_length: u32,
    pub name: [u8; 32],
    pub comment: [u8; 80],
}

/// The result of DISK_INFO and INFO.
#[repr(C)]
#[derive(Clone, Copy)]
pub struct JipDisk {
    /// 80 write protected, 81 validating, 82 valid.
    pub state: u32,
    pub blocks: u32,
    pub used: u32,
    pub bytes_per_block: u32,
    pub disk_type: u32,
}

impl JipAnswer {
    /// The answer for C, without the bytes of a READ.
    pub fn of(answer: &Answer) -> JipAnswer
        ensures { result ≡ told_of answer.now }
    {
        JipAnswer {
            res1: answer.res1,
            res2: answer.res2,
            handle: handle_of(&answer.body),
            entry: entry_of(&answer.body),
            disk: disk_of(&answer.body),
        }
    }
}

fn handle_of(body: &Body) -> u32
    ensures { result ≡ told_handle body.now }
{
    match body {
        Body::Handle(number) => *number,
        _ => 0,
    }
}

fn entry_of(body: &Body) -> JipEntry
    ensures { result ≡ told_entry body.now }
{
    match body {
        Body::Entry(info) => JipEntry::of(info),
        _ => JipEntry::nothing(),
    }
}

fn disk_of(body: &Body) -> JipDisk
    ensures { result ≡ told_disk body.now }
{
    match body {
        Body::Disk(info) => JipDisk::of(info),
        _ => JipDisk::nothing(),
    }
}

impl JipEntry {
    fn of(info: &FileInfo) -> JipEntry
        ensures { result ≡ entry_told info.now }
    {
        let (name, comment) = (info.name.bytes(), info.comment.bytes());
        JipEntry {
            key: info.key,
            entry_type: info.entry_type,
            protection: info.protection.bits(),
            size: info.size,
            blocks: info.blocks,
            date: JipDate::of(info.date),
            name_length: name.len() as u32,
            comment_length: comment.len() as u32,
            name: cells(name),
            comment: cells(comment),
        }
    }

    #[rattlefmt::skip]
    fn nothing() -> JipEntry
        ensures { result ≡ told_entry Body.Empty }
    {
        JipEntry {
            key: 0, entry_type: 0, protection: 0, size: 0, blocks: 0,
            date: JipDate { days: 0, minutes: 0, ticks: 0 },
            name_length: 0, comment_length: 0, name: [0; 32], comment: [0; 80],
        }
    }
}

impl JipDisk {
    fn of(info: &DiskInfo) -> JipDisk
        ensures { result ≡ disk_told info.now }
    {
        JipDisk {
            state: info.state,
            blocks: info.blocks,
            used: info.used,
            bytes_per_block: info.bytes_per_block,
            disk_type: info.disk_type,
        }
    }

    #[rattlefmt::skip]
    fn nothing() -> JipDisk
        ensures { result ≡ told_disk Body.Empty }
    {
        JipDisk { state: 0, blocks: 0, used: 0, bytes_per_block: 0, disk_type: 0 }
    }
}

/// A text in cells, with zeros after it.
pub(crate) fn cells<const N: usize>(text: &[u8]) -> [u8; N]
    requires { length text.now ≤ N }
    ensures { result ≡ cells_of N text.now }
{
    let mut cells = [0; N];
    cells[..text.len()].copy_from_slice(text);
    cells
}
