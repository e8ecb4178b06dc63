//! Files that are read, written, truncated and extended by the calls of their blocks alone.

ghost use Rattle.std.specs.Prelude.{◌≡◌, IfSome, IsTrue, length};
ghost use Rattle.ados_model.specs.File.{LawfulFile, contents};
ghost use Rattle.ados_model.specs.Keys.{HasFileKey};
ghost use Rattle.ados_data.specs.Changing.{HasFree, WritableFile};

use crate::drawn::{checked, drawn};
use crate::fixtures::FLOPPY;
use crate::rows::{cut, holds, long_of};
use adf_block::Image;
use adf_block::beside::CHECKSUM;
use adf_block::layout::MOST_BLOCKS;
use ados_data::{blocks_of, extend, format_of, read_at, write_at};
use ados_map::count_free;
use ados_name::PathText;
use ados_volume::Volume;
use std::alloc::Global;
use std::process::Abort;

/// A file `f` of 600 bytes in the root. Its header is block 2, its data blocks are 3 and 4. Its bytes 508 to 511 are
/// `0123`, 512 to 515 are `4567`, and 596 to 599 are `89AB`. The bytes after the last one do not belong to the file.
const FILE_OF_600_BYTES: &str = "\
put 880 17 2
settle 880 5
put 881 1 xfffffff8
settle 881 0
directory 2 880 x01660000
put 2 2 2
put 2 4 3
put 2 76 4
put 2 77 3
put 2 81 600
put 2 127 xfffffffd
settle 2 5
put 3 127 x30313233
put 4 0 x34353637
put 4 21 x38394142
put 4 22 xffffffff";

fn file_of_600_bytes(rt: &impl Abort, alloc: Global) -> Volume {
    checked(rt, alloc, drawn(rt, alloc, FLOPPY, FILE_OF_600_BYTES))
}

/// The size in bytes of a file of fewer than 1,024 bytes.
fn size_of(image: &Image, file: u32) -> Option<u32>
    requires { LawfulFile image.now file }
    ensures { IfSome result (λ size. size ≡ length (contents image.now file)) }
{
    let mut bytes = [0_u8; 1_024];
    let size = read_at(image, file, 0, &mut bytes);
    if size < 1_024 {
        Some(size as u32)
    } else {
        None
    }
}

/// Whether a file of this size fits.
fn has_room(image: &Image, file: u32, size: u64) -> bool
    requires { WritableFile image.now file }
    ensures { IsTrue result → HasFree image.now file size }
{
    blocks_of(format_of(image), size) <= count_free(image) as u64
}

fn write(image: &mut Image, file: u32, pos: u32, bytes: &[u8])
    requires { WritableFile image.old file }
    ensures { WritableFile image.new file }
{
    if let Some(size) = size_of(image, file)
        && pos <= size
        && has_room(
            image,
            file,
            (size as u64).max(pos as u64 + bytes.len() as u64),
        )
    {
        write_at(image, file, pos as u64, bytes);
    }
}

fn cut_to(image: &mut Image, file: u32, size: u32)
    requires { WritableFile image.old file }
    ensures { WritableFile image.new file }
{
    if let Some(old) = size_of(image, file)
        && size <= old
    {
        ados_data::cut(image, file, size);
    }
}

fn extend_to(image: &mut Image, file: u32, size: u32)
    requires { WritableFile image.old file }
    ensures { WritableFile image.new file }
{
    if let Some(old) = size_of(image, file)
        && old <= size
        && has_room(image, file, size as u64)
    {
        extend(image, file, size);
    }
}

/// Whether so many of four bytes are read from this position on, and these are the four then; `.` is one that stays.
fn reads(image: &Image, file: u32, pos: u32, count: usize, wanted: &[u8; 4]) -> bool
    requires { LawfulFile image.now file }
{
    let mut bytes = *b"....";
    read_at(image, file, pos as u64, &mut bytes) == count && bytes == *wanted
}

/// The file `f` in the root.
fn file(rt: &impl Abort, volume: &mut Volume) -> u32
    ensures { HasFileKey volume.new.image result }
{
    let path = PathText::new(b"f").expect(rt, "a path");
    let Ok(key) = volume.walk(volume.root(), &path) else {
        panic!(rt; "no entry");
    };
    assert!(rt; volume.is_file(key));
    key
}

/// No position after the end has a byte.
fn expect_end(rt: &impl Abort, image: &Image, file: u32)
    requires { LawfulFile image.now file }
{
    holds(rt, reads(image, file, 598, 2, b"AB.."), "the last bytes");
    holds(rt, reads(image, file, 600, 0, b"...."), "the end");
    holds(
        rt,
        reads(image, file, u32::MAX, 0, b"...."),
        "far behind it",
    );
}

/// Added bytes are zeros, whatever the last block held before.
fn expect_changes(rt: &impl Abort, image: &mut Image, file: u32)
    requires { WritableFile image.old file }
{
    write(image, file, 0, b"0123456789");
    cut_to(image, file, 10);
    write(image, file, 8, b"abcd");
    holds(rt, reads(image, file, 7, 4, b"7abc"), "written");
    holds(rt, reads(image, file, 10, 2, b"cd.."), "past the end");
    cut_to(image, file, 1);
    extend_to(image, file, 600);
    holds(rt, reads(image, file, 0, 4, b"0\0\0\0"), "extended");
    holds(rt, reads(image, file, 596, 4, b"\0\0\0\0"), "to the end");
    holds(rt, size_of(image, file) == Some(600), "600 bytes");
}

/// Makes the checksum of the header wrong.
fn spoil(image: &mut Image, file: u32)
    requires { WritableFile image.old file }
    ensures { WritableFile image.new file }
{
    prove!(image.blocks() <= MOST_BLOCKS);
    let sum = image.long(file, CHECKSUM);
    image.set_long(file, CHECKSUM, sum.wrapping_add(1));
}

/// The sum of the longs of the header, 0 if its checksum is right.
fn header_sum(image: &Image, file: u32) -> u32
    requires { WritableFile image.now file }
{
    image.sum(file)
}

/// Changes a file as a row says: `write`, `extend` or `cut`, and a number of bytes.
fn change(image: &mut Image, file: u32, row: &str)
    requires { WritableFile image.old file }
    ensures { WritableFile image.new file }
{
    let (word, size) = cut(row);
    let size = long_of(size);
    match word {
        "write" => write(image, file, size, b"0123"),
        "extend" => extend_to(image, file, size),
        _ => cut_to(image, file, size),
    }
}

/// Changes of a file of 600 bytes that change its size, and so its header.
const CHANGES: &str = "\
write 598
extend 1000
cut 700
cut 0
write 0
extend 900";

/// The checksum of the header is right after each change, though it was wrong before.
fn expect_right_header_sums(rt: &impl Abort, image: &mut Image, file: u32)
    requires { WritableFile image.old file }
{
    for row in CHANGES.lines() {
        spoil(image, file);
        holds(rt, header_sum(image, file) == 1, "wrong");
        change(image, file, row);
        holds(rt, header_sum(image, file) == 0, row);
    }
}

#[test]
fn read_at_the_end(rt: HostRuntime) {
    let mut volume = file_of_600_bytes(&rt, rt.alloc());
    let file = file(&rt, &mut volume);
    let mut bytes = *b"....";
    let count = volume.read(file, 598, &mut bytes);
    holds(&rt, count == 2 && bytes == *b"AB..", "the last bytes");
    holds(
        &rt,
        volume.read(file, u64::MAX, &mut bytes) == 0,
        "far behind",
    );
    expect_end(&rt, volume.image(), file);
}

#[test]
fn changed_file(rt: HostRuntime) {
    let mut volume = file_of_600_bytes(&rt, rt.alloc());
    let file = file(&rt, &mut volume);
    let mut image = volume.into_image();
    expect_changes(&rt, &mut image, file);
}

#[test]
fn right_header_sums(rt: HostRuntime) {
    let mut volume = file_of_600_bytes(&rt, rt.alloc());
    let file = file(&rt, &mut volume);
    let mut image = volume.into_image();
    expect_right_header_sums(&rt, &mut image, file);
}
