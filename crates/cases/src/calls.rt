//! Calls that no packet makes: a block that is borrowed for writing, the lowest free block, checksums that were wrong, the
//! census, classes of blocks, and hash chains that are asked whether they are empty.

ghost use Rattle.std.specs.Prelude.{◌<◌, IsTrue};
ghost use Rattle.adf_block.specs.Image.{block_count};
ghost use Rattle.ados_map.specs.Pages.{LawfulPages};

use crate::desk::serve_line;
use crate::drawn::{put, settle};
use crate::fixtures::{FLOPPY, START, blank_handler, blank_image, work};
use crate::rows::{Table, cut, expect_rows, holds, long_of};
use adf_block::Image;
use adf_block::layout::{BOOT_BLOCKS, FIRST_PAGE, PAGE_BITS};
use ados_census::{
    BlockKind, Place, PlaceKind, WrongLong, class_as, class_of, is_sound_as, looks_like, places_of,
    reached_blocks, take_census,
};
use ados_chain::is_empty;
use ados_map::{count_free, give_back, is_free, take_first};
use ados_volume::Volume;
use std::alloc::Global;
use std::process::Abort;

/// Writes the last byte of the first long of the bitmap block of a blank floppy.
fn write_byte(image: &mut Image) {
    if 881 < image.blocks() {
        image.block_mut(881)[3] = 0x38;
    }
}

/// The sum of the longs of the bitmap block.
fn bitmap_sum(image: &Image) -> Option<u32> {
    if 881 < image.blocks() {
        Some(image.sum(881))
    } else {
        None
    }
}

/// The checksum of the bitmap block is wrong after a written byte, and is then settled.
#[test]
fn blocks(rt: HostRuntime) {
    let mut image = blank_image(&rt, rt.alloc(), FLOPPY);
    write_byte(&mut image);
    holds(&rt, bitmap_sum(&image) == Some(1), "written");
    settle(&mut image, 881, 0);
    holds(&rt, bitmap_sum(&image) == Some(0), "settled");
    let was = blank_image(&rt, rt.alloc(), FLOPPY);
    holds(
        &rt,
        image.into_bytes().as_slice() == was.as_bytes(),
        "as before",
    );
}

/// Whether the volume has one bitmap block, which is inside it and not the root.
fn has_one_bitmap_block(image: &Image) -> bool
    ensures { IsTrue result → LawfulPages image.now }
{
    let blocks = image.blocks();
    let root = image.root();
    let page = image.long(root, FIRST_PAGE);
    blocks <= BOOT_BLOCKS + PAGE_BITS && BOOT_BLOCKS <= page && page < blocks && page != root
}

/// The lowest free block of a blank floppy is taken, and given back.
fn expect_first_free(rt: &impl Abort, image: &mut Image) {
    assert!(rt; has_one_bitmap_block(image) && image.blocks() == FLOPPY);
    holds(rt, count_free(image) == 1_756, "blank");
    holds(rt, take_first(image) == Some(2), "first");
    holds(rt, take_first(image) == Some(3), "second");
    holds(rt, count_free(image) == 1_754, "two taken");
    give_back(image, 2);
    holds(rt, is_free(image, 2) && !is_free(image, 3), "given back");
    holds(rt, take_first(image) == Some(2), "first again");
}

#[test]
fn first_free(rt: HostRuntime) {
    expect_first_free(&rt, &mut blank_image(&rt, rt.alloc(), FLOPPY));
}

/// A bit that changes makes a wrong checksum of the bitmap block right.
fn expect_right_bitmap_sums(rt: &impl Abort, image: &mut Image) {
    put(image, 881, 0, 1);
    holds(rt, bitmap_sum(image) != Some(0), "wrong");
    assert!(rt; has_one_bitmap_block(image) && image.blocks() == FLOPPY);
    holds(rt, take_first(image) == Some(2), "taken");
    holds(rt, bitmap_sum(image) == Some(0), "right when taken");
    put(image, 881, 0, 1);
    holds(rt, bitmap_sum(image) != Some(0), "wrong again");
    assert!(rt; has_one_bitmap_block(image) && image.blocks() == FLOPPY);
    give_back(image, 2);
    holds(rt, bitmap_sum(image) == Some(0), "right when given back");
}

#[test]
fn right_bitmap_sums(rt: HostRuntime) {
    expect_right_bitmap_sums(&rt, &mut blank_image(&rt, rt.alloc(), FLOPPY));
}

/// The number of the naming by which the root names the bitmap block of a blank floppy: long 79 of block 880.
const BITMAP_NAMING: u32 = 112_719;

/// Only the root names the bitmap block of a blank floppy, and no block names the root.
fn expect_one_naming(rt: &impl Abort, alloc: Global, image: &Image) {
    let census = take_census(alloc, image).expect(rt, "memory");
    assert!(rt; 881 < image.blocks());
    let namings = census.namings_of(881);
    holds(rt, namings.len() == 1, "one naming");
    holds(rt, namings.first() == Some(&BITMAP_NAMING), "by the root");
    holds(rt, census.namings_of(880).is_empty(), "the root");
}

#[test]
fn namings_of_a_blank_floppy(rt: HostRuntime) {
    let image = blank_image(&rt, rt.alloc(), FLOPPY);
    expect_one_naming(&rt, rt.alloc(), &image);
}

/// Of the blocks of a blank floppy, the root and the bitmap block are reached. The only place that names the bitmap block is
/// long 79 of the root, and no place names the root.
fn expect_one_place(rt: &impl Abort, alloc: Global, image: &Image) {
    let census = take_census(alloc, image).expect(rt, "memory");
    let reached = reached_blocks(alloc, image).expect(rt, "memory");
    assert!(rt; 882 < image.blocks());
    holds(rt, reached.has(880) && reached.has(881), "reached");
    holds(rt, !reached.has(879) && !reached.has(882), "not reached");
    let of_root = places_of(alloc, &census, &reached, 880).expect(rt, "memory");
    holds(rt, of_root.is_empty(), "the root");
    let of_page = places_of(alloc, &census, &reached, 881).expect(rt, "memory");
    holds(rt, of_page.len() == 1, "one place");
    holds(rt, is_first_page(&of_page), "by the root");
}

/// Whether the first place is that of the first bitmap block in the root of a floppy.
fn is_first_page(places: &[Place]) -> bool {
    match places.first() {
        Some(place) => place.holder == 880 && place.long == 79 && place.kind == PlaceKind::Page,
        None => false,
    }
}

#[test]
fn places_of_a_blank_floppy(rt: HostRuntime) {
    let image = blank_image(&rt, rt.alloc(), FLOPPY);
    expect_one_place(&rt, rt.alloc(), &image);
}

/// Block 882 of a blank floppy, of which each turn changes one long.
#[derive(Drop)]
struct Changed {
    image: Image,
}

impl Table for Changed {
    fn is_right<R: Abort>(&mut self, _rt: &R, turn: &str, wanted: &str) -> bool {
        let (long, value) = cut(turn);
        put(&mut self.image, 882, long_of(long), long_of(value));
        let (kind, wrong) = cut(wanted);
        882 < self.image.blocks() && has_class(&self.image, kind, wrong)
    }
}

/// Whether block 882 has this class, and as this kind the same wrong long; if it has none, the block is sound and looks so.
fn has_class(image: &Image, kind: &str, wrong: &str) -> bool
    requires { 882 < block_count image.now }
{
    match class_of(image, 882) {
        None => kind == "none",
        Some(class) => {
            kind_word(class.kind) == kind
                && is_wrong_long(class.wrong, wrong)
                && class_as(image, 882, class.kind) == Some(class)
                && is_sound_as(image, 882, class.kind) == class.wrong.is_none()
                && (class.wrong.is_some() || looks_like(image, 882, class.kind))
        }
    }
}

/// The word for a kind of block.
fn kind_word(kind: BlockKind) -> &'static str {
    match kind {
        BlockKind::FileHeader => "file",
        BlockKind::DirectoryHeader => "directory",
        BlockKind::Extension => "extension",
        BlockKind::OfsData => "data",
        BlockKind::Bitmap => "bitmap",
    }
}

/// Whether a wrong long is that of a text: its index and what it should hold.
fn is_wrong_long(wrong: Option<WrongLong>, text: &str) -> bool {
    let (long, wanted) = cut(text);
    match wrong {
        None => text.is_empty(),
        Some(wrong) => wrong.long == long_of(long) && wrong.wanted == long_of(wanted),
    }
}

/// An empty block, the header of a file `a`, of a directory, an extension block and an OFS data block, each made long by
/// long and damaged. The sums are worked out by hand.
const CLASSES: &str = "\
0 0 = bitmap
0 2 = none
1 882 = none
108 x01610000 = none
127 xfffffffd = file 5 xfe9efc8f
5 xfe9efc8f = file
0 3 = file 0 2
1 883 = none
0 2 = file 1 882
1 882 = file
108 x012f0000 = file 108 x01610000
108 x81610000 = file 108 x01610000
108 x01610000 = file
82 x50000000 = file 82 0
82 0 = file
127 2 = file 127 xfffffffd
5 xfe9efc8a = directory
0 16 = directory 0 2
2 1 = none
125 883 = none
127 xfffffffd = extension 5 xfe9ef90d
5 xfe9ef90d = extension
125 1760 = extension 125 883
125 883 = extension
2 73 = extension 2 1
2 1 = extension
0 8 = extension 0 16
1 883 = data 3 7
3 488 = data 5 xfe9ef72c
5 xfe9ef72c = data
3 489 = data 3 488";

#[test]
fn classes_of_a_block(rt: HostRuntime) {
    let image = blank_image(&rt, rt.alloc(), FLOPPY);
    assert!(rt; 1 < image.blocks());
    holds(&rt, class_of(&image, 1).is_none(), "a boot block");
    expect_rows(&rt, &mut Changed { image }, CLASSES);
}

/// Whether the root has no entries, by its hash chains alone.
fn has_empty_root(volume: Volume) -> bool {
    let dir = volume.root();
    is_empty(&volume.into_image(), dir)
}

#[test]
fn empty_chains(rt: HostRuntime) {
    holds(&rt, has_empty_root(work(&rt, rt.alloc(), FLOPPY)), "blank");
    let mut handler = blank_handler(&rt, rt.alloc());
    serve_line(&rt, rt.alloc(), &mut handler, START, "mkdir 0 \"d\"");
    holds(&rt, !has_empty_root(handler.into_volume()), "a directory");
}
