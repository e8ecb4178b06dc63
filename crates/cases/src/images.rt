//! Sketches of images, and the blocks of the largest file.

use crate::desk::serve_rows;
use crate::drawn::{checked, drawn};
use crate::fixtures::{FLOPPY, START, blank_volume};
use crate::rows::holds;
use adf_block::{BootKind, Format, Image};
use ados_check::{Sketch, accepted_kind, whole_pages};
use ados_data::blocks_of;
use ados_handler::Handler;
use std::alloc::Global;
use std::process::Abort;

/// The header has room for 72 data blocks. The longest file exceeds no number.
#[test]
fn blocks_of_files(rt: HostRuntime) {
    holds(&rt, blocks_of(Format::Ffs, 36_864) == 72, "72 data blocks");
    holds(&rt, blocks_of(Format::Ffs, 36_865) == 74, "73 data blocks");
    holds(
        &rt,
        blocks_of(Format::Ffs, u64::MAX) == 36_529_196_977_560_689,
        "the longest",
    );
}

/// The kind of the disk, if a sketch of the image shows that the image is accepted.
fn shown(rt: &impl Abort, alloc: Global, image: &Image) -> Option<BootKind> {
    prove!(image.blocks() >= 16);
    let bytes = image.as_bytes().to_vec(alloc).expect(rt, "error");
    let sketch = Sketch::new(alloc, image.blocks()).expect(rt, "error");
    let sketch = sketch.with(&bytes).expect(rt, "error");
    accepted_kind(alloc, &sketch)
}

/// Directories `A` and `DP`, and in `A` a file of 73 data blocks; the last one holds one byte.
const FILLED_OFS: &str = "\
mkdir 0 \"A\" = 1 0
mkdir 0 \"DP\" = 2 0
output 0 \"A/f\" = -1 0
size 1 35137 -1 = -1 0";

const FILLED_FFS: &str = "\
mkdir 0 \"A\" = 1 0
mkdir 0 \"DP\" = 2 0
output 0 \"A/f\" = -1 0
size 1 36865 -1 = -1 0";

/// The image of a volume `Work` of 160 blocks after the packets of these rows.
fn filled(rt: &impl Abort, alloc: Global, format: Format, rows: &str) -> Image {
    let mut handler = Handler::new(alloc, blank_volume(rt, alloc, format, 160));
    serve_rows(rt, alloc, &mut handler, START, rows);
    handler.into_volume().into_image()
}

/// Volumes of either format, with directories, an extension block and data blocks.
#[test]
fn sketch_of_a_filled_volume(rt: HostRuntime) {
    let old = filled(&rt, rt.alloc(), Format::Ofs, FILLED_OFS);
    holds(
        &rt,
        shown(&rt, rt.alloc(), &old) == Some(BootKind::Ofs),
        "OFS",
    );
    let fast = filled(&rt, rt.alloc(), Format::Ffs, FILLED_FFS);
    holds(
        &rt,
        shown(&rt, rt.alloc(), &fast) == Some(BootKind::Ffs),
        "FFS",
    );
}

/// Another kind of disk, a wrong checksum of the root, a bitmap that is not valid, and a root that is marked free.
const NOT_SHOWN: &str = "\
put 0 0 x444f5302

put 880 100 1

put 880 78 0
settle 880 5

put 881 28 xffffffff";

/// A blank floppy with each drawing is not shown as accepted.
#[test]
fn sketch_of_what_is_not_accepted(rt: HostRuntime) {
    for drawing in NOT_SHOWN.split("\n\n") {
        let image = drawn(&rt, rt.alloc(), FLOPPY, drawing);
        holds(&rt, shown(&rt, rt.alloc(), &image).is_none(), drawing);
    }
}

/// A bitmap block whose checksum is the type of a data block: the image is accepted, but its sketch lacks the block.
#[test]
fn sketch_of_a_bitmap_block_like_data(rt: HostRuntime) {
    let image = drawn(
        &rt,
        rt.alloc(),
        FLOPPY,
        "put 881 0 8\nput 881 100 xc000c02f",
    );
    holds(&rt, shown(&rt, rt.alloc(), &image).is_none(), "like data");
    checked(&rt, rt.alloc(), image);
}

/// Room below the bound is unchanged; larger room fills whole huge pages, less 32 bytes for the allocator.
#[test]
fn room_in_whole_huge_pages(rt: HostRuntime) {
    holds(&rt, whole_pages(901_121, 16_777_216) == 901_121, "below");
    holds(&rt, whole_pages(901_121, 524_288) == 2_097_120, "one page");
    holds(
        &rt,
        whole_pages(2_097_120, 524_288) == 2_097_120,
        "a whole one",
    );
    holds(
        &rt,
        whole_pages(2_097_152, 524_288) == 4_194_272,
        "two pages",
    );
    holds(
        &rt,
        whole_pages(52_020_224, 16_777_216) == 52_428_768,
        "25 pages",
    );
}
