//! Volumes that the cases draw by the longs of their blocks, in rows of text.

ghost use Rattle.adf_block.specs.Whole.{IsSize};

use crate::fixtures::blank_image;
use crate::rows::{cut, long_of};
use adf_block::Image;
use adf_block::beside::*;
use adf_block::layout::*;
use ados_volume::{Volume, check};
use std::alloc::Global;
use std::process::Abort;

/// The long with the length of a name and its first three bytes.
const NAME: u32 = NAME_BYTE / 4;

/// The volume of an image that is accepted.
pub(crate) fn checked(rt: &impl Abort, alloc: Global, image: Image) -> Volume {
    check(alloc, image).ok().expect(rt, "a fault")
}

/// Writes a long of a block. A position outside the image is skipped.
pub(crate) fn put(image: &mut Image, block: u32, i: u32, value: u32) {
    if block < image.blocks() && i < BLOCK_LONGS {
        image.set_long(block, i, value);
    }
}

/// Writes the checksum of a block into this long, so that all its longs sum to 0.
pub(crate) fn settle(image: &mut Image, block: u32, sum: u32) {
    if block < image.blocks() && sum < BLOCK_LONGS {
        image.settle(block, sum);
    }
}

/// Writes a directory into a block, with this parent and this long of its name.
pub(crate) fn put_directory(image: &mut Image, block: u32, parent: u32, name: u32) {
    put(image, block, PRIMARY_TYPE, HEADER_TYPE);
    put(image, block, OWN_KEY, block);
    put(image, block, NAME, name);
    put(image, block, PARENT, parent);
    put(image, block, SECONDARY_TYPE, DIRECTORY_TYPE);
    settle(image, block, CHECKSUM);
}

/// Draws a row: `put BLOCK LONG VALUE`, `settle BLOCK LONG` for a checksum in this long, or `directory BLOCK PARENT NAME`.
fn draw_row(image: &mut Image, row: &str) {
    let (word, rest) = cut(row);
    let (block, rest) = cut(rest);
    let (second, third) = cut(rest);
    let (block, second, third) = (long_of(block), long_of(second), long_of(third));
    match word {
        "put" => put(image, block, second, third),
        "settle" => settle(image, block, second),
        _ => put_directory(image, block, second, third),
    }
}

/// Draws rows.
pub(crate) fn draw(image: &mut Image, rows: &str) {
    for row in rows.lines() {
        draw_row(image, row);
    }
}

/// The image of the blank FFS volume `Work` with this drawing.
pub(crate) fn drawn(rt: &impl Abort, alloc: Global, blocks: u32, rows: &str) -> Image
    requires { IsSize blocks }
{
    let mut image = blank_image(rt, alloc, blocks);
    draw(&mut image, rows);
    image
}
