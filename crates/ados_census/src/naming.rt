//! One long, as a naming.
ghost use Rattle.std.specs.Prelude.{◌≡◌, ◌<◌, ◌*◌, ◌==◌, ◌||◌};
ghost use Rattle.adf_block.specs.declared.layout.TheConstants.{BLOCK_LONGS, DIRECTORY_TYPE};
ghost use Rattle.adf_block.specs.Fields.{secondary_type};
ghost use Rattle.adf_block.specs.Image.{block_count};
ghost use Rattle.ados_model.specs.Faults.{root_of};
ghost use Rattle.ados_census.specs.steps.Below.{is_inside, is_link, is_page_long, is_pointer, is_slot, may_name, named_at, named_by};

use adf_block::layout::{
    BLOCK_LONGS, BOOT_BLOCKS, DIRECTORY_TYPE, FIRST_PAGE, FIRST_POINTER, FIRST_SLOT,
    NEXT_EXTENSION, NEXT_IN_CHAIN, POINTER_COUNT, SECONDARY_TYPE, TABLE_LONGS,
};
use adf_block::{Image, page_count};

/// The block that the naming with a number names, or `None` if no naming has the number. It is that of the long over all
/// blocks.
pub(crate) fn named_at(image: &Image, number: u32) -> Option<u32>
    requires { number < BLOCK_LONGS * block_count image.now }
    ensures { result ≡ named_at image.now number }
{
    named_by(image, number / BLOCK_LONGS, number % BLOCK_LONGS)
}

/// The block that a long of a holder names, or `None` if the long is no naming.
#[tactic(auto, unfolding(crate::specs::steps::Below::named_by))]
fn named_by(image: &Image, holder: u32, i: u32) -> Option<u32>
    requires block { holder < block_count image.now }
    requires long { i < BLOCK_LONGS }
    ensures { result ≡ named_by image.now holder i }
{
    let named = image.long(holder, i);
    if named < image.blocks() && is_inside(image, holder) && may_name(image, holder, i) {
        Some(named)
    } else {
        None
    }
}

/// Whether a block is inside the image, after the boot blocks.
fn is_inside(image: &Image, block: u32) -> bool
    ensures { result ≡ is_inside image.now block }
{
    BOOT_BLOCKS <= block && block < image.blocks()
}

/// Whether a long may name a block: as one of the root, of an entry or of an extension block.
fn may_name(image: &Image, block: u32, i: u32) -> bool
    requires block { block < block_count image.now }
    requires long { i < BLOCK_LONGS }
    ensures { result ≡ may_name image.now block i }
{
    is_link(image, block, i) || is_pointer(image, block, i) || is_page_long(image, block, i)
}

/// Whether a long leads to another entry or extension block.
fn is_link(image: &Image, block: u32, i: u32) -> bool
    requires block { block < block_count image.now }
    requires long { i < BLOCK_LONGS }
    ensures { result ≡ is_link image.now block i }
{
    (i == NEXT_IN_CHAIN || i == NEXT_EXTENSION || is_slot(image, block, i))
        && image.long(block, i) != 0
}

/// Whether a long is a data pointer in use. A count of more than 72 means that none is.
fn is_pointer(image: &Image, block: u32, i: u32) -> bool
    requires block { block < block_count image.now }
    ensures { result ≡ is_pointer image.now block i }
{
    let count = image.long(block, POINTER_COUNT);
    i <= FIRST_POINTER && FIRST_POINTER - i < count && count <= TABLE_LONGS
}

/// Whether a long is a slot of the hash table of the root or of a directory.
fn is_slot(image: &Image, block: u32, i: u32) -> bool
    requires block { block < block_count image.now }
    ensures { result ≡ is_slot image.now block i }
{
    FIRST_SLOT <= i && i <= FIRST_POINTER && has_table(image, block)
}

/// Whether a block has a hash table: a directory, or the root.
fn has_table(image: &Image, block: u32) -> bool
    requires block { block < block_count image.now }
    ensures { result ≡ ((secondary_type image.now block == DIRECTORY_TYPE) || (block == root_of image.now)) }
{
    image.long(block, SECONDARY_TYPE) == DIRECTORY_TYPE || block == image.root()
}

/// Whether a long is a pointer of the root to a bitmap block.
fn is_page_long(image: &Image, block: u32, i: u32) -> bool
    ensures { result ≡ is_page_long image.now block i }
{
    block == image.root() && FIRST_PAGE <= i && i - FIRST_PAGE < page_count(image.blocks())
}
