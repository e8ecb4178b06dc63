//! The data blocks of a file.
ghost use Rattle.std.specs.Prelude.{◌≡◌, ◌<◌, ◌-◌, ◌*◌, ◌↔◌, min, IsTrue, MatchBool};
ghost use Rattle.adf_block.specs.Image.{block_count, long};
ghost use Rattle.adf_block.specs.Fields.{file_size, format_of};
ghost use Rattle.adf_block.specs.declared.layout.Format.TheVariants.{Ofs};
ghost use Rattle.ados_model.specs.Stands.{HasOfsData};
ghost use Rattle.ados_salvage.specs.Sound.{own_blocks};
ghost use Rattle.ados_salvage.specs.Doubtful.{IsOwnData};
ghost use Rattle.ados_salvage.specs.Holders.{HasHolders};
ghost use Rattle.ados_salvage.specs.steps.Parts.{HasData, IsDataBlock};

use crate::known::holders::data_needed;
use adf_block::layout::{BOOT_BLOCKS, FILE_SIZE, HELD, NEXT_DATA, OFS_ROOM, OWN_KEY, SEQUENCE};
use adf_block::{Format, Image};
use ados_census::{BlockKind, looks_like};

/// Whether the data blocks of a file have the right fields for their positions. `blocks` are all blocks that its pointers name.
pub(crate) fn has_data(image: &Image, file: u32, blocks: &[u32]) -> bool
    requires holders { HasHolders image.now file }
    requires blocks { blocks.now ≡ own_blocks image.now file }
    ensures { MatchBool result (HasData image.now file) (¬ HasData image.now file) }
{
    let needed = data_needed(image, file);
    let first = blocks.len() - needed as usize;
    let mut before = file;
    for i in 0..needed {
        let block = blocks[first + i as usize];
        if !is_data(image, file, i, before, block) {
            return false;
        }
        before = block;
    }
    is_last(image, before)
}

/// Whether no data block follows. Only OFS has links between data blocks.
fn is_last(image: &Image, block: u32) -> bool
    requires { block < block_count image.now }
    ensures { IsTrue result ↔ (format_of image.now ≡ Ofs → long image.now block NEXT_DATA ≡ 0) }
{
    match image.format() {
        Format::Ofs => image.long(block, NEXT_DATA) == 0,
        Format::Ffs => true,
    }
}

/// Whether a block can be data block `i` of a file, after the block before it.
fn is_data(image: &Image, file: u32, i: u32, before: u32, block: u32) -> bool
    requires file { file < block_count image.now }
    requires before { before < block_count image.now }
    ensures { IsTrue result ↔ IsDataBlock image.now file i before block }
{
    if block < BOOT_BLOCKS || block >= image.blocks() {
        return false;
    }
    match image.format() {
        Format::Ofs => image.long(before, NEXT_DATA) == block && is_ofs_data(image, file, i, block),
        Format::Ffs => true,
    }
}

/// Whether a block has the fields of OFS data block `i` of a file.
fn is_ofs_data(image: &Image, file: u32, i: u32, block: u32) -> bool
    requires file { file < block_count image.now }
    requires block { block < block_count image.now }
    ensures { IsTrue result ↔ HasOfsData image.now file (file_size image.now file) i block }
{
    is_own_data(image, file, i, block)
        && u64::from(image.long(block, HELD)) == held_in(image.long(file, FILE_SIZE), i)
        && image.sum(block) == 0
}

/// Whether a block says that it is OFS data block `i` of a file, whatever its checksum is.
pub fn is_own_data(image: &Image, file: u32, i: u32, block: u32) -> bool
    requires { block < block_count image.now }
    ensures { IsTrue result ↔ IsOwnData image.now file i block }
{
    image.long(block, OWN_KEY) == file
        && u64::from(image.long(block, SEQUENCE)) == u64::from(i) + 1
        && looks_like(image, block, BlockKind::OfsData)
}

/// The number of data bytes in OFS data block `i` of a file with this size.
fn held_in(size: u32, i: u32) -> u64
    ensures { result ≡ min OFS_ROOM (size - OFS_ROOM * i) }
{
    u64::from(size)
        .saturating_sub(u64::from(OFS_ROOM) * u64::from(i))
        .min(u64::from(OFS_ROOM))
}
