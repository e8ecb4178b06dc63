//! The tracks of a disk, and the blocks that arguments name in a volume.
ghost use Rattle.std.specs.Prelude.{◌≡◌, ◌<◌};
ghost use Rattle.adf_cli.specs.Blocks.{inside, named, track};

use crate::block_word::BlockWord;
use crate::floppy::{DOUBLE_TRACK, HEADS, HIGH_DENSITY, HIGH_TRACK};

/// The sectors in a track of a disk with so many blocks.
pub fn track(blocks: u32) -> u32
    ensures value { result ≡ track blocks }
    ensures some { 0 < result }
    ensures short { result < 23 }
{
    if blocks == HIGH_DENSITY {
        HIGH_TRACK
    } else {
        DOUBLE_TRACK
    }
}

/// The block that an argument names in a volume with so many blocks.
pub fn volume_block(blocks: u32, word: BlockWord) -> Option<u32>
    ensures { result ≡ named blocks word }
{
    match word {
        BlockWord::Number(number) => inside(blocks, u64::from(number)),
        BlockWord::Sector {
            cylinder,
            head,
            sector,
        } => {
            let track = track(blocks);
            if head >= HEADS || sector >= track {
                return None;
            }
            let above = u64::from(HEADS) * u64::from(cylinder) + u64::from(head);
            inside(blocks, u64::from(track) * above + u64::from(sector))
        }
    }
}

/// A number, if a volume with so many blocks has such a block.
fn inside(blocks: u32, number: u64) -> Option<u32>
    ensures { result ≡ inside blocks number }
{
    if number < u64::from(blocks) {
        Some(number as u32)
    } else {
        None
    }
}
