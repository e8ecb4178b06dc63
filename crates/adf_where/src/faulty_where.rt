//! The places that name blocks of a refused image, and the faults of these blocks.
ghost use Rattle.std.specs.Prelude.{IfErr, OnOk};
ghost use Rattle.adf_block.specs.Image.{block_count};
ghost use Rattle.adf_io.specs.Prefix.{Writes};
ghost use Rattle.adf_where.specs.Faulty.{IsFaultyWhere};
ghost use Rattle.adf_where.specs.Where.{IsWhereFault, LeavesWhere};

use crate::asking::Asking;
use crate::faulty::{AskedBlocks, faulty_blocks};
use crate::faulty_text::write_faulty;
use crate::places::named_blocks;
use crate::refused::{FaultReason, refused_front};
use crate::where_fault::WhereFault;
use adf_block::Image;
use ados_faults::faults_of_any_disk;
use std::alloc::Global;
use std::io::Write;

/// Writes why an image is refused, and then which places name the blocks that arguments name, and what their faults are,
/// in any image: lines, or with `json` an object on a line of its own.
///
/// If an argument names no block, nothing is written. If the writer fails or memory runs out, a prefix of the text is written.
/// Memory holds the places that name each block once, and not the text; before that, the census of the image. Time is that of all
/// faults (`faults_of_any_disk`), and grows almost linearly with the number of blocks and the length of the text.
pub fn write_faulty_where<W: Write>(
    alloc: Global,
    image: &Image,
    asking: Asking<'_>,
    reason: FaultReason,
    writer: &mut W,
) -> Result<(), WhereFault>
    ensures ok { OnOk result (Writes (W.contents writer.old) (W.contents writer.new) (IsFaultyWhere asking.entry.json asking.entry.unread.now image.now reason.kind.now reason.block asking.entry.words.now)) }
    ensures fault { IfErr result (IsWhereFault (block_count image.now) asking.entry.words.now) }
    ensures front { IfErr result (LeavesWhere (IsFaultyWhere asking.entry.json asking.entry.unread.now image.now reason.kind.now reason.block asking.entry.words.now) (W.contents writer.old) (W.contents writer.new)) }
{
    let count = image.blocks();
    let blocks = match named_blocks(alloc, count, asking.words) {
        Ok(blocks) => blocks,
        Err(fault) => return Err(fault),
    };
    let found = faults_of_any_disk(alloc, image)?;
    let asked = AskedBlocks::of(alloc, image, &blocks)?;
    let told = faulty_blocks(alloc, image, &asked, &found.faults, asking.unread, &blocks)?;
    let front = refused_front(alloc, reason, asking.json)?;
    match write_faulty(alloc, count, &told, asking.json, &front, writer) {
        Ok(()) => Ok(()),
        Err(fault) => Err(WhereFault::from(fault)),
    }
}
