//! Who owns the blocks that arguments name.
ghost use Rattle.std.specs.Prelude.{◌<◌, All, IfErr, OnErr, OnOk};
ghost use Rattle.adf_block.specs.Image.{block_count};
ghost use Rattle.ados_model.specs.Stands.{Stands};
ghost use Rattle.ados_model.specs.Tree.{Tree};
ghost use Rattle.ados_volume.specs.Owners.{AreOwners};
ghost use Rattle.adf_io.specs.Prefix.{Writes, WritesFrontOf};
ghost use Rattle.adf_where.specs.Where.{IsWhere, IsWhereFault, LeavesWhere};
ghost use Rattle.adf_where.specs.steps.Parts.{IsTextOf};

use crate::asking::Asking;
use crate::forms::{closing, opening, push_told};
use crate::owned::owned_block;
use crate::places::named_blocks;
use crate::where_fault::WhereFault;
use adf_io::{PrintFault, write_text, write_when_long};
use ados_volume::{Owner, Volume, owners};
use std::alloc::Global;
use std::io::Write;

/// Writes who owns the blocks that arguments name: a line for each block, and another one if it could not be read; or with `json` an
/// array of objects on a line of its own. A block is written before the next one is looked up.
///
/// If an argument names no block, nothing is written. If the writer fails or memory runs out, a prefix of the text is written.
pub fn write_where<W: Write>(
    alloc: Global,
    volume: &Volume,
    asking: Asking<'_>,
    writer: &mut W,
) -> Result<(), WhereFault>
    ensures ok { OnOk result ((t : Tree) → Stands volume.now.image t
        → Writes (W.contents writer.old) (W.contents writer.new) (IsWhere asking.entry.json asking.entry.unread.now volume.now.image t asking.entry.words.now)) }
    ensures fault { IfErr result (IsWhereFault (block_count volume.now.image) asking.entry.words.now) }
    ensures front { IfErr result (λ fault. (t : Tree) → Stands volume.now.image t
        → LeavesWhere (IsWhere asking.entry.json asking.entry.unread.now volume.now.image t asking.entry.words.now) (W.contents writer.old) (W.contents writer.new) fault) }
{
    let count = volume.image().blocks();
    let blocks = match named_blocks(alloc, count, asking.words) {
        Ok(blocks) => blocks,
        Err(fault) => return Err(fault),
    };
    let owners = owners(alloc, volume)?;
    match write_owned(alloc, volume, &owners, &blocks, asking, writer) {
        Ok(()) => Ok(()),
        Err(fault) => Err(WhereFault::from(fault)),
    }
}

/// Writes these blocks with their owners.
fn write_owned<W: Write>(
    alloc: Global,
    volume: &Volume,
    owners: &[Owner],
    blocks: &[u32],
    asking: Asking<'_>,
    writer: &mut W,
) -> Result<(), PrintFault>
    requires owners { (t : Tree) → Stands volume.now.image t → AreOwners volume.now.image t owners.now }
    requires inside { All (λ block. block < block_count volume.now.image) blocks.now }
    ensures ok { OnOk result ((t : Tree) → Stands volume.now.image t
        → Writes (W.contents writer.old) (W.contents writer.new) (IsTextOf asking.entry.json asking.entry.unread.now t owners.now blocks.now)) }
    ensures front { OnErr result ((t : Tree) → Stands volume.now.image t
        → WritesFrontOf (W.contents writer.old) (W.contents writer.new) (IsTextOf asking.entry.json asking.entry.unread.now t owners.now blocks.now)) }
{
    let count = volume.image().blocks();
    let mut text = Vec::from_slice(alloc, opening(asking.json))?;
    for place in 0..blocks.len() {
        let told = owned_block(alloc, volume, owners, asking.unread, blocks[place])?;
        push_told(alloc, &mut text, count, &told, asking.json, place == 0)?;
        write_when_long(&mut text, writer)?;
    }
    text.extend_from_slice(closing(asking.json))?;
    write_text(text.as_slice(), writer)
}
