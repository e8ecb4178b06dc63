//! The blocks that are accounted for, as marks: one function for each kind.
ghost use Rattle.std.specs.Prelude.{◌≡◌, ◌⊎◌, ◌<◌, ◌-◌, ◌/◌, length, All, IfOk};
ghost use Rattle.adf_block.specs.Image.{block_count};
ghost use Rattle.ados_model.specs.Faults.{root_of};
ghost use Rattle.ados_model.specs.File.{LawfulFile, ReadableFile, data_blocks, pointer_block};
ghost use Rattle.ados_salvage.specs.Sound.{Names};
ghost use Rattle.ados_map.specs.Pages.{IsPage};
ghost use Rattle.ados_salvage.specs.steps.Keeping.{IsReadable};
ghost use Rattle.ados_salvage.specs.Account.{OfOne};
ghost use Rattle.ados_salvage.specs.steps.Accounting.{Adds, AreAccounted, HasNoMarks, IsOwn, IsPieceBlock};

use crate::account::extensions::mark_extensions;
use crate::known::data_needed;
use crate::{Piece, Salvage, Salvaged, State};
use adf_block::layout::{FIRST_PAGE, FIRST_POINTER, MOST_BLOCKS, NEXT_EXTENSION, TABLE_LONGS};
use adf_block::{Image, page_count};
use std::alloc::{AllocError, Global};

/// For each block of an image, whether it is accounted for by a salvage.
pub(crate) fn accounted_marks(alloc: Global, salvage: &Salvage) -> Result<Vec<bool>, AllocError>
    ensures { IfOk result (λ marks. AreAccounted salvage.now marks.items) }
{
    let image = salvage.image();
    let mut marks = no_marks(alloc, image)?;
    mark_extensions(alloc, image, salvage.entries(), &mut marks)?;
    mark_entries(image, salvage.entries(), &mut marks);
    mark_pieces(salvage.pieces(), &mut marks);
    mark_volume(image, &mut marks);
    Ok(marks)
}

/// No block is marked.
pub(crate) fn no_marks(alloc: Global, image: &Image) -> Result<Vec<bool>, AllocError>
    ensures { IfOk result (λ marks. HasNoMarks image.now marks.items) }
{
    let marks = vec![in alloc; false; image.blocks() as usize]?;
    Ok(marks)
}

/// Marks a block, if there is a mark for it.
pub(crate) fn mark(marks: &mut Vec<bool>, block: u32)
    ensures { Adds (λ b. b ≡ block) marks.old.items marks.new.items }
{
    if (block as usize) < marks.len() {
        marks[block as usize] = true;
    }
}

/// Marks the root and the bitmap blocks.
fn mark_volume(image: &Image, marks: &mut Vec<bool>)
    ensures { Adds (λ b. (b ≡ root_of image.now) ⊎ IsPage image.now b) marks.old.items marks.new.items }
{
    mark(marks, image.root());
    mark_pages(image, marks);
}

/// Marks the bitmap blocks.
fn mark_pages(image: &Image, marks: &mut Vec<bool>)
    ensures { Adds (IsPage image.now) marks.old.items marks.new.items }
{
    prove!(image.blocks() >= 16 && image.blocks() <= MOST_BLOCKS);
    for p in 0..page_count(image.blocks()) {
        mark(marks, image.long(image.root(), FIRST_PAGE + p));
    }
}

/// Marks the blocks given to files that are not whole.
fn mark_pieces(pieces: &[Piece], marks: &mut Vec<bool>)
    ensures { Adds (OfOne IsPieceBlock pieces.now) marks.old.items marks.new.items }
{
    for piece in pieces {
        mark(marks, piece.block);
    }
}

/// Marks the headers of entries, and all blocks of whole files.
fn mark_entries(image: &Image, entries: &[Salvaged], marks: &mut Vec<bool>)
    requires { All (IsReadable image.now) entries.now }
    ensures { Adds (OfOne (IsOwn image.now) entries.now) marks.old.items marks.new.items }
{
    for entry in entries {
        mark_entry(image, entry, marks);
    }
}

/// Marks the header of an entry, and all blocks of a whole file.
fn mark_entry(image: &Image, entry: &Salvaged, marks: &mut Vec<bool>)
    requires { IsReadable image.now entry.now }
    ensures { Adds (IsOwn image.now entry.now) marks.old.items marks.new.items }
{
    match entry.state {
        State::Whole => mark_file(image, entry.header, marks),
        _ => mark(marks, entry.header),
    }
}

/// Marks all blocks of a file.
fn mark_file(image: &Image, file: u32, marks: &mut Vec<bool>)
    requires inside { file < block_count image.now }
    requires lawful { LawfulFile image.now file }
    ensures { Adds (Names image.now file) marks.old.items marks.new.items }
{
    mark(marks, file);
    let mut holder = file;
    for i in 0..data_needed(image, file) {
        holder = holder_of(image, file, holder, i);
        mark(marks, holder);
        mark(marks, image.long(holder, FIRST_POINTER - i % TABLE_LONGS));
    }
}

/// The pointer block of data block `i` of a file, after that of the data block before it.
pub(crate) fn holder_of(image: &Image, file: u32, before: u32, i: u32) -> u32
    requires readable { ReadableFile image.now file }
    requires within { i < length (data_blocks image.now file) }
    requires before { before ≡ pointer_block image.now file ((i - 1) / TABLE_LONGS) }
    ensures holder { result ≡ pointer_block image.now file (i / TABLE_LONGS) }
    ensures inside { result < block_count image.now }
{
    if i > 0 && i % TABLE_LONGS == 0 {
        image.long(before, NEXT_EXTENSION)
    } else {
        before
    }
}
