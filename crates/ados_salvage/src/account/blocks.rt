//! What the blocks of an image are, as far as a salvage tells of them.
ghost use Rattle.std.specs.Prelude.{◌≡◌, ◌<◌, ◌++◌, ◌∷◌, [], All, IfOk, OnOk, flat_map, length, map};
ghost use Rattle.adf_block.specs.Image.{block_count};
ghost use Rattle.ados_model.specs.File.{LawfulFile};
ghost use Rattle.ados_census.specs.steps.Marks.{IsMarked};
ghost use Rattle.ados_salvage.specs.steps.Keeping.{IsReadable};
ghost use Rattle.ados_salvage.specs.Parts.{AreExtensions, ListsAll, TellsBlocks, alike, boot_told, entry_told, extension_told, file_told, header_at, pages_told, piece_told, root_told};

use crate::account::accounted::{holder_of, no_marks};
use crate::account::extensions::mark_extensions;
use crate::account::part::{Part, Told};
use crate::account::unaccounted::unaccounted_blocks;
use crate::known::data_needed;
use crate::{Piece, Salvage, Salvaged, State};
use adf_block::layout::{FIRST_PAGE, FIRST_POINTER, MOST_BLOCKS, PARENT, TABLE_LONGS};
use adf_block::{Image, page_count};
use std::alloc::{AllocError, Global};

/// What the blocks of an image are: the boot blocks, the root and the bitmap blocks that it names, the data blocks of whole
/// files, the blocks given to files that are not whole, and the extension blocks of these, the unaccounted blocks, and the
/// headers of deleted entries. The headers of entries are in the entries. A block comes more than once if it is several of these.
///
/// Time and memory grow about linearly with the size of the image.
pub fn told_blocks(alloc: Global, salvage: &Salvage) -> Result<Vec<Told>, AllocError>
    ensures { IfOk result (λ told. TellsBlocks salvage.now told.items) }
{
    let image = salvage.image();
    let extensions = damaged_extensions(alloc, salvage)?;
    let unaccounted = unaccounted_blocks(alloc, salvage)?;
    let mut told = Vec::new(alloc);
    push_fixed(image, &mut told)?;
    push_pages(image, &mut told)?;
    push_entries(image, salvage.entries(), &mut told)?;
    push_pieces(salvage.entries(), salvage.pieces(), &mut told)?;
    push_extensions(image, &extensions, &mut told)?;
    push_alike(Part::Unaccounted, &unaccounted, &mut told)?;
    push_alike(Part::Deleted, salvage.deleted(), &mut told)?;
    Ok(told)
}

/// Tells the boot blocks and the root, whose places are fixed.
fn push_fixed(image: &Image, told: &mut Vec<Told>) -> Result<(), AllocError>
    ensures { OnOk result (told.new.items ≡ ((told.old.items ++ boot_told 0 ∷ []) ++ boot_told 1 ∷ []) ++ root_told image.now ∷ []) }
{
    told.push(Told {
        block: 0,
        part: Part::Boot,
    })?;
    told.push(Told {
        block: 1,
        part: Part::Boot,
    })?;
    told.push(Told {
        block: image.root(),
        part: Part::Root,
    })?;
    Ok(())
}

/// Tells the bitmap blocks that the root names.
fn push_pages(image: &Image, told: &mut Vec<Told>) -> Result<(), AllocError>
    ensures { OnOk result (told.new.items ≡ told.old.items ++ pages_told image.now) }
{
    prove!(image.blocks() >= 16 && image.blocks() <= MOST_BLOCKS);
    for p in 0..page_count(image.blocks()) {
        told.push(Told {
            block: image.long(image.root(), FIRST_PAGE + p),
            part: Part::Page(p),
        })?;
    }
    Ok(())
}

/// Tells the data blocks of all whole files.
fn push_entries(image: &Image, entries: &[Salvaged], told: &mut Vec<Told>) -> Result<(), AllocError>
    requires { All (IsReadable image.now) entries.now }
    ensures { OnOk result (told.new.items ≡ told.old.items ++ flat_map (entry_told image.now) entries.now) }
{
    for entry in entries {
        push_entry(image, entry, told)?;
    }
    Ok(())
}

/// Tells the data blocks of an entry, if it is a whole file.
fn push_entry(image: &Image, entry: &Salvaged, told: &mut Vec<Told>) -> Result<(), AllocError>
    requires { IsReadable image.now entry.now }
    ensures { OnOk result (told.new.items ≡ told.old.items ++ entry_told image.now entry.now) }
{
    match entry.state {
        State::Whole => push_file(image, entry.header, told),
        _ => Ok(()),
    }
}

/// Tells the data blocks of a file.
fn push_file(image: &Image, file: u32, told: &mut Vec<Told>) -> Result<(), AllocError>
    requires inside { file < block_count image.now }
    requires lawful { LawfulFile image.now file }
    ensures { OnOk result (told.new.items ≡ told.old.items ++ file_told image.now file) }
{
    let mut holder = file;
    for i in 0..data_needed(image, file) {
        holder = holder_of(image, file, holder, i);
        let block = image.long(holder, FIRST_POINTER - i % TABLE_LONGS);
        told.push(Told {
            block,
            part: Part::Data(file, i, holder),
        })?;
    }
    Ok(())
}

/// Tells the blocks given to files that are not whole.
fn push_pieces(
    entries: &[Salvaged],
    pieces: &[Piece],
    told: &mut Vec<Told>,
) -> Result<(), AllocError>
    ensures { OnOk result (told.new.items ≡ told.old.items ++ map (piece_told entries.now) pieces.now) }
{
    for piece in pieces {
        told.push(Told {
            block: piece.block,
            part: Part::Data(header_at(entries, piece.place), piece.at, 0),
        })?;
    }
    Ok(())
}

/// The header of the entry at a position; 0 if there is none.
fn header_at(entries: &[Salvaged], place: usize) -> u32
    ensures { result ≡ header_at entries.now place }
{
    match entries.get(place) {
        Some(entry) => entry.header,
        None => 0,
    }
}

/// The extension blocks of all files that are not whole, in order.
fn damaged_extensions(alloc: Global, salvage: &Salvage) -> Result<Vec<u32>, AllocError>
    ensures { IfOk result (λ blocks. AreExtensions salvage.now blocks.items) }
{
    let image = salvage.image();
    let mut marks = no_marks(alloc, image)?;
    mark_extensions(alloc, image, salvage.entries(), &mut marks)?;
    marked_blocks(alloc, image, &marks)
}

/// The marked blocks of an image, in order.
fn marked_blocks(alloc: Global, image: &Image, marks: &[bool]) -> Result<Vec<u32>, AllocError>
    requires { length marks.now ≡ block_count image.now }
    ensures { IfOk result (λ blocks. ListsAll (IsMarked marks.now) blocks.items) }
{
    let mut blocks = Vec::new(alloc);
    for block in 0..image.blocks() {
        if marks[block as usize] {
            blocks.push(block)?;
        }
    }
    Ok(blocks)
}

/// Tells the extension blocks of files that are not whole.
fn push_extensions(image: &Image, blocks: &[u32], told: &mut Vec<Told>) -> Result<(), AllocError>
    requires { All (λ block. block < block_count image.now) blocks.now }
    ensures { OnOk result (told.new.items ≡ told.old.items ++ map (extension_told image.now) blocks.now) }
{
    for block in blocks {
        told.push(Told {
            block: *block,
            part: Part::Extension(image.long(*block, PARENT)),
        })?;
    }
    Ok(())
}

/// Tells that all these blocks are the same.
fn push_alike(part: Part, blocks: &[u32], told: &mut Vec<Told>) -> Result<(), AllocError>
    ensures { OnOk result (told.new.items ≡ told.old.items ++ alike part blocks.now) }
{
    for block in blocks {
        told.push(Told {
            block: *block,
            part,
        })?;
    }
    Ok(())
}
