//! The letters of a map in lines, and what they mean.
ghost use Rattle.std.specs.Prelude.{◌≡◌, ◌++◌, ◌+◌, ◌*◌, ◌==◌, ◌<◌, IfOk, IfSome, OnOk, count_by, flat_map, length};
ghost use Rattle.std.specs.List.{range_with_len};
ghost use Rattle.adf_cli.specs.declared.floppy.TheConstants.{CYLINDERS};
ghost use Rattle.adf_where.specs.BlockMap.{count_of, cylinder_blocks, cylinder_line, cylinder_page, legend_end, legend_part, letter, line_blocks, line_end, map_page, meaning_line, track_lines, track_page};

use crate::block_mark::BlockMark;
use adf_cli::{CYLINDERS, DOUBLE_DENSITY, DOUBLE_TRACK, HEADS, HIGH_DENSITY, HIGH_TRACK, MapForm};
use adf_record::grouped_text;
use std::alloc::{AllocError, Global};

/// The map as text, by the letters of the blocks of an accepted or a refused image, of which some could not be read.
pub(crate) fn map_page(
    alloc: Global,
    letters: &[u8],
    form: MapForm,
    refused: bool,
    unread: &[bool],
) -> Result<Vec<u8>, AllocError>
    ensures { IfOk result (λ text. text.items ≡ map_page form refused unread.now letters.now) }
{
    match form {
        MapForm::Tracks => track_page(alloc, letters, refused, unread),
        _ => match cylinder_blocks(letters.len()) {
            Some(size) => cylinder_page(alloc, letters, refused, unread, size),
            None => track_page(alloc, letters, refused, unread),
        },
    }
}

/// The blocks of a cylinder of a floppy.
fn cylinder_blocks(blocks: usize) -> Option<usize>
    ensures value { result ≡ cylinder_blocks blocks }
    ensures whole { IfSome result (λ size. size * CYLINDERS ≡ blocks) }
{
    if blocks == DOUBLE_DENSITY as usize {
        Some((HEADS * DOUBLE_TRACK) as usize)
    } else if blocks == HIGH_DENSITY as usize {
        Some((HEADS * HIGH_TRACK) as usize)
    } else {
        None
    }
}

/// The letters in lines, and a line for each that says what it means.
fn track_page(
    alloc: Global,
    letters: &[u8],
    refused: bool,
    unread: &[bool],
) -> Result<Vec<u8>, AllocError>
    ensures { IfOk result (λ text. text.items ≡ track_page refused unread.now letters.now) }
{
    let mut text = Vec::new(alloc);
    push_track_lines(&mut text, letters)?;
    text.push(b'\n')?;
    push_meanings(alloc, &mut text, letters, BlockMark::kinds(refused))?;
    push_meanings(alloc, &mut text, letters, BlockMark::listed_kinds(unread))?;
    Ok(text)
}

/// Appends the letters in lines.
fn push_track_lines(text: &mut Vec<u8>, letters: &[u8]) -> Result<(), AllocError>
    ensures { OnOk result (text.new.items ≡ text.old.items ++ track_lines letters.now) }
{
    for (place, letter) in letters.iter().enumerate() {
        text.push(*letter)?;
        text.extend_from_slice(line_end(place + 1, letters.len()))?;
    }
    Ok(())
}

/// What comes after so many of the blocks: a line feed if a line is full, or if they are all.
fn line_end(count: usize, blocks: usize) -> &'static [u8]
    ensures { result.now ≡ line_end count blocks }
{
    if count % line_blocks(blocks) == 0 || count == blocks {
        b"\n"
    } else {
        b""
    }
}

/// The blocks in a line: a track of a floppy. Other sizes have lines as long as those of a high-density floppy.
fn line_blocks(blocks: usize) -> usize
    ensures value { result ≡ line_blocks blocks }
    ensures some { 0 < result }
{
    if blocks == DOUBLE_DENSITY as usize {
        DOUBLE_TRACK as usize
    } else {
        HIGH_TRACK as usize
    }
}

/// Appends the lines of these letters.
fn push_meanings(
    alloc: Global,
    text: &mut Vec<u8>,
    letters: &[u8],
    kinds: &[BlockMark],
) -> Result<(), AllocError>
    ensures { OnOk result (text.new.items ≡ text.old.items ++ flat_map (meaning_line letters.now) kinds.now) }
{
    for kind in kinds {
        push_meaning(alloc, text, letters, *kind)?;
    }
    Ok(())
}

/// Appends the line of a letter: its meaning, and the number of blocks that have it.
fn push_meaning(
    alloc: Global,
    text: &mut Vec<u8>,
    letters: &[u8],
    kind: BlockMark,
) -> Result<(), AllocError>
    ensures { OnOk result (text.new.items ≡ text.old.items ++ meaning_line letters.now kind) }
{
    let count = grouped_text(alloc, count_of(letters, kind.letter()) as u64)?;
    let line = format!(in alloc; "{}: {}\n", kind.meaning(), count.as_str())?;
    text.extend_from_slice(line.as_bytes())
}

/// The number of blocks with a letter.
fn count_of(letters: &[u8], letter: u8) -> usize
    ensures { result ≡ count_by (λ mark. mark == letter) letters.now }
{
    letters.iter().filter(|mark| **mark == letter).count()
}

/// The letters in columns, one for each cylinder of so many blocks, and two or three lines that say what they mean.
fn cylinder_page(
    alloc: Global,
    letters: &[u8],
    refused: bool,
    unread: &[bool],
    size: usize,
) -> Result<Vec<u8>, AllocError>
    requires { size * CYLINDERS ≡ length letters.now }
    ensures { IfOk result (λ text. text.items ≡ cylinder_page refused unread.now letters.now size) }
{
    let (kinds, listed) = (BlockMark::kinds(refused), BlockMark::listed_kinds(unread));
    let mut text = Vec::new(alloc);
    push_cylinder_lines(&mut text, letters, size)?;
    push_legend(alloc, &mut text, letters, refused, kinds)?;
    push_legend(alloc, &mut text, letters, refused, listed)?;
    Ok(text)
}

/// Appends a line for each block of a cylinder.
fn push_cylinder_lines(text: &mut Vec<u8>, letters: &[u8], size: usize) -> Result<(), AllocError>
    requires { size * CYLINDERS ≡ length letters.now }
    ensures { OnOk result (text.new.items ≡ text.old.items ++ flat_map (cylinder_line letters.now size) (range_with_len 0 size)) }
{
    for at in 0..size {
        push_cylinder_line(text, letters, size, at)?;
    }
    Ok(())
}

/// Appends the line of one block of each cylinder.
fn push_cylinder_line(
    text: &mut Vec<u8>,
    letters: &[u8],
    size: usize,
    at: usize,
) -> Result<(), AllocError>
    requires whole { size * CYLINDERS ≡ length letters.now }
    requires inside { at < size }
    ensures { OnOk result (text.new.items ≡ text.old.items ++ cylinder_line letters.now size at) }
{
    for cylinder in 0..CYLINDERS as usize {
        text.push(letters[block_at(size, cylinder, at, letters.len())])?;
    }
    text.push(b'\n')?;
    Ok(())
}

/// A block of a cylinder of a disk with so many blocks.
fn block_at(size: usize, cylinder: usize, at: usize, blocks: usize) -> usize
    requires cylinder { cylinder < CYLINDERS }
    requires at { at < size }
    requires whole { size * CYLINDERS ≡ blocks }
    ensures value { result ≡ size * cylinder + at }
    ensures inside { result < blocks }
{
    size * cylinder + at
}

/// Appends the counts of these letters.
fn push_legend(
    alloc: Global,
    text: &mut Vec<u8>,
    letters: &[u8],
    refused: bool,
    kinds: &[BlockMark],
) -> Result<(), AllocError>
    ensures { OnOk result (text.new.items ≡ text.old.items ++ flat_map (legend_part refused letters.now) kinds.now) }
{
    for kind in kinds {
        push_legend_part(alloc, text, letters, refused, *kind)?;
    }
    Ok(())
}

/// Appends the count of a letter.
fn push_legend_part(
    alloc: Global,
    text: &mut Vec<u8>,
    letters: &[u8],
    refused: bool,
    kind: BlockMark,
) -> Result<(), AllocError>
    ensures { OnOk result (text.new.items ≡ text.old.items ++ legend_part refused letters.now kind) }
{
    let count = grouped_text(alloc, count_of(letters, kind.letter()) as u64)?;
    let part = format!(in alloc;
        "{} {}{}",
        kind.meaning(),
        count.as_str(),
        legend_end(refused, kind)
    )?;
    text.extend_from_slice(part.as_bytes())
}

/// What is behind the count of a letter: the end of a line, or the distance to the next letter.
fn legend_end(refused: bool, kind: BlockMark) -> &'static str
    ensures { result.now ≡ legend_end refused kind }
{
    match (refused, kind) {
        (_, BlockMark::File | BlockMark::Unread) => "\n",
        (false, BlockMark::Free) | (true, BlockMark::Twice) => "\n",
        _ => "  ",
    }
}
