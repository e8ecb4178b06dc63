//! Lists of blocks that could not be read.
ghost use Rattle.std.specs.Prelude.{◌≡◌, ◌<◌, ◌⊎◌, All, IfErr, IfOk, MatchBool, MatchOption, OnOk, None, Some};
ghost use Rattle.std.specs.String.{string_bytes};
ghost use Rattle.adf_script.specs.Lines.{lines_of};
ghost use Rattle.adf_cli.specs.Blocks.{IsNamed, NamesNone, named};
ghost use Rattle.adf_cli.specs.declared.block_word.BlockWord.{BlockWord as Word};
ghost use Rattle.adf_cli.specs.BadBlocks.{Adds, AreBad, AreMarked, IsBadFault, IsBeforeComment, NamesNoBlock, Says};

use crate::block_word::named_block;
use crate::tracks::volume_block;
use adf_script::{first_line, split_once};
use adf_text::letter_text;
use std::alloc::{AllocError, Global};

/// Why a list of bad blocks is not taken.
#[derive(Clone, Copy)]
pub enum BadFault {
    /// The line with this number, from 1, names no block of the volume.
    Line(usize),
    /// Out of memory.
    Memory,
}

impl From<AllocError> for BadFault {
    ghost use Rattle.std.specs.Prelude.{◌≡◌};
    ghost use Rattle.adf_cli.specs.declared.bad_list.BadFault.TheVariants.{Memory};

    ghost from_gives = { λ _ fault. fault ≡ Memory };

    fn from(_error: AllocError) -> BadFault {
        BadFault::Memory
    }
}

/// The blocks that the lines of a list name in a volume with so many blocks. Each line has the number of a block, or its cylinder,
/// head and sector. A comment from `#` on and spaces at both ends do not count, and a line may have nothing else.
pub fn bad_blocks(alloc: Global, blocks: u32, list: &[u8]) -> Result<Vec<u32>, BadFault>
    ensures blocks { IfOk result (λ found. AreBad blocks (lines_of list.now) found.items) }
    ensures inside { IfOk result (λ found. All (λ block. block < blocks) found.items) }
    ensures fault { IfErr result (IsBadFault blocks (lines_of list.now)) }
{
    let mut found = Vec::new(alloc);
    let mut rest = list;
    let mut number = 0;
    while !rest.is_empty() {
        let (line, behind) = first_line(rest);
        number += 1;
        let right = push_block(alloc, blocks, line, &mut found)?;
        if !right {
            return Err(BadFault::Line(number));
        }
        rest = behind;
    }
    Ok(found)
}

/// The marks of so many blocks after these were marked too. A block without a mark before was not marked.
pub fn marked(blocks: u32, before: Vec<bool>, bad: &[u32]) -> Result<Vec<bool>, AllocError>
    requires { All (λ block. block < blocks) bad.now }
    ensures { IfOk result (λ marks. AreMarked blocks before.items bad.now marks.items) }
{
    let mut marks = before;
    marks.resize(blocks as usize, false)?;
    for block in bad {
        marks[*block as usize] = true;
    }
    Ok(marks)
}

/// Appends the block that a line names in a volume with so many blocks, if it says something. The result is `false` if that names none.
fn push_block(
    alloc: Global,
    blocks: u32,
    line: &[u8],
    found: &mut Vec<u32>,
) -> Result<bool, AllocError>
    requires inside { All (λ block. block < blocks) found.old.items }
    ensures inside { OnOk result (All (λ block. block < blocks) found.new.items) }
    ensures right { IfOk result (λ right. MatchBool right (Adds blocks line.now found.old.items found.new.items) (NamesNoBlock blocks line.now)) }
{
    let word = said_in(alloc, line)?;
    if word.is_empty() {
        return Ok(true);
    }
    match block_of(alloc, blocks, word.as_str())? {
        Some(block) => {
            found.push(block)?;
            Ok(true)
        }
        None => Ok(false),
    }
}

/// What a line says, in letters.
fn said_in(alloc: Global, line: &[u8]) -> Result<String, AllocError>
    ensures { IfOk result (λ word. Says line.now (string_bytes word)) }
{
    letter_text(alloc, before_comment(line).trim_ascii())
}

/// What a line has before its comment.
fn before_comment(line: &[u8]) -> &[u8]
    ensures { IsBeforeComment line.now result.now }
{
    match split_once(line, b'#') {
        Some((front, _comment)) => front,
        None => line,
    }
}

/// The block that a word names in a volume with so many blocks.
fn block_of(alloc: Global, blocks: u32, word: &str) -> Result<Option<u32>, AllocError>
    ensures named { IfOk result (λ found. MatchOption found
        (NamesNone word.now ⊎ ((one : Word) × IsNamed word.now one × (named blocks one ≡ None)))
        (λ block. (one : Word) × IsNamed word.now one × (named blocks one ≡ Some block))) }
{
    match named_block(alloc, word)? {
        Some(one) => Ok(volume_block(blocks, one)),
        None => Ok(None),
    }
}
