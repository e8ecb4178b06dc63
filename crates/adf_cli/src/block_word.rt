//! Arguments that name blocks.
ghost use Rattle.std.specs.Prelude.{◌≡◌, ◌↔◌, ◌<◌, ◌^◌, ◌∷◌, ◌++◌, ℕ, All, IfErr, IfOk, IsSomeAnd, IsTrue, List, MatchOption, Some, codes, decimal, map};
ghost use Rattle.std.specs.String.{string_bytes};
ghost use Rattle.adf_cli.specs.Blocks.{HasLongs, IsNamed, IsOnFloppy, NamesNone, TellsNoBlock, TellsNoBlocks, block_text};
ghost use Rattle.adf_cli.specs.declared.block_word.BlockWord.{BlockWord};

use crate::fault::WordsFault;
use crate::floppy::{HEADS, HIGH_TRACK};
use std::alloc::{AllocError, Global};

/// A block, as an argument names it.
#[derive(Clone, Copy)]
pub enum BlockWord {
    /// By its number.
    Number(u32),
    /// By its cylinder, its head and its sector, each from 0.
    Sector {
        cylinder: u32,
        head: u32,
        sector: u32,
    },
}

impl BlockWord {
    /// The argument.
    pub fn text(self, alloc: Global) -> Result<String, AllocError>
        ensures { IfOk result (λ text. string_bytes text ≡ block_text self) }
    {
        match self {
            BlockWord::Number(number) => format!(in alloc; "{number}"),
            BlockWord::Sector {
                cylinder,
                head,
                sector,
            } => format!(in alloc; "c{cylinder}.h{head}.s{sector}"),
        }
    }
}

/// The blocks that these arguments name.
pub(crate) fn asked_blocks(alloc: Global, words: &[&str]) -> Result<Vec<BlockWord>, WordsFault>
    ensures texts { IfOk result (λ blocks. map block_text blocks.items ≡ map (λ word. word.now) words.now) }
    ensures on_floppy { IfOk result (λ blocks. All IsOnFloppy blocks.items) }
    ensures fault { IfErr result (TellsNoBlocks (map (λ word. word.now) words.now)) }
{
    let mut blocks = Vec::new(alloc);
    for word in words {
        let block = match block_of(alloc, word) {
            Ok(block) => block,
            Err(fault) => return Err(fault),
        };
        if blocks.push(block).is_err() {
            return Err(WordsFault::Memory);
        }
    }
    Ok(blocks)
}

/// The block that an argument names. Any other text makes the command line wrong.
fn block_of(alloc: Global, word: &str) -> Result<BlockWord, WordsFault>
    ensures text { IfOk result (λ block. block_text block ≡ word.now) }
    ensures on_floppy { IfOk result IsOnFloppy }
    ensures fault { IfErr result (TellsNoBlock word.now) }
{
    match named_block(alloc, word)? {
        Some(block) => Ok(block),
        None => Err(WordsFault::wrong(
            alloc,
            format_args!(
                "error: invalid value '{word}' for '[BLOCK]...': the number of a block is expected, or its cylinder, head and sector as c40.h0.s10, with head 0 or 1 and a sector from 0 to 21"
            ),
        )),
    }
}

/// The block that an argument names, if it names one.
pub fn named_block(alloc: Global, word: &str) -> Result<Option<BlockWord>, AllocError>
    ensures { IfOk result (λ found. MatchOption found (NamesNone word.now) (IsNamed word.now)) }
{
    let Some(block) = read_block(word) else {
        return Ok(None);
    };
    if is_on_floppy(block) && is_text_of(alloc, block, word)? {
        Ok(Some(block))
    } else {
        Ok(None)
    }
}

/// Whether the argument is the text of this block.
fn is_text_of(alloc: Global, block: BlockWord, word: &str) -> Result<bool, AllocError>
    ensures { IfOk result (λ same. IsTrue same ↔ (block_text block ≡ word.now)) }
{
    let text = block.text(alloc)?;
    Ok(text.as_str() == word)
}

/// Whether some floppy has such a block.
fn is_on_floppy(block: BlockWord) -> bool
    ensures { IsTrue result ↔ IsOnFloppy block }
{
    match block {
        BlockWord::Number(_) => true,
        BlockWord::Sector { head, sector, .. } => head < HEADS && sector < HIGH_TRACK,
    }
}

/// The only block that an argument may name. Whoever asks compares its text with the argument.
fn read_block(word: &str) -> Option<BlockWord>
    ensures { (block : BlockWord) → HasLongs block → word.now ≡ block_text block → result ≡ Some block }
{
    match word.strip_prefix('c') {
        Some(place) => read_sector(place),
        None => Some(BlockWord::Number(read_number(word)?)),
    }
}

/// The only block whose text may be a `c` and this text.
fn read_sector(place: &str) -> Option<BlockWord>
    ensures { (block : BlockWord) → HasLongs block → codes "c" ++ place.now ≡ block_text block → result ≡ Some block }
{
    let (cylinder, rest) = number_before(place, 'h')?;
    let (head, rest) = number_before(rest, 's')?;
    let sector = read_number(rest)?;
    Some(BlockWord::Sector {
        cylinder,
        head,
        sector,
    })
}

/// The number before a dot and this letter, and what is behind them.
fn number_before<'a>(text: &'a str, letter: char) -> Option<(u32, &'a str)>
    ensures { (number : ℕ) (rest : List ℕ) → number < 2 ^ 32 → letter < 128 → text.now ≡ decimal number ++ (46 ∷ letter ∷ rest) → IsSomeAnd result (λ found. (found.0 ≡ number) × (found.1.now ≡ rest)) }
{
    let (number, behind) = text.split_once('.')?;
    let rest = behind.strip_prefix(letter)?;
    Some((read_number(number)?, rest))
}

/// The number that a text writes.
fn read_number(text: &str) -> Option<u32>
    ensures { (number : ℕ) → number < 2 ^ 32 → text.now ≡ decimal number → IsSomeAnd result (λ found. found ≡ number) }
{
    text.parse().ok()
}
