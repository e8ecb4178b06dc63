//! The lines for a volume and for what is in it.
ghost use Rattle.std.specs.Prelude.{◌≡◌, ◌/◌, IfOk};
ghost use Rattle.std.specs.String.{string_bytes};
ghost use Rattle.adf_record.specs.Shown.{contents_line, size_words, volume_words};

use crate::facts::Facts;
use crate::grouped::{counted, grouped_text};
use crate::words::{bitmap_words, density_words, format_word};
use std::alloc::{AllocError, Global};

/// The line for the volume after its label: the format, the density, the blocks and the bitmap.
pub(crate) fn volume_words(alloc: Global, facts: &Facts) -> Result<String, AllocError>
    ensures { IfOk result (λ line. string_bytes line ≡ volume_words facts.now) }
{
    let format = format_word(facts.format);
    let size = size_words(alloc, facts.blocks)?;
    let bitmap = bitmap_words(facts.rebuilt);
    let line = format!(in alloc; "   {format}{}, {bitmap}\n", size.as_str())?;
    Ok(line)
}

/// The size of a volume after its format: the density of a floppy, and the number of blocks.
pub fn size_words(alloc: Global, blocks: u32) -> Result<String, AllocError>
    ensures { IfOk result (λ words. string_bytes words ≡ size_words blocks) }
{
    let density = density_words(blocks);
    let number = grouped_text(alloc, u64::from(blocks))?;
    let words = format!(in alloc; "{density}, {} blocks", number.as_str())?;
    Ok(words)
}

/// The line for what is in the volume: its files and directories, and how much is used and free.
pub(crate) fn contents_line(alloc: Global, facts: &Facts) -> Result<String, AllocError>
    ensures { IfOk result (λ line. string_bytes line ≡ contents_line facts.now) }
{
    let files = counted(alloc, facts.counts.files, "file", "files")?;
    let directories = counted(alloc, facts.counts.directories, "directory", "directories")?;
    let used = grouped_text(alloc, u64::from(facts.used / 2))?;
    let free = grouped_text(alloc, u64::from(facts.free / 2))?;
    let line = format!(in alloc;
        "{}, {}, {} KB used, {} KB free\n",
        files.as_str(),
        directories.as_str(),
        used.as_str(),
        free.as_str()
    )?;
    Ok(line)
}
