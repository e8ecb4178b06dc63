//! The line for the lost blocks of a volume.
ghost use Rattle.std.specs.Prelude.{◌≡◌, IfOk};
ghost use Rattle.std.specs.String.{string_bytes};
ghost use Rattle.adf_record.specs.Shown.{and_directories, directory_words, lost_directories, lost_headers, lost_line};

use crate::grouped::counted;
use crate::lost::LostBlocks;
use std::alloc::{AllocError, Global};

/// The line for the lost blocks and for the headers among them. It is empty if no block is lost.
pub(crate) fn lost_line(alloc: Global, lost: LostBlocks) -> Result<String, AllocError>
    ensures { IfOk result (λ line. string_bytes line ≡ lost_line lost) }
{
    if lost.blocks == 0 {
        return Ok(String::new(alloc));
    }
    let blocks = counted(alloc, lost.blocks, "lost block", "lost blocks")?;
    let headers = lost_headers(alloc, lost.files, lost.directories)?;
    let line = format!(in alloc; "{}{}\n", blocks.as_str(), headers.as_str())?;
    Ok(line)
}

/// The files and the directories among the lost blocks, as far as there are some.
fn lost_headers(alloc: Global, files: usize, directories: usize) -> Result<String, AllocError>
    ensures { IfOk result (λ text. string_bytes text ≡ lost_headers files directories) }
{
    if files == 0 {
        return lost_directories(alloc, directories);
    }
    let files = counted(alloc, files, "file", "files")?;
    let more = and_directories(alloc, directories)?;
    let text = format!(in alloc; ", {}{} among them", files.as_str(), more.as_str())?;
    Ok(text)
}

/// The directories among the lost blocks, without files. The text is empty if there are none.
fn lost_directories(alloc: Global, n: usize) -> Result<String, AllocError>
    ensures { IfOk result (λ text. string_bytes text ≡ lost_directories n) }
{
    if n == 0 {
        return Ok(String::new(alloc));
    }
    let words = directory_words(alloc, n)?;
    let text = format!(in alloc; ", {} among them", words.as_str())?;
    Ok(text)
}

/// The directories among the lost blocks, behind the number of files. The text is empty if there are none.
fn and_directories(alloc: Global, n: usize) -> Result<String, AllocError>
    ensures { IfOk result (λ text. string_bytes text ≡ and_directories n) }
{
    if n == 0 {
        return Ok(String::new(alloc));
    }
    let words = directory_words(alloc, n)?;
    let text = format!(in alloc; " and {}", words.as_str())?;
    Ok(text)
}

/// A number of directories.
fn directory_words(alloc: Global, n: usize) -> Result<String, AllocError>
    ensures { IfOk result (λ words. string_bytes words ≡ directory_words n) }
{
    counted(alloc, n, "directory", "directories")
}
