//! What a block of a volume is, in words, and the entry that it belongs to.
ghost use Rattle.std.specs.Prelude.{◌≡◌, IfOk};
ghost use Rattle.std.specs.String.{string_bytes};
ghost use Rattle.adf_archive.specs.Owned.{entry_of, owner_text, owner_word, position_of, slash};

use ados_volume::Owner;
use std::alloc::{AllocError, Global};

/// The directory or file that a block with this owner belongs to, if there is one.
pub fn entry_of(block: u32, owner: Owner) -> Option<u32>
    ensures { result ≡ entry_of block owner }
{
    match owner {
        Owner::Directory | Owner::File => Some(block),
        Owner::Data(file, _) | Owner::Extension(file, _) => Some(file),
        Owner::Boot | Owner::Root | Owner::Page(_) | Owner::Lost | Owner::Free => None,
    }
}

/// What a block is, up to the path of its entry.
pub fn owner_text(alloc: Global, owner: Owner) -> Result<String, AllocError>
    ensures { IfOk result (λ text. string_bytes text ≡ owner_text owner) }
{
    match owner {
        Owner::Boot => String::from_str(alloc, "boot block"),
        Owner::Root => String::from_str(alloc, "root"),
        Owner::Page(i) => format!(in alloc; "bitmap block {i}"),
        Owner::Directory | Owner::File => String::from_str(alloc, "header of "),
        Owner::Data(_, k) => format!(in alloc; "data {k} of "),
        Owner::Extension(_, k) => format!(in alloc; "extension {k} of "),
        Owner::Lost => String::from_str(alloc, "lost"),
        Owner::Free => String::from_str(alloc, "free"),
    }
}

/// The slash behind the path of a directory.
pub fn slash(owner: Owner) -> &'static str
    ensures { result.now ≡ slash owner }
{
    match owner {
        Owner::Directory => "/",
        _ => "",
    }
}

/// What a block is, as one word.
pub fn owner_word(owner: Owner) -> &'static str
    ensures { result.now ≡ owner_word owner }
{
    match owner {
        Owner::Boot => "boot",
        Owner::Root => "root",
        Owner::Page(_) => "bitmap",
        Owner::Directory => "directory",
        Owner::File => "file",
        Owner::Data(_, _) => "data",
        Owner::Extension(_, _) => "extension",
        Owner::Lost => "lost",
        Owner::Free => "free",
    }
}

/// The position of a block among those of its kind, from 0.
pub fn position_of(owner: Owner) -> Option<u64>
    ensures { result ≡ position_of owner }
{
    match owner {
        Owner::Page(k) | Owner::Data(_, k) | Owner::Extension(_, k) => Some(u64::from(k)),
        _ => None,
    }
}
