//! The names of the note files that emulators keep beside others.
ghost use Rattle.std.specs.Prelude.{◌≡◌, IfOk, IfSome, IfNone};
ghost use Rattle.std.specs.String.{string_bytes};
ghost use Rattle.adf_host.specs.Notes.{note_of, IsNoNote};

use std::alloc::{AllocError, Global};

/// The name of a file's note: the file's name and `.uaem`.
pub fn note_name(alloc: Global, name: &str) -> Result<String, AllocError>
    ensures { IfOk result (λ note. string_bytes note ≡ note_of name.now) }
{
    format!(in alloc; "{name}.uaem")
}

/// The name of the file that a note belongs to; `None` for a name that does not end in `.uaem`.
pub fn noted_name(name: &str) -> Option<&str>
    ensures some { IfSome result (λ noted. name.now ≡ note_of noted.now) }
    ensures none { IfNone result (IsNoNote name.now) }
{
    name.strip_suffix(".uaem")
}
