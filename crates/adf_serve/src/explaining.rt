//! What more is known of a refused change than the error of AmigaDOS.
ghost use Rattle.std.specs.Prelude.{◌≡◌, IfSome};
ghost use Rattle.std.specs.String.{string_bytes};
ghost use Rattle.ados_model.specs.declared.dos_error.DosError.TheVariants.{DeleteProtected};
ghost use Rattle.adf_serve.specs.Changed.{IsExplained, IsPrinted, deletes_all};
ghost use Rattle.adf_serve.specs.Explained.{IsDeniedPath};

use crate::fault::CommandFault;
use crate::refusal::{Detail, DosRefusal};
use adf_cli::{Change, Refused};
use adf_export::{locate_word, path_of};
use adf_import::{InFault, NameWhy, denied_entry, wrong_name};
use adf_text::letter_text;
use ados_model::DosError;
use ados_volume::Volume;
use std::alloc::Global;

/// The fault of a change, with what more is known of it. The volume is as it was when the change was refused.
pub(crate) fn explained<'a>(
    alloc: Global,
    volume: &mut Volume,
    change: &Change<'_>,
    fault: InFault,
) -> CommandFault<'a>
    ensures { IsExplained change.now volume.old.image fault result }
{
    match fault {
        InFault::Refused(refused) => {
            CommandFault::Dos(refusal_of(alloc, volume, change, refused))
        }
        other => CommandFault::from(other),
    }
}

/// The refusal of a change, with what more is known of it.
fn refusal_of(
    alloc: Global,
    volume: &mut Volume,
    change: &Change<'_>,
    refused: Refused,
) -> DosRefusal
    ensures { IsPrinted change.now volume.old.image refused result.refused }
{
    match refused.error {
        DosError::DeleteProtected => denied(alloc, volume, change, refused),
        DosError::InvalidComponentName => misnamed(alloc, change, refused),
        DosError::ObjectInUse => DosRefusal {
            refused,
            detail: Detail::IntoItself,
        },
        _ => plain(refused),
    }
}

/// A refusal of which no more is known.
fn plain(refused: Refused) -> DosRefusal
    ensures { result.refused ≡ refused }
{
    DosRefusal {
        refused,
        detail: Detail::Plain,
    }
}

/// The refusal of a protected entry. It names an entry below the path if that is the one which is protected.
fn denied(alloc: Global, volume: &mut Volume, change: &Change<'_>, refused: Refused) -> DosRefusal
    requires { refused.error ≡ DeleteProtected }
    ensures { IsPrinted change.now volume.old.image refused result.refused }
{
    if !deletes_all(change) {
        return plain(refused);
    }
    match denied_path(alloc, volume, refused.path.as_str()) {
        Some(path) => plain(Refused {
            error: refused.error,
            path,
        }),
        None => plain(refused),
    }
}

/// Whether a change deletes entries with everything below them.
fn deletes_all(change: &Change<'_>) -> bool
    ensures { result ≡ deletes_all change.now }
{
    match change {
        Change::Delete { all, .. } => *all,
        _ => false,
    }
}

/// The path from the root of a protected entry below the one at a path, if that is the first one that is protected.
fn denied_path(alloc: Global, volume: &mut Volume, word: &str) -> Option<String>
    ensures { IfSome result (λ path. IsDeniedPath volume.old.image word.now (string_bytes path)) }
{
    let Ok(key) = locate_word(alloc, volume, word) else {
        return None;
    };
    let Ok(Some(entry)) = denied_entry(alloc, volume, key) else {
        return None;
    };
    if entry == key {
        return None;
    }
    let Ok(path) = path_of(alloc, volume, entry) else {
        return None;
    };
    match letter_text(alloc, &path) {
        Ok(text) => Some(text),
        Err(_) => None,
    }
}

/// The refusal of a name, with what is wrong with it, or with a name in a path.
fn misnamed(alloc: Global, change: &Change<'_>, refused: Refused) -> DosRefusal
    ensures { result.refused ≡ refused }
{
    let text = refused.path.as_str();
    let (name, why) = if matches!(change, Change::Relabel { .. } | Change::AddAs { .. }) {
        (text, NameWhy::of_text(text).unwrap_or(NameWhy::Empty))
    } else {
        wrong_name(text)
    };
    match String::from_str(alloc, name) {
        Ok(name) => DosRefusal {
            refused,
            detail: Detail::Name { name, why },
        },
        Err(_) => plain(refused),
    }
}
