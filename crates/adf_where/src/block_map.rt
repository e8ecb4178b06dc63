//! The map of a volume: a letter for each block, as text and as a JSON object.
ghost use Rattle.std.specs.Prelude.{◌≡◌, IfOk};
ghost use Rattle.ados_model.specs.Stands.{Stands};
ghost use Rattle.ados_model.specs.Tree.{Tree};
ghost use Rattle.adf_where.specs.BlockMap.{IsMap, map_of, owner_letters};

use crate::block_mark::BlockMark;
use crate::map_lines::map_page;
use crate::map_object::map_object;
use crate::unread::shown_letter;
use adf_cli::MapForm;
use ados_volume::{Owner, Volume, owners};
use std::alloc::{AllocError, Global};

/// The map of a volume: the letters of its blocks in lines, and what they mean; or a JSON object on a line of its own. `unread` says of
/// each block whether it could not be read, or is empty; such a block has a letter of its own.
pub fn map_text(
    alloc: Global,
    volume: &Volume,
    form: MapForm,
    unread: &[bool],
) -> Result<Vec<u8>, AllocError>
    ensures { IfOk result (λ text. (t : Tree) → Stands volume.now.image t → IsMap form unread.now volume.now.image t text.items) }
{
    let owners = owners(alloc, volume)?;
    let letters = letters_of(alloc, &owners, unread)?;
    form_text(alloc, &owners, &letters, form, unread)
}

/// The map of blocks with these owners and these letters.
fn form_text(
    alloc: Global,
    owners: &[Owner],
    letters: &[u8],
    form: MapForm,
    unread: &[bool],
) -> Result<Vec<u8>, AllocError>
    ensures { IfOk result (λ text. text.items ≡ map_of form unread.now letters.now owners.now) }
{
    match form {
        MapForm::Json => map_object(alloc, owners, letters),
        _ => map_page(alloc, letters, form, false, unread),
    }
}

/// The letters of blocks with these owners, of which some could not be read.
fn letters_of(alloc: Global, owners: &[Owner], unread: &[bool]) -> Result<Vec<u8>, AllocError>
    ensures { IfOk result (λ letters. letters.items ≡ owner_letters unread.now owners.now) }
{
    let mut letters = Vec::new(alloc);
    for (block, owner) in owners.iter().enumerate() {
        letters.push(shown_letter(unread, block, BlockMark::of_owner(*owner)))?;
    }
    Ok(letters)
}
