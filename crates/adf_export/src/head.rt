//! The text before the entries of a list.
ghost use Rattle.std.specs.Prelude.{◌≡◌, IfOk};
ghost use Rattle.ados_model.specs.Stands.{Stands};
ghost use Rattle.ados_model.specs.Tree.{Tree};
ghost use Rattle.adf_export.specs.Listing.{head, volume_line};

use crate::keys::name_of;
use crate::lines::push_names;
use adf_cli::ListForm;
use ados_volume::Volume;
use std::alloc::{AllocError, Global};

/// The volume's line; before JSON objects there is no text.
pub(crate) fn head_text(
    alloc: Global,
    volume: &Volume,
    form: ListForm,
) -> Result<Vec<u8>, AllocError>
    ensures { IfOk result (λ text. (t : Tree) → Stands volume.now.image t → text.items ≡ head t form) }
{
    match form {
        ListForm::Bytes => volume_line(alloc, volume, false),
        ListForm::Letters | ListForm::Long | ListForm::Bold => volume_line(alloc, volume, true),
        ListForm::Json => Ok(Vec::new(alloc)),
    }
}

/// The line for the volume.
fn volume_line(alloc: Global, volume: &Volume, letters: bool) -> Result<Vec<u8>, AllocError>
    ensures { IfOk result (λ text. (t : Tree) → Stands volume.now.image t → text.items ≡ volume_line t letters) }
{
    let mut text = Vec::new(alloc);
    text.extend_from_slice(b"Volume ")?;
    let volume_name = name_of(volume, volume.root());
    push_names(alloc, &mut text, volume_name.bytes(), letters)?;
    text.push(b'\n')?;
    Ok(text)
}
