//! The command `show`.
ghost use Rattle.std.specs.Prelude.{◌≡◌, IfOk};
ghost use Rattle.ados_model.specs.Stands.{Stands};
ghost use Rattle.ados_model.specs.Tree.{Tree};
ghost use Rattle.adf_serve.specs.Commands.{TellsOf};
ghost use Rattle.adf_serve.specs.Texts.{IsLook, IsLookText, facts_form};

use crate::fault::CommandFault;
use crate::images::accept;
use crate::output::tell;
use adf_block::Image;
use adf_record::{FactsForm, volume_text};
use ados_volume::Volume;
use std::alloc::{AllocError, Global};
use std::io::Write;

/// Prints what a person wants to know of an image, or with `json` the same as a JSON object.
pub(crate) fn tell_look<'a, W: Write>(
    alloc: Global,
    image: Image,
    json: bool,
    styled: bool,
    writer: &mut W,
) -> Result<(), CommandFault<'a>>
    ensures { TellsOf (IsLookText styled json) (IsLookText styled json) image (W.contents writer.old) (W.contents writer.new) result }
{
    let volume = accept(alloc, image)?;
    let text = look_text(alloc, &volume, json, styled)?;
    tell(writer, &text)
}

/// The text about a volume.
fn look_text(
    alloc: Global,
    volume: &Volume,
    json: bool,
    styled: bool,
) -> Result<Vec<u8>, AllocError>
    ensures { IfOk result (λ text. (t : Tree) → Stands volume.now.image t →
        IsLook styled json volume.now.was_validated volume.now.image t text.items) }
{
    volume_text(alloc, volume, facts_form(json, styled))
}

/// The form of what a person wants to know.
fn facts_form(json: bool, styled: bool) -> FactsForm
    ensures { result ≡ facts_form styled json }
{
    if json {
        FactsForm::Json
    } else if styled {
        FactsForm::Bold
    } else {
        FactsForm::Plain
    }
}
