//! What a person wants to know of a volume, in a form.
ghost use Rattle.std.specs.Prelude.{IfOk};
ghost use Rattle.ados_model.specs.Tree.{Tree};
ghost use Rattle.ados_model.specs.Stands.{Stands};
ghost use Rattle.adf_record.specs.Forms.{IsTextIn, IsVolumeText};

use crate::facts::{Facts, facts_of};
use crate::object::facts_object;
use crate::shown::facts_text;
use ados_volume::Volume;
use std::alloc::{AllocError, Global};

/// The form of a volume's facts.
#[derive(Clone, Copy)]
pub enum FactsForm {
    /// Text for people.
    Plain,
    /// The same with the label in bold letters, for a terminal.
    Bold,
    /// A JSON object on a line of its own.
    Json,
}

/// The facts of a volume, in a form.
pub fn volume_text(alloc: Global, volume: &Volume, form: FactsForm) -> Result<Vec<u8>, AllocError>
    ensures { IfOk result (λ text. (t : Tree) → Stands volume.now.image t → IsVolumeText form volume.now.image volume.now.was_validated t text.items) }
{
    let facts = facts_of(alloc, volume)?;
    text_in(alloc, &facts, form)
}

/// These facts, in a form.
fn text_in(alloc: Global, facts: &Facts, form: FactsForm) -> Result<Vec<u8>, AllocError>
    ensures { IfOk result (λ text. IsTextIn form facts.now text.items) }
{
    match form {
        FactsForm::Plain => facts_text(alloc, facts, false),
        FactsForm::Bold => facts_text(alloc, facts, true),
        FactsForm::Json => facts_object(alloc, facts),
    }
}
