//! Changes of an object's metadata, and of the volume's name.

ghost use Rattle.std.specs.Prelude.{◌≡◌};
ghost use Rattle.ados_model.specs.Edits.{with_comment, with_date};
ghost use Rattle.ados_model.specs.Keys.{HasKey};
ghost use Rattle.adf_import.specs.Changes.{Changes, protected};
ghost use Rattle.adf_import.specs.Commands.{Relabels};
ghost use Rattle.adf_import.specs.Paths.{comment_refusal};
ghost use Rattle.adf_import.specs.Refusals.{root_refusal};

use ados_model::DosError;
use ados_name::{Comment, Date3, Name, Protect};
use ados_volume::Volume;

/// Sets the low eight protection bits of an entry. The others stay. The disk date becomes `moment`.
///
/// Error: 212 for the root.
#[tactic(auto, using(ados_change::proofs::Keeping::same_keeps))]
pub fn protect(volume: &mut Volume, key: u32, bits: Protect, moment: Date3) -> Result<(), DosError>
    requires { HasKey volume.old.image key }
    ensures done { Changes (root_refusal key) (λ _ t. protected moment key bits.0 t) volume.old volume.new result }
    ensures validated { volume.new.was_validated ≡ volume.old.was_validated }
{
    if key == volume.root() {
        return Err(DosError::ObjectWrongType);
    }
    let old = volume.protection(key);
    let new = 256 * (old.0 / 256) + bits.0 % 256;
    volume.set_protect(key, Protect(new), moment);
    Ok(())
}

/// Sets the comment of an entry. The disk date becomes `moment`.
///
/// Errors: 220 for more than 79 bytes, and 212 for the root.
#[tactic(auto, using(ados_change::proofs::Keeping::same_keeps))]
pub fn comment(volume: &mut Volume, key: u32, text: &[u8], moment: Date3) -> Result<(), DosError>
    requires { HasKey volume.old.image key }
    ensures done { Changes (comment_refusal key text.now) (λ _ t. with_comment moment key text.now t) volume.old volume.new result }
    ensures validated { volume.new.was_validated ≡ volume.old.was_validated }
{
    let Ok(text) = Comment::new(text) else {
        return Err(DosError::CommentTooBig);
    };
    if key == volume.root() {
        return Err(DosError::ObjectWrongType);
    }
    volume.set_comment(key, text, moment);
    Ok(())
}

/// Sets the date of an entry. The disk date becomes `moment`.
///
/// Error: 212 for the root.
#[tactic(auto, using(ados_change::proofs::Keeping::same_keeps))]
pub fn redate(volume: &mut Volume, key: u32, date: Date3, moment: Date3) -> Result<(), DosError>
    requires { HasKey volume.old.image key }
    ensures done { Changes (root_refusal key) (λ _ t. with_date moment key date t) volume.old volume.new result }
    ensures validated { volume.new.was_validated ≡ volume.old.was_validated }
{
    if key == volume.root() {
        return Err(DosError::ObjectWrongType);
    }
    volume.set_date(key, date, moment);
    Ok(())
}

/// Renames the volume. The disk date becomes `moment`.
///
/// Error: 210 for a text that is not a name.
#[tactic(auto, using(ados_change::proofs::Keeping::same_keeps))]
pub fn relabel(volume: &mut Volume, name: &[u8], moment: Date3) -> Result<(), DosError>
    ensures done { Relabels moment name.now volume.old volume.new result }
    ensures validated { volume.new.was_validated ≡ volume.old.was_validated }
{
    let Ok(name) = Name::new(name) else {
        return Err(DosError::InvalidComponentName);
    };
    volume.rename_disk(name, moment);
    Ok(())
}
