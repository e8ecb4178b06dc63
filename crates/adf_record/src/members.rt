//! Members of JSON objects.
ghost use Rattle.std.specs.Prelude.{◌≡◌, ◌++◌, ◌∷◌, [], OnOk, option_map};
ghost use Rattle.json.specs.Token.{key, boolean};
ghost use Rattle.adf_record.specs.Members.{number_token, string_token};

use json::Writer;
use std::alloc::AllocError;

/// Writes a member that is true or false.
pub fn put_flag(writer: &mut Writer, name: &str, value: bool) -> Result<(), AllocError>
    ensures before { writer.new.before ≡ writer.old.before }
    ensures tokens { OnOk result (writer.new.tokens ≡ writer.old.tokens ++ key name.now ∷ boolean value ∷ []) }
{
    writer.key(name)?;
    writer.boolean(value)
}

/// Writes a member that is a number or null.
pub fn put_number(writer: &mut Writer, name: &str, value: Option<u64>) -> Result<(), AllocError>
    ensures before { writer.new.before ≡ writer.old.before }
    ensures tokens { OnOk result (writer.new.tokens ≡ writer.old.tokens ++ key name.now ∷ number_token value ∷ []) }
{
    writer.key(name)?;
    match value {
        Some(number) => writer.u64(number),
        None => writer.null(),
    }
}

/// Writes a member that is a text or null.
pub fn put_text(writer: &mut Writer, name: &str, value: Option<&str>) -> Result<(), AllocError>
    ensures before { writer.new.before ≡ writer.old.before }
    ensures tokens { OnOk result (writer.new.tokens ≡ writer.old.tokens ++ key name.now ∷ string_token (option_map (λ text. text.now) value.entry) ∷ []) }
{
    writer.key(name)?;
    match value {
        Some(text) => writer.string(text),
        None => writer.null(),
    }
}
