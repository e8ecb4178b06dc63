//! The JSON objects of deleted entries.
ghost use Rattle.std.specs.Prelude.{◌≡◌, ◌++◌, ◌∷◌, [], OnOk, codes, drop, option_map};
ghost use Rattle.json.specs.Print.{print};
ghost use Rattle.json.specs.Token.{key};
ghost use Rattle.adf_text.specs.Letters.{letters};
ghost use Rattle.adf_record.specs.Members.{string_token};
ghost use Rattle.adf_rescue.specs.DeletedObject.{blocks_of, deleted_tokens, recovery_tokens, recovery_word, taken_of, user_of};

use crate::deleted_lines::{behind_slash, user_of};
use adf_record::{put_number, put_text};
use adf_text::letter_text;
use ados_salvage::{Deleted, Recovery};
use json::Writer;
use std::alloc::{AllocError, Global};

/// Appends the object of a deleted entry with this path, on a line of its own.
pub(crate) fn push_object(
    alloc: Global,
    text: &mut Vec<u8>,
    path: Option<&[u8]>,
    deleted: Deleted,
) -> Result<(), AllocError>
    ensures { OnOk result (text.new.items ≡ text.old.items ++ (print (deleted_tokens (option_map (λ path. path.now) path.entry) deleted) ++ codes "\n")) }
{
    let mut writer = Writer::new(Vec::new(alloc));
    put_deleted(alloc, &mut writer, path, deleted)?;
    let object = writer.into_inner();
    text.extend_from_slice(&object)?;
    text.push(b'\n')?;
    Ok(())
}

/// Writes the object of a deleted entry.
fn put_deleted(
    alloc: Global,
    writer: &mut Writer,
    path: Option<&[u8]>,
    deleted: Deleted,
) -> Result<(), AllocError>
    ensures before { writer.new.before ≡ writer.old.before }
    ensures tokens { OnOk result (writer.new.tokens ≡ writer.old.tokens ++ deleted_tokens (option_map (λ path. path.now) path.entry) deleted) }
{
    writer.begin_object()?;
    put_path(alloc, writer, path)?;
    put_number(writer, "header", Some(u64::from(deleted.header)))?;
    put_recovery(writer, deleted.recovery)?;
    writer.end_object()
}

/// Writes a path in letters, without its first slash, or null.
fn put_path(alloc: Global, writer: &mut Writer, path: Option<&[u8]>) -> Result<(), AllocError>
    ensures before { writer.new.before ≡ writer.old.before }
    ensures tokens { OnOk result (writer.new.tokens ≡ writer.old.tokens ++ key (codes "path") ∷ string_token (option_map (λ path. letters (drop 1 path)) (option_map (λ path. path.now) path.entry)) ∷ []) }
{
    let Some(path) = path else {
        return put_text(writer, "path", None);
    };
    let shown = letter_text(alloc, behind_slash(path))?;
    put_text(writer, "path", Some(shown.as_str()))
}

/// Writes how much of an entry can be recovered.
fn put_recovery(writer: &mut Writer, recovery: Recovery) -> Result<(), AllocError>
    ensures before { writer.new.before ≡ writer.old.before }
    ensures tokens { OnOk result (writer.new.tokens ≡ writer.old.tokens ++ recovery_tokens recovery) }
{
    put_text(writer, "recovery", Some(recovery_word(recovery)))?;
    put_number(writer, "blocks", blocks_of(recovery))?;
    put_number(writer, "taken", taken_of(recovery))?;
    put_number(writer, "by", by_of(recovery))
}

/// How much of an entry can be recovered, as one word.
fn recovery_word(recovery: Recovery) -> &'static str
    ensures { result.now ≡ recovery_word recovery }
{
    match recovery {
        Recovery::Directory => "directory",
        Recovery::Free { .. } => "free",
        Recovery::Used { .. } => "used",
        Recovery::Shared { .. } => "shared",
        Recovery::NotIntact => "damaged",
    }
}

/// The number of an entry's blocks.
fn blocks_of(recovery: Recovery) -> Option<u64>
    ensures { result ≡ blocks_of recovery }
{
    match recovery {
        Recovery::Free { all } | Recovery::Used { all, .. } | Recovery::Shared { all, .. } => {
            Some(all as u64)
        }
        Recovery::Directory | Recovery::NotIntact => None,
    }
}

/// The number of its blocks that another entry has.
fn taken_of(recovery: Recovery) -> Option<u64>
    ensures { result ≡ taken_of recovery }
{
    match recovery {
        Recovery::Free { .. } => Some(0),
        Recovery::Used { used, .. } => Some(used as u64),
        Recovery::Shared { shared, .. } => Some(shared as u64),
        Recovery::Directory | Recovery::NotIntact => None,
    }
}

/// The header of an entry that has some of its blocks now, where one is known.
fn by_of(recovery: Recovery) -> Option<u64>
    ensures { result ≡ user_of recovery }
{
    match user_of(recovery) {
        Some(header) => Some(u64::from(header)),
        None => None,
    }
}
