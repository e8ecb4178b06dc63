//! The names in a directory of the host.
ghost use Rattle.std.specs.Prelude.{◌≡◌, ◌⊎◌, IfOk};
ghost use Rattle.std.specs.Str.{IsUtf8};
ghost use Rattle.std.specs.String.{string_bytes};

use std::alloc::{AllocError, Global};

/// A name as text.
#[derive(Drop)]
pub(crate) struct TextName {
    pub(crate) text: String,
    /// Whether this is the host's name. Otherwise that is not UTF-8, and the text has escapes for its bytes.
    pub(crate) is_hosts: bool,
}

/// The names among these bytes, each followed by a zero byte, in the order of their bytes, without `.` and `..`.
pub(crate) fn names_in(alloc: Global, bytes: &[u8]) -> Result<Vec<&[u8]>, AllocError> {
    let mut names = Vec::new(alloc);
    for name in bytes.split(|byte| *byte == 0) {
        if !(name.is_empty() || name == b".".as_slice() || name == b"..".as_slice()) {
            names.push(name)?;
        }
    }
    names.sort_unstable();
    Ok(names)
}

/// A name as text.
pub(crate) fn text_name(alloc: Global, name: &[u8]) -> Result<TextName, AllocError>
    ensures { IfOk result (λ named. (string_bytes named.text ≡ name.now) ⊎ ¬ (IsUtf8 name.now)) }
{
    match str::from_utf8(name) {
        Ok(text) => Ok(TextName {
            text: String::from_str(alloc, text)?,
            is_hosts: true,
        }),
        Err(_) => Ok(TextName {
            text: escaped_name(alloc, name)?,
            is_hosts: false,
        }),
    }
}

/// A name with an escape for each byte that is not ASCII: `%` and two upper-case hexadecimal digits.
fn escaped_name(alloc: Global, name: &[u8]) -> Result<String, AllocError> {
    let mut text = String::new(alloc);
    for byte in name {
        if byte.is_ascii() && *byte != b'%' {
            text.push(char::from(*byte))?;
        } else {
            let escape = format!(in alloc; "%{byte:02X}")?;
            text.push_str(escape.as_str())?;
        }
    }
    Ok(text)
}
