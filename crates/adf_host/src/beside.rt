//! The name of the temporary file beside another one, for its new bytes.
ghost use Rattle.std.specs.Prelude.{◌≡◌, ◌<◌, ◌^◌, ℕ, IfOk, Some};
ghost use Rattle.std.specs.Path.{path_buf_bytes, path_with_file_name};
ghost use Rattle.adf_host.specs.Beside.{beside_name, former_name};

use crate::letters::LETTERS;
use std::alloc::{AllocError, Global};
use std::path::{Path, PathBuf};

/// The path of a file beside this one, in the same directory: `.adf_serve-LETTERS.new`. Each try has other letters, which
/// nobody can guess, so that nobody takes all names first.
pub fn beside_path(alloc: Global, path: &str, letters: &str) -> Result<PathBuf, AllocError>
    ensures { IfOk result (λ beside. path_buf_bytes beside ≡ path_with_file_name path.now (beside_name letters.now)) }
{
    let name = format!(in alloc; ".adf_serve-{letters}.new")?;
    Path::new(path).with_file_name(alloc, name.as_str())
}

/// Whether this is the name of a temporary file, or of one of a former version, which had a number below 1,000.
pub(crate) fn is_beside_name(alloc: Global, name: &[u8]) -> Result<bool, AllocError> {
    if let Some(number) = beside_number(name) {
        let former = format!(in alloc; ".adf_serve-{number}.new")?;
        return Ok(number < 1_000 && former.as_bytes() == name);
    }
    match middle_of(name) {
        Some(middle) => Ok(are_letters(middle)),
        None => Ok(false),
    }
}

/// The number in the name of a temporary file of a former version. Most other names have none.
fn beside_number(name: &[u8]) -> Option<u32>
    ensures { (number : ℕ) → number < 2 ^ 32 → name.now ≡ former_name number → result ≡ Some number }
{
    let behind = name.strip_prefix(b".adf_serve-".as_slice())?;
    let digits = behind.strip_suffix(b".new".as_slice())?;
    match str::from_utf8(digits) {
        Ok(text) => text.parse().ok(),
        Err(_) => None,
    }
}

/// What is between the front and the end of the name of a temporary file.
fn middle_of(name: &[u8]) -> Option<&[u8]> {
    let behind = name.strip_prefix(b".adf_serve-".as_slice())?;
    behind.strip_suffix(b".new".as_slice())
}

/// Whether these are the letters of a temporary file.
fn are_letters(text: &[u8]) -> bool {
    if text.len() != LETTERS {
        return false;
    }
    for letter in text {
        if !letter.is_ascii_lowercase() {
            return false;
        }
    }
    true
}
