//! Letters that nobody can guess, for the names of temporary files.
ghost use Rattle.std.specs.Prelude.{IfOk};
ghost use Rattle.std.specs.String.{string_bytes};
ghost use Rattle.adf_host.specs.Beside.{AreLetters};

use std::alloc::{AllocError, Global};
use std::fs;
use std::os::unix::fs::MetadataExt;
use std::random::RandomSource;
use std::rt::{Clock, Files};
use std::time::{SystemTime, UNIX_EPOCH};

/// The number of letters. With them the name of a temporary file has 31 bytes and no `%`, so it is the host name of no
/// entry, which has at most 30 letters.
pub(crate) const LETTERS: usize = 16;

/// Sixteen letters: random ones of the host. Where it has none, they are made of the time, of a number of this process and
/// of the number of the attempt.
pub(crate) fn random_letters<R: Files + Clock + RandomSource>(
    rt: &R,
    alloc: Global,
    attempt: u32,
) -> Result<String, AllocError>
    ensures { IfOk result (λ text. AreLetters (string_bytes text)) }
{
    let mut bytes = [0; LETTERS];
    if rt.fill_bytes(&mut bytes).is_err() {
        bytes = unlike_others(rt, attempt).to_le_bytes();
    }
    letters_of(alloc, &bytes)
}

/// A number that no other process has at the same time, and this one at no other time.
fn unlike_others<R: Files + Clock>(rt: &R, attempt: u32) -> u128 {
    let nanos = match SystemTime::now(rt) {
        Ok(now) => match now.duration_since(UNIX_EPOCH) {
            Ok(since) => since.as_nanos(),
            Err(_) => 0,
        },
        Err(_) => 0,
    };
    let process = match fs::metadata(rt, "/proc/self") {
        Ok(found) => found.ino(),
        Err(_) => 0,
    };
    nanos
        .wrapping_add(u128::from(attempt))
        .wrapping_mul(SPREAD)
        .wrapping_add(u128::from(process))
}

/// An odd factor that spreads the digits of a number over sixteen bytes: 2^127 over the golden ratio.
const SPREAD: u128 = 0x4F1B_BCDC_BFA5_3E0A_F9CE_6030_2E76_E41B;

/// A letter from `a` to `z` for each of these bytes.
fn letters_of(alloc: Global, bytes: &[u8; LETTERS]) -> Result<String, AllocError>
    ensures { IfOk result (λ text. AreLetters (string_bytes text)) }
{
    let mut text = String::new(alloc);
    for byte in bytes {
        text.push(char::from(b'a' + *byte % 26))?;
    }
    Ok(text)
}
