//! Protection bits as the letters `hsparwed`.
ghost use Rattle.std.specs.Prelude.{◌≡◌, ◌↔◌, ◌<◌, ◌≤◌, IsTrue, IsSome, IfSome, if◌then◌else◌, count_by};
ghost use Rattle.adf_text.specs.ProtectionLetters.{has, protection_letters, protection_of, AreLetters, IsLetterSet, ProtectionComesBack};

use ados_name::Protect;

/// Bits 7 to 0 as the letters `hsparwed`, in the form of the emulators FS-UAE and Amiberry. `h`, `s`, `p` and `a` are
/// shown for set bits 7 to 4, `r`, `w`, `e` and `d` for clear bits 3 to 0, and a dash otherwise.
pub fn protection_letters(protect: Protect) -> [u8; 8]
    ensures { result ≡ protection_letters protect.0 }
{
    let seven = protect.letters();
    [
        if protect.bits() / 128 % 2 == 1 {
            b'h'
        } else {
            b'-'
        },
        seven[0],
        seven[1],
        seven[2],
        seven[3],
        seven[4],
        seven[5],
        seven[6],
    ]
}

/// The eight bits for letters. The text is eight places, each its letter of `hsparwed` or a dash, or some of these
/// letters in any order. All other bits are clear.
pub fn protection_of_letters(text: &[u8]) -> Option<Protect>
    ensures spelled { IsSome result ↔ AreLetters text.now }
    ensures bits { IfSome result (λ protect. protect.0 ≡ protection_of text.now) }
{
    let protect = spelled_bits(text);
    if is_letter_set(text) || text == protection_letters(protect).as_slice() {
        return Some(protect);
    }
    None
}

pub(crate) fn spelled_bits(text: &[u8]) -> Protect
    ensures value { result.0 ≡ protection_of text.now }
    ensures eight { result.0 < 256 }
{
    Protect(
        bit(text.contains(&b'h'), 128)
            + bit(text.contains(&b's'), 64)
            + bit(text.contains(&b'p'), 32)
            + bit(text.contains(&b'a'), 16)
            + bit(!text.contains(&b'r'), 8)
            + bit(!text.contains(&b'w'), 4)
            + bit(!text.contains(&b'e'), 2)
            + bit(!text.contains(&b'd'), 1),
    )
}

pub(crate) fn bit(set: bool, value: u32) -> u32
    ensures value { result ≡ (if set then value else 0) }
    ensures small { result ≤ value }
{
    if set { value } else { 0 }
}

fn is_letter_set(text: &[u8]) -> bool
    ensures { IsTrue result ↔ IsLetterSet text.now }
{
    count_of(b"hsparwed", text) == text.len()
}

// The number of these letters in the text.
fn count_of(letters: &[u8], text: &[u8]) -> usize
    ensures { result ≡ count_by (has text.now) letters.now }
{
    letters
        .iter()
        .filter(|letter| text.contains(*letter))
        .count()
}

/// The letters of protection bits are read back as the same eight bits.
pub fn protection_letters_come_back()
    ensures { ProtectionComesBack }
{}
