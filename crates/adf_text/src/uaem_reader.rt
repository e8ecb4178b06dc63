//! The note beside a host file, read back.
ghost use Rattle.std.specs.Prelude.{◌≡◌, ◌<◌, ◌↔◌, ◌++◌, false, All, IsTrue, IfOk, IfErr, IfNone, IfSome};
ghost use Rattle.adf_text.specs.Escapes.{is_control};
ghost use Rattle.adf_text.specs.ProtectionLetters.{protection_letters};
ghost use Rattle.adf_text.specs.UaemReads.{IsLineEnd, BeginsWithBits, comment_of, Reads, IsUaemFaultOf, ReadsOne, FaultReadsNone, UaemComesBack};
ghost use Rattle.adf_text.specs.steps.Parts.{StopsLine, IsOnlyLine, BreaksLine, HasNoBits, IsLong, IsTooLong};

use crate::escapes::is_control;
use crate::leading_date::leading_date;
use crate::letters::{LettersFault, letter_bytes};
use crate::protection::{protection_letters, spelled_bits};
use crate::uaem::Uaem;
use ados_name::{Comment, Protect};
use percent_encoding::percent_decode;
use std::alloc::{AllocError, Global};
use std::str;

/// Why a note cannot be read. Places count letters from 0; in `NotUtf8` they count bytes.
#[derive(Clone, Copy, PartialEq, Eq)]
pub enum UaemFault {
    /// The file is not UTF-8 from this byte.
    NotUtf8 { place: usize },
    /// The first letter past U+00FF.
    NoByte { letter: char, place: usize },
    /// The first control character (00 to 1F, 7F to 9F) that is not the end of the line. A second line counts as one.
    Control { place: usize },
    /// The line does not start with eight places of `hsparwed`, each its letter or a dash, and a space.
    NoProtection,
    /// After the protection, at place 9, there is no date `YYYY-MM-DD HH:MM:SS.CC` with even `CC`, and no `raw DAYS
    /// MINUTES TICKS`.
    NoDate,
    /// The comment has this many bytes; 79 are allowed.
    LongComment { length: usize },
    /// Out of memory.
    Memory,
}

impl From<AllocError> for UaemFault {
    ghost use Rattle.std.specs.Prelude.{◌≡◌};
    ghost use Rattle.adf_text.specs.declared.uaem_reader.UaemFault.TheVariants.{Memory};

    ghost from_gives = { λ _ fault. fault ≡ Memory };

    fn from(_: AllocError) -> Self {
        UaemFault::Memory
    }
}

impl From<LettersFault> for UaemFault {
    ghost use Rattle.std.specs.Prelude.{◌≡◌};
    ghost use Rattle.adf_text.specs.steps.Parts.{uaem_fault};

    ghost from_gives = { λ fault own. own ≡ uaem_fault fault };

    fn from(fault: LettersFault) -> Self {
        match fault {
            LettersFault::NoByte { letter, place } => UaemFault::NoByte { letter, place },
            LettersFault::Memory => UaemFault::Memory,
        }
    }
}

/// Reads the note that FS-UAE and Amiberry keep beside a file, under its name and `.uaem`. It is the inverse of
/// `uaem_line`.
///
/// The file is one line in UTF-8. It ends in a line feed, in a carriage return and a line feed, or in nothing. The
/// comment after the date may be missing, with or without its space. In the comment, `%` and two hexadecimal digits
/// are a byte, and any other `%` is the byte `%`. Anything else is a fault.
pub fn read_uaem(alloc: Global, file: &[u8]) -> Result<Uaem, UaemFault>
    ensures ok { IfOk result (Reads file.now) }
    ensures fault { IfErr result (IsUaemFaultOf file.now) }
{
    let text = match str::from_utf8(file) {
        Ok(text) => text,
        Err(error) => {
            return Err(UaemFault::NotUtf8 {
                place: error.valid_up_to(),
            });
        }
    };
    let letters = letter_bytes(alloc, text)?;
    let line = one_line(&letters)?;
    let Some((protect, dated)) = leading_protection(line) else {
        return Err(UaemFault::NoProtection);
    };
    let Some((date, behind)) = leading_date(alloc, dated)? else {
        return Err(UaemFault::NoDate);
    };
    let comment = comment_behind(alloc, behind)?;
    Ok(Uaem {
        protect,
        date,
        comment,
    })
}

// The line of the text, without its end.
fn one_line(text: &[u8]) -> Result<&[u8], UaemFault>
    ensures ok { IfOk result (λ line. IsOnlyLine text.now line.now) }
    ensures fault { IfErr result (BreaksLine text.now) }
{
    let (line, end) = split_at_control(text);
    if !is_line_end(end) {
        return Err(UaemFault::Control { place: line.len() });
    }
    Ok(line)
}

// The bytes before the first control character, and the rest from there.
fn split_at_control(text: &[u8]) -> (&[u8], &[u8])
    ensures whole { text.now ≡ result.0.now ++ result.1.now }
    ensures plain { All (λ c. is_control c ≡ false) result.0.now }
    ensures stops { StopsLine result.1.now }
{
    let place = text
        .iter()
        .position(|byte| is_control(*byte))
        .unwrap_or(text.len());
    text.split_at(place)
}

fn is_line_end(text: &[u8]) -> bool
    ensures { IsTrue result ↔ IsLineEnd text.now }
{
    match text {
        [] => true,
        [only] => *only == b'\n',
        [first, second] => *first == b'\r' && *second == b'\n',
        _ => false,
    }
}

// The bits at the start of the line, and the rest after the space.
fn leading_protection(line: &[u8]) -> Option<(Protect, &[u8])>
    ensures none { IfNone result (HasNoBits line.now) }
    ensures bits { IfSome result (λ found. BeginsWithBits line.now found.0.0 found.1.now) }
    ensures eight { IfSome result (λ found. found.0.0 < 256) }
{
    let (front, behind) = line.split_at_checked(8)?;
    let protect = spelled_bits(front);
    if !are_letters_of(front, protect) {
        return None;
    }
    let (space, dated) = behind.split_first()?;
    if *space != b' ' {
        return None;
    }
    Some((protect, dated))
}

fn are_letters_of(text: &[u8], protect: Protect) -> bool
    ensures { IsTrue result ↔ (text.now ≡ protection_letters protect.0) }
{
    text == protection_letters(protect).as_slice()
}

// The comment in the rest after the date.
fn comment_behind(alloc: Global, behind: &[u8]) -> Result<Comment, UaemFault>
    ensures ok { IfOk result (λ comment. comment ≡ comment_of behind.now) }
    ensures fault { IfErr result (IsTooLong behind.now) }
{
    let bytes = comment_bytes(alloc, behind)?;
    short_comment(&bytes)
}

fn short_comment(bytes: &[u8]) -> Result<Comment, UaemFault>
    ensures ok { IfOk result (λ comment. comment ≡ bytes.now) }
    ensures fault { IfErr result (IsLong bytes.now) }
{
    let Ok(comment) = Comment::new(bytes) else {
        return Err(UaemFault::LongComment {
            length: bytes.len(),
        });
    };
    Ok(comment)
}

fn comment_bytes(alloc: Global, behind: &[u8]) -> Result<Vec<u8>, AllocError>
    ensures { IfOk result (λ bytes. bytes.items ≡ comment_of behind.now) }
{
    let mut bytes = Vec::new(alloc);
    let [_, shown @ ..] = behind else {
        return Ok(bytes);
    };
    percent_decode(shown).append_to(&mut bytes)?;
    Ok(bytes)
}

/// A file is read as at most one note.
pub fn uaem_reads_one()
    ensures one { ReadsOne }
    ensures none { FaultReadsNone }
{}

/// The line of `uaem_line` is read back as the same eight bits, date and comment.
pub fn uaem_comes_back()
    ensures { UaemComesBack }
{}
