//! Texts for people, whose control characters are written as escapes.
ghost use Rattle.std.specs.Prelude.{◌≡◌, ◌++◌, false, true, IfSome, IsTrue, MatchOption, OnOk, codes};
ghost use Rattle.std.specs.Char.{encode_utf8};
ghost use Rattle.std.specs.Str.{IsUtf8};
ghost use Rattle.std.specs.Io.KnownBytes.{Appends};
ghost use Rattle.adf_text.specs.Plain.{plain, plain_letter};

use crate::escapes::is_control;
use percent_encoding::percent_encode_byte;
use std::alloc::AllocError;
use std::fmt;
use std::fmt::{Display, Write as WriteText};
use std::io::Write;

/// Writes a text as one line, and returns whether all of it was written. Its control characters (U+0000 to U+001F, U+007F to
/// U+009F) are written as `%` and two upper-case hexadecimal digits, so that no name in it steers a terminal or begins another
/// line.
pub fn print_line<W: Write, T: Display + Drop>(writer: &mut W, text: T) -> bool
    ensures { IsTrue result → IfSome (T.output text)
        (λ bytes. Appends (W.contents writer.old) (W.contents writer.new) (plain false bytes ++ codes "\n")) }
{
    write_line(writer, text).is_ok()
}

/// Writes a text of several lines, each with its line feed, and returns whether all of it was written. Its other control
/// characters are written as escapes.
pub fn print_lines<W: Write>(writer: &mut W, text: &str) -> bool
    ensures { IsTrue result → Appends (W.contents writer.old) (W.contents writer.new) (plain true text.now) }
{
    put_plain(writer, text, true).is_ok()
}

/// Appends a text of one line, with escapes for its control characters.
pub fn push_plain(bytes: &mut Vec<u8>, text: &str) -> Result<(), AllocError>
    ensures { OnOk result (bytes.new.items ≡ bytes.old.items ++ plain false text.now) }
{
    put_plain(bytes, text, false).map_err(|_| AllocError)
}

/// Writes a text as one line, with escapes for its control characters.
fn write_line<W: Write, T: Display + Drop>(writer: &mut W, text: T) -> fmt::Result
    ensures { OnOk result (IfSome (T.output text)
        (λ bytes. Appends (W.contents writer.old) (W.contents writer.new) (plain false bytes ++ codes "\n"))) }
{
    let written = write_plain(writer, text);
    put(writer, b"\n")?;
    written
}

/// Writes a text of one line, with escapes for its control characters.
fn write_plain<W: Write, T: Display + Drop>(writer: &mut W, text: T) -> fmt::Result
    ensures { OnOk result (IfSome (T.output text) (λ bytes. Appends (W.contents writer.old) (W.contents writer.new) (plain false bytes))) }
{
    let mut plain = Plain { writer };
    let written = plain.write(text);
    // No effect at run time. The proof reads from this use what the writer holds.
    let _ = &*plain.writer;
    written
}

/// A writer of texts of one line, with escapes for their control characters.
#[derive(Drop)]
struct Plain<'a, W> {
    writer: &'a mut W,
}

impl<W: Write> WriteText for Plain<'_, W> {
    ghost write_str_gives = { λ s bs t. (t.writer.ghost_name ≡ s.writer.ghost_name) × IsUtf8 bs
        × Appends (W.contents s.writer.now) (W.contents t.writer.now) (plain false bs) };

    fn write_str(&mut self, text: &str) -> fmt::Result {
        put_plain(self.writer, text, false)
    }
}

/// Writes a text with escapes for its control characters.
fn put_plain<W: Write>(writer: &mut W, text: &str, has_lines: bool) -> fmt::Result
    ensures { OnOk result (Appends (W.contents writer.old) (W.contents writer.new) (plain has_lines text.now)) }
{
    let bytes = text.as_bytes();
    // Up to here the text is written.
    let mut front = 0;
    for (place, letter) in text.char_indices() {
        if let Some(escape) = escape_of(letter, has_lines) {
            put(writer, &bytes[front..place])?;
            put(writer, escape.as_bytes())?;
            front = place + letter.len_utf8();
        }
    }
    put(writer, &bytes[front..])
}

/// Writes bytes as they are.
fn put<W: Write>(writer: &mut W, bytes: &[u8]) -> fmt::Result
    ensures { OnOk result (Appends (W.contents writer.old) (W.contents writer.new) bytes.now) }
{
    if bytes.is_empty() || writer.write_all(bytes).is_ok() {
        return Ok(());
    }
    Err(fmt::Error)
}

/// The escape for a letter; `None` for one that is written as it is.
fn escape_of(letter: char, has_lines: bool) -> Option<&'static str>
    ensures { MatchOption result (plain_letter has_lines letter ≡ encode_utf8 letter) (λ escape. plain_letter has_lines letter ≡ escape.now) }
{
    match u8::try_from(letter) {
        Ok(byte) if is_control(byte) && !(has_lines && byte == b'\n') => {
            Some(percent_encode_byte(byte))
        }
        _ => None,
    }
}
