//! The values of a bundle's members, read from JSON.

use crate::bundle_fault::BundleWhy;
use adf_block::Format;
use adf_text::{LettersFault, date_of_text, letter_bytes};
use ados_name::{Comment, Date3, Name};
use json::{Reader, Token};
use std::alloc::Global;

/// The most bytes of a boot block.
const BOOT_BYTES: usize = 1_024;

/// The token of a value.
fn value_of<'a>(reader: &mut Reader<'a>) -> Result<Token<'a>, BundleWhy> {
    match reader.next() {
        None | Some(Token::Bad) => Err(BundleWhy::NotJson(reader.offset())),
        Some(token) => Ok(token),
    }
}

/// A member, and what its value has to be.
#[derive(Clone, Copy)]
struct Wanted {
    member: &'static str,
    wanted: &'static str,
}

impl Wanted {
    /// The fault of another value.
    fn wrong(self) -> BundleWhy {
        BundleWhy::Wrong {
            member: self.member,
            wanted: self.wanted,
        }
    }

    /// A text.
    fn text<'a>(self, reader: &mut Reader<'a>) -> Result<&'a str, BundleWhy> {
        match value_of(reader)? {
            Token::String(text) => Ok(text),
            _ => Err(self.wrong()),
        }
    }

    /// The bytes of a text's letters.
    fn bytes(self, alloc: Global, reader: &mut Reader<'_>) -> Result<Vec<u8>, BundleWhy> {
        match letter_bytes(alloc, self.text(reader)?) {
            Ok(bytes) => Ok(bytes),
            Err(LettersFault::NoByte { .. }) => Err(self.wrong()),
            Err(LettersFault::Memory) => Err(BundleWhy::Memory),
        }
    }
}

/// The kind of a volume.
pub(crate) fn kind_of(reader: &mut Reader<'_>) -> Result<Format, BundleWhy> {
    let wanted = Wanted {
        member: "kind",
        wanted: "\"OFS\" or \"FFS\"",
    };
    match wanted.text(reader)? {
        "OFS" => Ok(Format::Ofs),
        "FFS" => Ok(Format::Ffs),
        _ => Err(wanted.wrong()),
    }
}

/// The name of a volume.
pub(crate) fn label_of(alloc: Global, reader: &mut Reader<'_>) -> Result<Name, BundleWhy> {
    let wanted = Wanted {
        member: "label",
        wanted: "1 to 30 letters up to U+00FF without `/` and `:`",
    };
    let bytes = wanted.bytes(alloc, reader)?;
    Name::new(&bytes).map_err(|_| wanted.wrong())
}

/// A path, as the bytes of its letters.
pub(crate) fn path_of(alloc: Global, reader: &mut Reader<'_>) -> Result<Vec<u8>, BundleWhy> {
    let wanted = Wanted {
        member: "path",
        wanted: "a text of letters up to U+00FF",
    };
    wanted.bytes(alloc, reader)
}

/// A comment.
pub(crate) fn comment_of(alloc: Global, reader: &mut Reader<'_>) -> Result<Comment, BundleWhy> {
    let wanted = Wanted {
        member: "comment",
        wanted: "at most 79 letters up to U+00FF",
    };
    let bytes = wanted.bytes(alloc, reader)?;
    Comment::new(&bytes).map_err(|_| wanted.wrong())
}

/// Whether an entry is a directory.
pub(crate) fn is_directory_of(reader: &mut Reader<'_>) -> Result<bool, BundleWhy> {
    let wanted = Wanted {
        member: "type",
        wanted: "\"file\" or \"directory\"",
    };
    match wanted.text(reader)? {
        "file" => Ok(false),
        "directory" => Ok(true),
        _ => Err(wanted.wrong()),
    }
}

/// A number of 32 bits.
pub(crate) fn number_of(reader: &mut Reader<'_>, member: &'static str) -> Result<u32, BundleWhy> {
    let wanted = Wanted {
        member,
        wanted: "a whole number from 0 to 4,294,967,295",
    };
    let Token::Number(text) = value_of(reader)? else {
        return Err(wanted.wrong());
    };
    text.parse::<u32>().map_err(|_| wanted.wrong())
}

/// A date.
pub(crate) fn date_of(
    alloc: Global,
    reader: &mut Reader<'_>,
    member: &'static str,
) -> Result<Date3, BundleWhy> {
    let wanted = Wanted {
        member,
        wanted: "a date, as \"1990-01-31 12:00:00.00\" or \"raw DAYS MINUTES TICKS\"",
    };
    let text = wanted.text(reader)?;
    date_of_text(alloc, text.as_bytes())?.ok_or(wanted.wrong())
}

/// The bytes of a boot block. Zeros at their end may be left out.
pub(crate) fn boot_of(alloc: Global, reader: &mut Reader<'_>) -> Result<Vec<u8>, BundleWhy> {
    let wanted = Wanted {
        member: "boot",
        wanted: "at most 1,024 bytes as hexadecimal digits",
    };
    let text = wanted.text(reader)?;
    if text.len() > 2 * BOOT_BYTES {
        return Err(wanted.wrong());
    }
    let mut bytes = match hex::decode(alloc, text.as_bytes()) {
        Ok(bytes) => bytes,
        Err(hex::FromHexError::OutOfMemory) => return Err(BundleWhy::Memory),
        Err(_) => return Err(wanted.wrong()),
    };
    bytes.resize(BOOT_BYTES, 0)?;
    Ok(bytes)
}
