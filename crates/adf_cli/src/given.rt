//! The program's command line arguments.
ghost use Rattle.std.specs.Prelude.{◌≡◌, IfOk, IfErr};
ghost use Rattle.std.specs.String.{string_bytes};
ghost use Rattle.adf_cli.specs.Given.{TellsForeign};

use crate::fault::WordsFault;
use adf_text::Grouped;
use std::alloc::Global;
use std::env::FillError;
use std::rt::Env;

/// Bytes in the longest argument that Linux passes to a program.
const LONGEST: usize = 131_072;

/// Bytes for most arguments. A larger buffer is allocated only for an argument that needs it.
const USUAL: usize = 1_024;

/// The arguments after the program's name. If one is not UTF-8, the command line is wrong, and the text says which one
/// it is.
pub fn given_words<E: Env>(rt: &E, alloc: Global) -> Result<Vec<String>, WordsFault> {
    let mut buffer = vec![in alloc; 0u8; USUAL]?;
    let mut words = Vec::new(alloc);
    add_words(rt, alloc, &mut buffer, &mut words)?;
    Ok(words)
}

/// Appends the arguments after the program's name.
fn add_words<E: Env>(
    rt: &E,
    alloc: Global,
    buffer: &mut Vec<u8>,
    words: &mut Vec<String>,
) -> Result<(), WordsFault> {
    for place in 1..usize::MAX {
        words.reserve(1)?;
        match given_word(rt, alloc, place, buffer)? {
            Some(word) => words.push_reserved(word),
            None => return Ok(()),
        }
    }
    Ok(())
}

/// The argument at a position; `None` after the last. The buffer grows if the argument does not fit.
fn given_word<E: Env>(
    rt: &E,
    alloc: Global,
    place: usize,
    buffer: &mut Vec<u8>,
) -> Result<Option<String>, WordsFault> {
    if let Err(FillError::TooLong) = rt.arg(place, buffer) {
        buffer.resize(LONGEST, 0)?;
    }
    match rt.arg(place, buffer) {
        Ok(length) => Ok(Some(word_of(alloc, place, &buffer[..length])?)),
        Err(FillError::NotPresent) => Ok(None),
        Err(FillError::TooLong) => Err(WordsFault::wrong(
            alloc,
            format_args!("error: argument {} is too long", Grouped(place as u64)),
        )),
    }
}

/// The argument with these bytes. `place` is its position; the first after the program's name is 1.
pub fn word_of(alloc: Global, place: usize, bytes: &[u8]) -> Result<String, WordsFault>
    ensures word { IfOk result (λ word. string_bytes word ≡ bytes.now) }
    ensures foreign { IfErr result (TellsForeign bytes.now) }
{
    match std::str::from_utf8(bytes) {
        Ok(word) => Ok(String::from_str(alloc, word)?),
        Err(_) => {
            let shown = String::from_utf8_lossy(alloc, bytes)?;
            Err(WordsFault::wrong(
                alloc,
                format_args!(
                    "error: argument {}, '{}', is not UTF-8",
                    Grouped(place as u64),
                    shown.as_str()
                ),
            ))
        }
    }
}
