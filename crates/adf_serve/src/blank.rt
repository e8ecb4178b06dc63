//! The command `blank`.
ghost use Rattle.std.specs.Prelude.{◌≡◌, List, ℕ, MatchResult, IfErr, IfOk, Some};
ghost use Rattle.ados_name.specs.Name.{IsName};
ghost use Rattle.ados_model.specs.Blank.{IsBlank};
ghost use Rattle.adf_serve.specs.Faults.{IsBlankFault, IsNamed, IsNameFault};
ghost use Rattle.adf_serve.specs.NewImages.{PutsMade};
ghost use Rattle.adf_serve.specs.NewImages.Made.{ABlank};

use crate::changing::given_or_now;
use crate::fault::CommandFault;
use crate::images::write_held;
use crate::output::{is_output, put_image};
use adf_block::{Format, size_ok};
use adf_host::{PromptFiles, hold_target};
use adf_text::{LettersFault, letter_bytes, print_line};
use ados_name::{Date3, Name};
use ados_volume::{Volume, blank};
use std::alloc::Global;
use std::fs::File;
use std::io::Write;
use std::rt::{Clock, Files};

/// A volume to make.
#[derive(Clone, Copy)]
pub(crate) struct NewVolume<'a> {
    pub(crate) format: Format,
    pub(crate) blocks: u32,
    pub(crate) moment: Option<Date3>,
    pub(crate) name: &'a str,
    /// Whether the letters of the name are its bytes.
    pub(crate) letters: bool,
}

/// Writes the image of a blank volume in place of a file, or to standard output if that is `-`. An existing file is locked
/// meanwhile. If the words for the name and the file look as if they were turned round, `faults` gets a line that says so.
pub(crate) fn make_blank<'a, R, W, F>(
    rt: &R,
    alloc: Global,
    new: NewVolume<'a>,
    file: &'a str,
    writer: &mut W,
    faults: &mut F,
) -> Result<(), CommandFault<'a>>
where
    R: Files<File = File> + PromptFiles + Clock,
    W: Write,
    F: Write,
    ensures { PutsMade (ABlank new.entry) (Some file.entry.now) (W.contents writer.old) (W.contents writer.new) result }
{
    let moment = given_or_now(rt, new.moment)?;
    let volume = blank_volume(alloc, new.format, new.blocks, new.name, new.letters, moment)?;
    warn_if_turned(new.name, file, faults);
    if is_output(file) {
        return put_image(alloc, volume.image(), &[], writer);
    }
    let held = hold_target(rt, file, None);
    write_held(rt, alloc, volume.image(), &[], file, held)
}

/// Prints that the volume's name and the file may be turned round, if the name alone ends as that of an image file does.
fn warn_if_turned<F: Write>(name: &str, file: &str, faults: &mut F) {
    if is_image_name(name) && !is_image_name(file) {
        print_line(
            faults,
            format_args!(
                "adf_serve: the volume is named '{name}' and the file '{file}': NAME comes before FILE, so the two may be turned round"
            ),
        );
    }
}

/// Whether a name ends in `.adf` or `.hdf`, in any case.
fn is_image_name(name: &str) -> bool {
    let Some((_, ending)) = name.rsplit_once('.') else {
        return false;
    };
    ending.eq_ignore_ascii_case("adf") || ending.eq_ignore_ascii_case("hdf")
}

/// A blank volume.
fn blank_volume<'a>(
    alloc: Global,
    format: Format,
    blocks: u32,
    word: &'a str,
    letters: bool,
    moment: Date3,
) -> Result<Volume, CommandFault<'a>>
    ensures { MatchResult result
        (λ volume. (name : List ℕ) × IsNamed letters word.now name × IsBlank format blocks name moment volume.image)
        (IsBlankFault letters blocks word.now) }
{
    let label = volume_name(alloc, word, letters)?;
    if !size_ok(blocks) {
        return Err(CommandFault::Blocks(blocks));
    }
    Ok(blank(alloc, format, blocks, label, moment)?)
}

/// The volume name for an argument, by its bytes or by its letters.
fn volume_name<'a>(alloc: Global, word: &'a str, letters: bool) -> Result<Name, CommandFault<'a>>
    ensures { MatchResult result (IsNamed letters word.now) (IsNameFault letters word.now) }
{
    if !letters {
        return named(word.as_bytes(), word);
    }
    match letter_bytes(alloc, word) {
        Ok(bytes) => named(&bytes, word),
        Err(LettersFault::NoByte { .. }) => Err(CommandFault::Letter(String::from_str(
            alloc, word,
        )?)),
        Err(LettersFault::Memory) => Err(CommandFault::Memory),
    }
}

/// The volume name with these bytes, for this argument.
fn named<'a>(bytes: &[u8], word: &'a str) -> Result<Name, CommandFault<'a>>
    ensures ok { IfOk result (λ name. name ≡ bytes.now) }
    ensures fault { IfErr result (λ fault. (fault ≡ CommandFault.Name word.entry) × ¬ IsName bytes.now) }
{
    match Name::new(bytes) {
        Ok(name) => Ok(name),
        Err(_) => Err(CommandFault::Name(word)),
    }
}
