//! The command `validate`.
ghost use Rattle.std.specs.Prelude.{MatchResult};
ghost use Rattle.adf_serve.specs.Commands.{TellsSome};
ghost use Rattle.adf_serve.specs.Faults.{IsRefusedAs};
ghost use Rattle.adf_serve.specs.Texts.{IsCountText};
ghost use Rattle.ados_validate.specs.Answer.{IsNew};

use crate::fault::CommandFault;
use crate::images::Work;
use crate::output::tell;
use adf_block::Image;
use adf_cli::Rewrite;
use adf_host::PromptFiles;
use ados_validate::{NotValidated, Validated, validate};
use std::alloc::Global;
use std::fs::File;
use std::io::Write;
use std::rt::{Clock, Files};

/// Writes the bitmap of an image file anew. It then prints how many bits changed, with `json` as a JSON object.
pub(crate) fn validate_file<'a, R: Files<File = File> + PromptFiles + Clock, W: Write>(
    rt: &R,
    alloc: Global,
    target: Rewrite<'a>,
    force: bool,
    json: bool,
    writer: &mut W,
) -> Result<(), CommandFault<'a>>
    ensures { TellsSome (IsCountText json) (IsCountText json) (W.contents writer.old) (W.contents writer.new) result }
{
    let (work, image) = Work::begin(rt, alloc, target)?;
    let validated = anew(alloc, image, force)?;
    let text = validated.text(alloc, json)?;
    work.end(rt, alloc, &validated.image)?;
    tell(writer, &text)
}

/// The image with a new bitmap.
fn anew<'a>(alloc: Global, image: Image, force: bool) -> Result<Validated, CommandFault<'a>>
    ensures { MatchResult result (IsNew image force) (IsRefusedAs image) }
{
    match validate(alloc, image, force) {
        Ok(validated) => Ok(validated),
        Err(NotValidated::OtherFault(fault)) => Err(CommandFault::from(fault)),
        Err(NotValidated::Memory) => Err(CommandFault::Memory),
        Err(why) => Err(CommandFault::Bitmap(why)),
    }
}
