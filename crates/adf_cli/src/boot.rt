//! From the arguments of `boot` to its job.
ghost use Rattle.std.specs.Prelude.{IfOk};
ghost use Rattle.clap.specs.Matches.{found_of};
ghost use Rattle.adf_cli.specs.Asked.{IsBlockOf, IsBootOf};

use crate::arguments::Arguments;
use crate::fault::WordsFault;
use crate::job::ImageJob;

/// The boot block that an image gets.
#[derive(Clone, Copy)]
pub enum BootBlock<'a> {
    /// None.
    Empty,
    /// The standard one.
    Standard,
    /// The bytes of a file of the host.
    File(&'a str),
}

/// The job of `boot`. Nothing there has a time stamp, so its value is checked and dropped.
pub(crate) fn boot_job<'a>(arguments: &Arguments<'a, '_>) -> Result<ImageJob<'a>, WordsFault>
    ensures { IfOk result (IsBootOf (found_of arguments.now.words.now)) }
{
    arguments.moment()?;
    if arguments.flag("show") {
        return Ok(ImageJob::ShowBoot {
            image: arguments.image()?,
            json: arguments.flag("json"),
        });
    }
    if let Some(file) = arguments.given("save") {
        return Ok(ImageJob::SaveBoot {
            image: arguments.image()?,
            file,
        });
    }
    Ok(ImageJob::Boot {
        target: arguments.target()?,
        block: boot_block(arguments),
    })
}

/// The boot block of `boot`. `--clear` is the same as no option and no file.
fn boot_block<'a>(arguments: &Arguments<'a, '_>) -> BootBlock<'a>
    ensures { IsBlockOf (found_of arguments.now.words.now) result }
{
    if arguments.flag("install") {
        return BootBlock::Standard;
    }
    match arguments.given("FILE") {
        Some(file) => BootBlock::File(file),
        None => BootBlock::Empty,
    }
}
