//! The new image of `extract --damaged --out`.
ghost use Rattle.std.specs.Prelude.{◌≡◌, IfErr, IfOk, MatchOption, is_some, true};
ghost use Rattle.ados_name.specs.declared.stamp.Date3.{Date3};
ghost use Rattle.adf_import.specs.SavedLeft.{IsVolumeOf};
ghost use Rattle.adf_serve.specs.Faults.{IsNoImage};
ghost use Rattle.adf_serve.specs.Rescues.{IsMended};

use crate::changing::given_or_now;
use crate::fault::CommandFault;
use crate::images::{refuse_no_image, write_image};
use adf_cli::SalvageJob;
use adf_host::{HeldFile, PromptFiles, hold_target};
use adf_import::{LeftEntry, LeftOut, SavedVolume, volume_of_salvage};
use adf_record::Grouped;
use adf_rescue::Rescue;
use adf_text::print_line;
use std::alloc::Global;
use std::fs::File;
use std::io::Write;
use std::rt::{Clock, Files};

/// The file for a new image, locked if it exists.
#[derive(Drop)]
pub(crate) struct NewFile<'a> {
    path: &'a str,
    held: Option<HeldFile>,
}

/// Locks the file that a job asks for. One that may be precious is refused.
pub(crate) fn hold_out<'a, R: Files<File = File> + PromptFiles + Clock>(
    rt: &R,
    job: &SalvageJob<'a>,
) -> Result<Option<NewFile<'a>>, CommandFault<'a>>
    ensures asked { IfOk result (λ out. is_some out ≡ is_some job.now.out) }
    ensures fault { IfErr result IsNoImage }
{
    let Some(path) = job.out else {
        return Ok(None);
    };
    let mut held = match hold_target(rt, path, None) {
        Ok(held) => held,
        Err(fault) => return Err(CommandFault::Held(path, fault)),
    };
    if !job.over {
        refuse_no_image(rt, path, held.as_mut())?;
    }
    Ok(Some(NewFile { path, held }))
}

/// Writes the new image with what was saved, if a file is given, and prints on `faults` what it has not. Returns whether there is
/// nothing that it has not.
pub(crate) fn write_out<'a, R: Files<File = File> + PromptFiles + Clock, F: Write>(
    rt: &R,
    alloc: Global,
    rescue: &Rescue,
    out: Option<NewFile<'a>>,
    faults: &mut F,
) -> Result<bool, CommandFault<'a>>
    ensures mended { IfOk result (λ all. MatchOption out.entry (all ≡ true) (λ file. IsMended rescue.now.salvage all)) }
    ensures fault { IfErr result IsNoImage }
{
    let Some(NewFile { path, held }) = out else {
        return Ok(true);
    };
    let saved = saved_volume(rt, alloc, rescue)?;
    write_image(rt, alloc, saved.volume.image(), &[], path, held.as_ref())?;
    tell_left(alloc, rescue, &saved.left, faults);
    Ok(saved.left.is_empty())
}

/// The volume with what was saved. Without sound dates it has that of the clock.
fn saved_volume<'a, R: Clock>(
    rt: &R,
    alloc: Global,
    rescue: &Rescue,
) -> Result<SavedVolume, CommandFault<'a>>
    ensures made { IfOk result (λ saved. (moment : Date3) × IsVolumeOf rescue.now.salvage moment saved.volume.image saved.own saved.left.items) }
    ensures fault { IfErr result IsNoImage }
{
    let moment = given_or_now(rt, None)?;
    match volume_of_salvage(alloc, rescue.salvage(), moment) {
        Ok(saved) => Ok(saved),
        Err(_) => Err(CommandFault::Memory),
    }
}

/// Prints which entries are not in the new image, and why.
fn tell_left<F: Write>(alloc: Global, rescue: &Rescue, left: &[LeftEntry], faults: &mut F) {
    for entry in left {
        if let Ok(path) = rescue.path_at(alloc, entry.place) {
            tell_entry(path.as_str(), entry.why, faults);
        }
    }
}

/// Prints why the entry at a path is not in the new image.
fn tell_entry<F: Write>(path: &str, why: LeftOut, faults: &mut F) {
    match why {
        LeftOut::NoRoom { needed, free } => {
            print_line(
                faults,
                format_args!(
                    "adf_serve: '{path}' is not in the new image: it needs {} blocks, and {} are free",
                    Grouped(needed),
                    Grouped(u64::from(free))
                ),
            );
        }
        other => {
            let why = reason_of(other);
            print_line(
                faults,
                format_args!("adf_serve: '{path}' is not in the new image: {why}"),
            );
        }
    }
}

/// Why an entry is not in the new image, if there is room.
fn reason_of(why: LeftOut) -> &'static str {
    match why {
        LeftOut::NoRoom { .. } => "there is no room",
        LeftOut::Taken => "another entry has its name there",
        LeftOut::Joined => "another directory has its name there, and has its entries",
        LeftOut::NoDirectory => "its directory is not there",
    }
}
