//! The command `serve`: scripts over an image, each as a client on its own thread.
ghost use Rattle.std.specs.Prelude.{◌≡◌, ◌≢◌, ℕ, List, All, Any, IfErr, IfOk, MatchBool, flat_map, length, map};
ghost use Rattle.std.specs.Io.KnownBytes.{Appends};
ghost use Rattle.ados_model.specs.Accepted.{Accepts};
ghost use Rattle.ados_run.specs.ServesVolume.{texts_of};
ghost use Rattle.adf_io.specs.Prefix.{WritesFront};
ghost use Rattle.adf_cli.specs.declared.job.ServeJob.{ServeJob};
ghost use Rattle.adf_script.specs.declared.ending.ClientEnding.TheVariants as ending;
ghost use Rattle.adf_serve.specs.Changed.{IsStamp};
ghost use Rattle.adf_serve.specs.Faults.{IsNoImage, IsUnread};
ghost use Rattle.adf_serve.specs.Served.{DoesServe, EndsBy, IsServed, ending_of, text_of};

use crate::changing::given_or_now;
use crate::fault::CommandFault;
use crate::images::{accept, read_loaded, unread, write_held};
use adf_cli::{ServeJob, last_number, tell_faulty_line};
use adf_host::{HeldFile, HoldFault, PromptFiles, hold_target, input_path, why_unreadable};
use adf_io::{Loaded, read_bounded, write_output};
use adf_script::{LONGEST_SCRIPT, read_script};
use ados_name::Date3;
use ados_run::{ClientEnding, OpenGate, VolumeServed, serve_volume};
use ados_volume::Volume;
use std::alloc::Global;
use std::fs::{self, File, OpenFile};
use std::io::Write;
use std::rt::{Clock, Files};
use std::sync::Wait;
use std::thread::Threads;

/// The output of a client, and how it ended.
type ClientText = (Vec<u8>, ClientEnding);

/// The scripts of the clients, none of which a gate holds back, and copies of their bytes, in order.
#[derive(Drop)]
struct Scripts {
    scripts: Vec<(Vec<u8>, OpenGate)>,
    copies: Vec<Vec<u8>>,
}

/// What `serve` reads: the volume, what is behind its image in the file, the time stamp of all packets, and the scripts.
#[derive(Drop)]
struct Input {
    volume: Volume,
    behind: Vec<u8>,
    moment: Date3,
    scripts: Scripts,
}

/// The file to write, and the lock on it, if it exists, or why it is not locked.
type OutFile<'a> = (&'a str, Result<Option<HeldFile>, HoldFault>);

/// Runs the scripts of the clients over an image, prints the output of each client, and writes the image if requested.
///
/// The image is written even if standard output cannot be written or a script is faulty. Its file is locked from the
/// start. If another command has locked it, this is a fault of writing, reported after those of reading and of the
/// work.
pub(crate) fn serve<'a, R, W, F>(
    rt: &R,
    alloc: Global,
    job: &ServeJob<'a>,
    writer: &mut W,
    faults: &mut F,
) -> Result<(), CommandFault<'a>>
where
    R: Files<File = File> + PromptFiles + Clock + Threads + Wait + Copy + Send + Drop + 'static,
    W: Write,
    F: Write,
    ensures { DoesServe job.now (W.contents writer.old) (W.contents writer.new) result }
{
    let mut out = match job.out {
        Some(file) => Some((file, hold_target(rt, file, None))),
        None => None,
    };
    let Input {
        volume,
        behind,
        moment,
        scripts: Scripts { scripts, copies },
    } = read_input(rt, alloc, job, &mut out)?;
    match serve_volume(rt, alloc, volume, scripts, moment, job.turns) {
        Ok(served) => {
            tell_faulty(alloc, job, &copies, &served.texts, faults);
            finish(rt, alloc, &served, &behind, out, writer)
        }
        Err(fault) => Err(CommandFault::from(fault)),
    }
}

/// Reads the image and the scripts, and the clock if no time stamp is given.
fn read_input<'a, R: Files<File = File> + Clock>(
    rt: &R,
    alloc: Global,
    job: &ServeJob<'a>,
    out: &mut Option<OutFile<'a>>,
) -> Result<Input, CommandFault<'a>>
    ensures scripts { IfOk result (λ input. length input.scripts.scripts.items ≡ length job.now.scripts.items) }
    ensures stamp { IfOk result (λ input. IsStamp job.now.moment input.moment) }
    ensures volume { IfOk result (λ input. (read : List ℕ) × Accepts read input.volume.was_validated input.volume.image) }
    ensures fault { IfErr result IsUnread }
{
    let moment = given_or_now(rt, job.moment)?;
    let Loaded { image, behind } = read_served(rt, alloc, job, out)?;
    let volume = accept(alloc, image)?;
    Ok(Input {
        volume,
        behind,
        moment,
        scripts: read_scripts(rt, alloc, job.scripts.as_slice())?,
    })
}

/// Reads the image. If its file is the one to write, the file that was locked is read: another one that has its name for a
/// moment is neither read nor written over.
fn read_served<'a, R: Files<File = File>>(
    rt: &R,
    alloc: Global,
    job: &ServeJob<'a>,
    out: &mut Option<OutFile<'a>>,
) -> Result<Loaded, CommandFault<'a>>
    ensures { IfErr result IsNoImage }
{
    let path = input_path(job.image.path);
    let Some(target) = out else {
        return read_loaded(rt, alloc, job.image);
    };
    let is_named = target.0 == path;
    let Ok(Some(held)) = &mut target.1 else {
        return read_loaded(rt, alloc, job.image);
    };
    if !is_named && !held.is_at(rt, path) {
        return read_loaded(rt, alloc, job.image);
    }
    match held.read_image(alloc, job.image.blocks) {
        Ok(loaded) => Ok(loaded),
        Err(fault) => Err(unread(rt, fault, job.image)),
    }
}

/// Prints what is wrong with the faulty line of each script that has one.
fn tell_faulty<F: Write>(
    alloc: Global,
    job: &ServeJob<'_>,
    scripts: &[Vec<u8>],
    texts: &[ClientText],
    faults: &mut F,
) {
    for (at, told) in texts.iter().enumerate() {
        if told.1 == ClientEnding::Script {
            tell_faulty_script(alloc, job, scripts, at, &told.0, faults);
        }
    }
}

/// Prints what is wrong with the faulty line of the script at this place, which printed this text.
fn tell_faulty_script<F: Write>(
    alloc: Global,
    job: &ServeJob<'_>,
    scripts: &[Vec<u8>],
    at: usize,
    text: &[u8],
    faults: &mut F,
) {
    let (Some(script), Some(file)) = (scripts.get(at), job.scripts.get(at)) else {
        return;
    };
    let client = at.saturating_add(1);
    let whose = format!(in alloc; "client {client} ('{}'), ", *file);
    if let (Ok(whose), Some(number)) = (whose, last_number(alloc, text)) {
        tell_faulty_line(alloc, script.as_slice(), number, whose.as_str(), faults);
    }
}

/// Prints the output of each client, writes the image and what is behind it if requested, and judges how the clients ended.
fn finish<'a, R: Files<File = File> + PromptFiles, W: Write>(
    rt: &R,
    alloc: Global,
    served: &VolumeServed,
    behind: &[u8],
    out: Option<OutFile<'a>>,
    writer: &mut W,
) -> Result<(), CommandFault<'a>>
    ensures { (job : ServeJob) → IsServed job (texts_of served.now.texts.items) → DoesServe job (W.contents writer.old) (W.contents writer.new) result }
{
    let is_told = tell_all(&served.texts, writer);
    if let Some((file, held)) = out {
        let image = served.handler.volume().image();
        write_held(rt, alloc, image, behind, file, held)?;
    }
    if !is_told {
        return Err(CommandFault::Output);
    }
    judge(&served.texts)
}

/// The scripts in these files, in order.
fn read_scripts<'a, R: Files>(
    rt: &R,
    alloc: Global,
    files: &[&'a str],
) -> Result<Scripts, CommandFault<'a>>
    ensures each { IfOk result (λ read. length read.scripts.items ≡ length files.now) }
    ensures fault { IfErr result IsNoImage }
{
    let (mut scripts, mut copies) = (Vec::new(alloc), Vec::new(alloc));
    for file in files {
        scripts.reserve(1)?;
        copies.reserve(1)?;
        let script = script_of(rt, alloc, *file)?;
        copies.push_reserved(Vec::from_slice(alloc, script.as_slice())?);
        scripts.push_reserved((script, OpenGate));
    }
    Ok(Scripts { scripts, copies })
}

/// The script in a file. Of one that is too long, the start is kept, which is too long as well.
fn script_of<'a, R: Files>(
    rt: &R,
    alloc: Global,
    file: &'a str,
) -> Result<Vec<u8>, CommandFault<'a>>
    ensures { IfErr result IsNoImage }
{
    let Ok(mut reader) = fs::open(rt, file) else {
        return Err(CommandFault::Read(file, why_unreadable(rt, file)));
    };
    let script = if is_too_long(&reader) {
        read_bounded(alloc, &mut reader, LONGEST_SCRIPT + 1)
    } else {
        read_script(alloc, &mut reader)
    };
    match script {
        Ok(script) => Ok(script),
        Err(fault) => Err(CommandFault::of_input(rt, fault, file)),
    }
}

/// Whether an open file is a regular file that is longer than a script may be.
fn is_too_long<F: OpenFile>(file: &F) -> bool {
    match file.metadata() {
        Ok(found) => found.is_file() && found.len() > LONGEST_SCRIPT as u64,
        Err(_) => false,
    }
}

/// Prints the output of the clients, in order. Returns whether all of it was written.
fn tell_all<W: Write>(texts: &[ClientText], writer: &mut W) -> bool
    ensures { MatchBool result (Appends (W.contents writer.old) (W.contents writer.new) (flat_map text_of texts.now))
        (WritesFront (W.contents writer.old) (W.contents writer.new) (flat_map text_of texts.now)) }
{
    for told in texts {
        match write_output(told.0.as_slice(), writer) {
            Ok(()) => {}
            Err(_) => return false,
        }
    }
    true
}

/// Whether all scripts ended without a fault. A client that ran out of tries counts before a faulty script.
fn judge<'a>(texts: &[ClientText]) -> Result<(), CommandFault<'a>>
    ensures { EndsBy (map ending_of texts.now) result }
{
    if has_run_out(texts) {
        return Err(CommandFault::Tries);
    }
    if has_faulty(texts) {
        return Err(CommandFault::Script);
    }
    Ok(())
}

/// Whether one of the clients ran out of tries.
fn has_run_out(texts: &[ClientText]) -> bool
    ensures { MatchBool result (Any (λ text. ending_of text ≡ ending.Tries) texts.now) (All (λ text. ending_of text ≢ ending.Tries) texts.now) }
{
    for text in texts {
        match text.1 {
            ClientEnding::Tries => return true,
            ClientEnding::Done | ClientEnding::Script => {}
        }
    }
    false
}

/// Whether one of the scripts was faulty.
fn has_faulty(texts: &[ClientText]) -> bool
    ensures { MatchBool result (Any (λ text. ending_of text ≡ ending.Script) texts.now) (All (λ text. ending_of text ≢ ending.Script) texts.now) }
{
    for text in texts {
        match text.1 {
            ClientEnding::Script => return true,
            ClientEnding::Done | ClientEnding::Tries => {}
        }
    }
    false
}
