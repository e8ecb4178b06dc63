//! From arguments to a job.
ghost use Rattle.std.specs.Prelude.{◌≡◌, []};

use crate::arguments::Arguments;
use crate::boot::boot_job;
use crate::changing::{add_job, change_job, validate_job};
use crate::commands::command_of;
use crate::fault::WordsFault;
use crate::floppy::{DOUBLE_DENSITY, HIGH_DENSITY};
use crate::help::{command_help, program_help, version_text};
use crate::job::{ImageJob, Job, ServeJob};
use crate::letters::letters_of;
use crate::table::{COMMANDS, CommandRow};
use crate::taking::{
    check_job, extract_job, info_job, list_job, map_job, show_job, undelete_job, where_job,
};
use crate::tips::no_command;
use crate::wrapping::wrapped;
use adf_block::Format;
use clap::Error;
use clap::error::ErrorKind;
use std::alloc::Global;

/// The job of these arguments, which follow the program's name. A text of help has lines of so many letters.
pub fn read_words<'a>(
    alloc: Global,
    words: &'a [String],
    columns: usize,
) -> Result<Job<'a>, WordsFault>
    ensures none { words.now ≡ [] → result ≡ Ok Job.Script }
    ensures some { result ≡ Ok Job.Script → words.now ≡ [] }
{
    let Some((first, rest)) = words.split_first() else {
        return Ok(Job::Script);
    };
    match asked_job(alloc, &COMMANDS, first.as_str(), rest, columns) {
        Ok(job) => Ok(Job::OnImage(job)),
        Err(fault) => Err(fault),
    }
}

/// The job of this first word and the words after it, by the rows of all commands. A text that is asked for is the fault: the command
/// line has no job. The rows are an argument here and below, because a function that names a table is slow to prove.
fn asked_job<'a>(
    alloc: Global,
    rows: &[CommandRow],
    first: &str,
    words: &'a [String],
    columns: usize,
) -> Result<ImageJob<'a>, WordsFault> {
    match first {
        "--help" | "-h" | "--" => Err(WordsFault::usage(program_help(alloc, rows, columns))),
        "--version" | "-V" => Err(WordsFault::usage(version_text(alloc))),
        "help" => Err(asked_help(alloc, rows, words.first(), columns)),
        _ => named_job(alloc, rows, first, words, columns),
    }
}

/// The help of the command with this name, or of the program without one.
fn asked_help(
    alloc: Global,
    rows: &[CommandRow],
    name: Option<&String>,
    columns: usize,
) -> WordsFault {
    let Some(name) = name else {
        return WordsFault::usage(program_help(alloc, rows, columns));
    };
    match row_of(name.as_str(), rows) {
        Some(row) => WordsFault::usage(command_help(alloc, &row, columns)),
        None => no_command(alloc, name.as_str(), rows),
    }
}

/// The job of the command with this name, and of these arguments.
fn named_job<'a>(
    alloc: Global,
    rows: &[CommandRow],
    name: &str,
    words: &'a [String],
    columns: usize,
) -> Result<ImageJob<'a>, WordsFault> {
    let Some(row) = row_of(name, rows) else {
        return Err(no_command(alloc, name, rows));
    };
    let command = command_of(alloc, &row)?;
    match command.try_get_matches_from(words) {
        Ok(matches) => job_of(
            row.name,
            &Arguments {
                alloc,
                words: &matches,
            },
        ),
        Err(error) => Err(unparsed(alloc, error, columns)),
    }
}

/// The row with this name among these.
fn row_of(name: &str, rows: &[CommandRow]) -> Option<CommandRow> {
    for row in rows {
        if row.name == name {
            return Some(*row);
        }
    }
    None
}

/// Why `clap` found no arguments: the text says what is wrong with them, or it is the help that they ask for.
fn unparsed(alloc: Global, error: Error, columns: usize) -> WordsFault {
    let Ok(text) = error.to_string(alloc) else {
        return WordsFault::Memory;
    };
    match error.kind() {
        ErrorKind::OutOfMemory => WordsFault::Memory,
        ErrorKind::DisplayHelp => WordsFault::usage(wrapped(alloc, text.as_str(), columns)),
        _ => WordsFault::Usage(text),
    }
}

/// The job of a command with its arguments.
fn job_of<'a>(name: &str, arguments: &Arguments<'a, '_>) -> Result<ImageJob<'a>, WordsFault> {
    match name {
        "blank" => blank_job(arguments),
        "info" => info_job(arguments),
        "show" => show_job(arguments),
        "map" => map_job(arguments),
        "where" => where_job(arguments),
        "check" => check_job(arguments),
        "list" => list_job(arguments),
        "print" => Ok(ImageJob::Print {
            image: arguments.image()?,
            path: arguments.letters("PATH")?,
        }),
        "extract" => extract_job(arguments),
        "undelete" => undelete_job(arguments),
        "validate" => validate_job(arguments),
        "boot" => boot_job(arguments),
        "serve" => serve_job(arguments),
        "add" => add_job(arguments),
        _ => change_job(name, arguments),
    }
}

/// The job of `blank`.
fn blank_job<'a>(arguments: &Arguments<'a, '_>) -> Result<ImageJob<'a>, WordsFault> {
    let blocks = blocks_of(arguments)?;
    let (name, letters) = (arguments.word("NAME")?, arguments.flag("letters"));
    if letters {
        letters_of(arguments.alloc, name)?;
    }
    Ok(ImageJob::Blank {
        format: format_of(arguments),
        blocks,
        moment: arguments.moment()?,
        name,
        letters,
        file: arguments.word("FILE")?,
    })
}

/// The number of blocks of a blank image.
fn blocks_of(arguments: &Arguments<'_, '_>) -> Result<u32, WordsFault> {
    let blocks = arguments.first_blocks()?;
    let usual = if arguments.flag("hd") {
        HIGH_DENSITY
    } else {
        DOUBLE_DENSITY
    };
    Ok(blocks.unwrap_or(usual))
}

/// The format of a blank image.
fn format_of(arguments: &Arguments<'_, '_>) -> Format {
    if arguments.flag("ffs") {
        Format::Ffs
    } else {
        Format::Ofs
    }
}

/// The job of `serve`.
fn serve_job<'a>(arguments: &Arguments<'a, '_>) -> Result<ImageJob<'a>, WordsFault> {
    let image = arguments.image()?;
    let turns = arguments.turns()?;
    let moment = arguments.moment()?;
    let scripts = arguments.some_words("SCRIPT")?;
    Ok(ImageJob::Serve(ServeJob {
        image,
        scripts: Vec::from_slice(arguments.alloc, scripts)?,
        out: arguments.out_file()?,
        turns,
        moment,
    }))
}
