//! From the arguments of a command that changes an image to its job.
ghost use Rattle.std.specs.Prelude.{IfOk};
ghost use Rattle.clap.specs.Matches.{found_of};
ghost use Rattle.adf_cli.specs.Asked.{IsAddAs, IsAddOf, IsDateOf, IsProtectOf, IsSource, IsValidateOf};

use crate::arguments::Arguments;
use crate::change::{Change, ChangeJob, Source};
use crate::dates::moment_word;
use crate::fault::WordsFault;
use crate::image_file::STANDARD_STREAM;
use crate::job::ImageJob;
use crate::letters::{letters_of, protection_word};
use adf_text::Grouped;
use std::alloc::Global;

/// The job of a command that changes a volume.
pub(crate) fn change_job<'a>(
    name: &str,
    arguments: &Arguments<'a, '_>,
) -> Result<ImageJob<'a>, WordsFault> {
    let target = arguments.target()?;
    let change = change_of(name, arguments)?;
    Ok(ImageJob::Change(ChangeJob {
        target,
        moment: arguments.moment()?,
        change,
    }))
}

/// The job of `add`: a change of the volume, or with `--bundle` a volume that a directory of the host describes. A
/// bundle has its own dates, so a time stamp is checked and dropped.
pub(crate) fn add_job<'a>(arguments: &Arguments<'a, '_>) -> Result<ImageJob<'a>, WordsFault> {
    let Some(from) = arguments.given("bundle") else {
        return change_job("add", arguments);
    };
    arguments.moment()?;
    let target = arguments.target()?;
    Ok(ImageJob::AddBundle { target, from })
}

/// The job of `validate`. Nothing there has a time stamp, so its value is checked and dropped.
pub(crate) fn validate_job<'a>(arguments: &Arguments<'a, '_>) -> Result<ImageJob<'a>, WordsFault>
    ensures { IfOk result (IsValidateOf (found_of arguments.now.words.now)) }
{
    arguments.moment()?;
    arguments.out_file()?;
    Ok(ImageJob::Validate {
        target: arguments.target()?,
        force: arguments.flag("force"),
        json: arguments.flag("json"),
    })
}

/// The change of a command. A name that no command has makes the command line wrong; `clap` gives none.
fn change_of<'a>(name: &str, arguments: &Arguments<'a, '_>) -> Result<Change<'a>, WordsFault> {
    match name {
        "add" => add(arguments),
        "mkdir" => Ok(Change::MakeDirectories {
            paths: arguments.paths()?,
            parents: arguments.flag("parents"),
        }),
        "delete" => Ok(Change::Delete {
            paths: arguments.paths()?,
            all: arguments.flag("all"),
            force: arguments.flag("force"),
        }),
        "rename" => Ok(Change::Rename {
            old: arguments.letters("OLD")?,
            new: arguments.letters("NEW")?,
        }),
        "protect" => protect(arguments),
        "date" => date(arguments),
        "comment" => Ok(Change::Comment {
            path: arguments.letters("PATH")?,
            text: arguments.letters("TEXT")?,
        }),
        "relabel" => Ok(Change::Relabel {
            name: arguments.letters("NAME")?,
        }),
        _ => Err(WordsFault::wrong(
            arguments.alloc,
            format_args!("error: unrecognized subcommand '{name}'"),
        )),
    }
}

/// The change of `add`: of files and directories under their own names, or of one file under another.
fn add<'a>(arguments: &Arguments<'a, '_>) -> Result<Change<'a>, WordsFault> {
    let to = letters_of(arguments.alloc, arguments.given("to").unwrap_or(""))?;
    let files = arguments.some_words("FILE")?;
    let force = arguments.flag("force");
    match arguments.given("as") {
        Some(name) => add_as(arguments.alloc, files, name, to, force),
        None => add_files(arguments.alloc, files, to, force),
    }
}

/// The change of `add` without `--as`. Standard input has no name of its own, so it makes the command line wrong.
fn add_files<'a>(
    alloc: Global,
    files: &[&'a str],
    to: &'a str,
    force: bool,
) -> Result<Change<'a>, WordsFault>
    ensures { IfOk result (IsAddOf files.now to.now force) }
{
    for file in files {
        if *file == STANDARD_STREAM {
            return Err(WordsFault::wrong(
                alloc,
                format_args!(
                    "error: FILE '-' is standard input, which has no name: '--as <NAME>' gives it one"
                ),
            ));
        }
    }
    let files = Vec::from_slice(alloc, files)?;
    Ok(Change::Add { files, to, force })
}

/// The change of `add --as`. More than one file makes the command line wrong.
fn add_as<'a>(
    alloc: Global,
    files: &[&'a str],
    name: &'a str,
    to: &'a str,
    force: bool,
) -> Result<Change<'a>, WordsFault>
    ensures { IfOk result (IsAddAs files.now name.now to.now force) }
{
    let [file] = files else {
        return Err(WordsFault::wrong(
            alloc,
            format_args!(
                "error: '--as <NAME>' takes one FILE, and there are {}",
                Grouped(files.len() as u64)
            ),
        ));
    };
    let source = source_of(*file);
    Ok(Change::AddAs {
        source,
        name: letters_of(alloc, name)?,
        to,
        force,
    })
}

/// The file of an argument. `-` is standard input.
fn source_of<'a>(file: &'a str) -> Source<'a>
    ensures { IsSource file.now result }
{
    if file == STANDARD_STREAM {
        return Source::StandardInput;
    }
    Source::File(file)
}

/// The change of `protect`.
fn protect<'a>(arguments: &Arguments<'a, '_>) -> Result<Change<'a>, WordsFault>
    ensures { IfOk result (IsProtectOf (found_of arguments.now.words.now)) }
{
    Ok(Change::Protect {
        path: arguments.letters("PATH")?,
        letters: protection_word(arguments.alloc, arguments.word("LETTERS")?)?,
    })
}

/// The change of `date`.
fn date<'a>(arguments: &Arguments<'a, '_>) -> Result<Change<'a>, WordsFault>
    ensures { IfOk result (IsDateOf (found_of arguments.now.words.now)) }
{
    Ok(Change::Date {
        path: arguments.letters("PATH")?,
        date: moment_word(arguments.alloc, "<WHEN>", arguments.word("WHEN")?)?,
    })
}
