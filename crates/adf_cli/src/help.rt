//! The help of the program and of its commands, and its version.
use crate::commands::command_of;
use crate::group::{GROUPS, Group};
use crate::table::CommandRow;
use crate::version::{PROOF, VERSION};
use crate::wrapping::wrapped;
use std::alloc::{AllocError, Global};

const START: &str =
    "Serves Amiga floppy images as an AmigaDOS file system handler does. Without a command it runs a script from standard input over a blank floppy `Work`.\n\nUsage: adf_serve [COMMAND]\n";

const END: &str =
    "\nOptions:\n  -h, --help     Prints this help\n  -V, --version  Prints the version, and whether the program is proved\n\n`adf_serve COMMAND --help` shows its arguments and an example.\n";

/// The help of the program with these commands, in lines of so many letters.
pub(crate) fn program_help(
    alloc: Global,
    rows: &[CommandRow],
    columns: usize,
) -> Result<String, AllocError> {
    let mut text = String::from_str(alloc, START)?;
    for group in GROUPS {
        push_group(&mut text, group, rows)?;
    }
    text.push_str(END)?;
    wrapped(alloc, text.as_str(), columns)
}

/// Appends the commands of a group.
fn push_group(text: &mut String, group: Group, rows: &[CommandRow]) -> Result<(), AllocError> {
    write!(text, "\n{}:\n", group.heading())?;
    for row in rows {
        if row.group == group {
            write!(text, "  {:<10}{}\n", row.name, row.about)?;
        }
    }
    Ok(())
}

/// The help of a command, in lines of so many letters.
pub(crate) fn command_help(
    alloc: Global,
    row: &CommandRow,
    columns: usize,
) -> Result<String, AllocError> {
    let mut command = command_of(alloc, row)?;
    let text = command.render_help()?;
    wrapped(alloc, text.as_str(), columns)
}

/// The program, its version, and whether it is proved.
pub(crate) fn version_text(alloc: Global) -> Result<String, AllocError> {
    format!(in alloc; "adf_serve {VERSION} ({PROOF})\n")
}
