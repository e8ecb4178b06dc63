//! The commands of the table, for `clap` to parse and explain.
use crate::table::{ArgumentRow, CHANGING, CommandRow, Kind};
use clap::{Arg, Command};
use std::alloc::{AllocError, Global};

/// The command of a row, for the arguments that follow its name.
pub(crate) fn command_of<'a>(alloc: Global, row: &CommandRow) -> Result<Command<'a>, AllocError> {
    let mut arguments = Vec::new(alloc);
    if row.changes {
        add_changing(alloc, &mut arguments)?;
    }
    add_arguments(alloc, row.arguments, &mut arguments)?;
    Command::new(alloc, row.name)
        .no_binary_name(true)
        .about(row.about)
        .override_usage(row.usage)
        .after_help(row.examples)
        .args(arguments)
}

/// Appends the arguments of each command that changes an image. The options among them stand below one heading.
fn add_changing<'a>(alloc: Global, arguments: &mut Vec<Arg<'a>>) -> Result<(), AllocError> {
    for row in CHANGING {
        arguments.reserve(1)?;
        let argument = argument_of(alloc, row)?;
        arguments.push_reserved(if row.kind.is_option() {
            argument.help_heading("CHANGE")
        } else {
            argument
        });
    }
    Ok(())
}

/// Appends the arguments of these rows. The options of a time stamp stand below one heading.
fn add_arguments<'a>(
    alloc: Global,
    rows: &[ArgumentRow],
    arguments: &mut Vec<Arg<'a>>,
) -> Result<(), AllocError> {
    for row in rows {
        arguments.reserve(1)?;
        let argument = argument_of(alloc, row)?;
        arguments.push_reserved(match row.name {
            "date" | "days" | "minutes" | "ticks" => argument.help_heading("TIME"),
            _ => argument,
        });
    }
    Ok(())
}

/// The argument of a row.
fn argument_of<'a>(alloc: Global, row: &ArgumentRow) -> Result<Arg<'a>, AllocError> {
    let argument = Arg::new(alloc, row.name)
        .help(row.help)
        .action(row.kind.action())
        .required(row.kind.is_required())
        .allow_hyphen_values(matches!(row.kind, Kind::Dashed));
    let argument = match row.kind {
        Kind::Flag { .. } | Kind::With { .. } => argument.long(row.name),
        Kind::Option {
            value,
            default: Some(default),
        } => argument
            .long(row.name)
            .value_name(value)
            .default_value(default),
        Kind::Option { value, .. } | Kind::Beside { value, .. } | Kind::Instead { value, .. } => {
            argument.long(row.name).value_name(value)
        }
        Kind::OneOrMore | Kind::Unless { .. } | Kind::Any => argument.num_args(1..),
        Kind::One | Kind::Dashed | Kind::Optional => argument,
    };
    match row.kind {
        Kind::With { option, excludes }
        | Kind::Beside {
            option,
            excludes,
            ..
        } => argument.requires_arg(option)?.conflicts_with_all(excludes),
        Kind::Unless { option } => argument.required_unless_present(option),
        Kind::Flag { excludes } | Kind::Instead { excludes, .. } => {
            argument.conflicts_with_all(excludes)
        }
        _ => Ok(argument),
    }
}
