//! `clap`'s commands, made of the rows.

use crate::rows::{Argument, Bounds, Kind, Program, Subcommand};
use crate::subcommands::{PROGRAM, subcommands};
use clap::builder::ValueParser;
use clap::{Arg, ArgAction, Command};
use std::alloc::{AllocError, Global};

/// The whole program.
pub(crate) fn program<'a>(alloc: Global) -> Result<Command<'a>, AllocError> {
    let mut program = bare(alloc, &PROGRAM)?;
    for row in subcommands() {
        program = program.subcommand(subcommand(alloc, row)?)?;
    }
    Ok(program)
}

/// The program without its subcommands.
fn bare<'a>(alloc: Global, row: &Program) -> Result<Command<'a>, AllocError> {
    Command::new(alloc, row.name)
        .about(row.about)
        .version(row.version)
        .after_help(row.help)
        .subcommand_required(true)
        .arg_required_else_help(true)
        .bin_name(row.name)
}

fn subcommand<'a>(alloc: Global, row: &Subcommand) -> Result<Command<'a>, AllocError> {
    let mut command = Command::new(alloc, row.name)
        .about(row.about)
        .after_help(row.help);
    for argument in row.arguments {
        command = command.arg(argument_of(alloc, argument)?)?;
    }
    Ok(command)
}

fn argument_of<'a>(alloc: Global, row: &Argument) -> Result<Arg<'a>, AllocError> {
    let argument = Arg::new(alloc, row.name).help(row.help);
    match row.kind {
        Kind::Text => Ok(argument.required(true)),
        Kind::Number(bounds) => Ok(number(argument, bounds).required(true)),
        Kind::MaybeNumber(bounds) => Ok(number(argument, bounds)),
        Kind::Flag => Ok(flag(argument, row.name)),
        Kind::FlagWithout(other) => flag(argument, row.name).conflicts_with(other),
        Kind::Named(value) => Ok(valued(argument, row.name, value, None)),
        Kind::Time => Ok(valued(argument, row.name, "T", None).allow_hyphen_values(true)),
        Kind::Valued {
            value,
            bounds,
            default,
        } => Ok(valued(number(argument, bounds), row.name, value, default)),
    }
}

fn flag<'a>(argument: Arg<'a>, name: &'a str) -> Arg<'a> {
    argument.long(name).action(ArgAction::SetTrue)
}

fn number<'a>(argument: Arg<'a>, bounds: Bounds) -> Arg<'a> {
    let parser = ValueParser::Signed(bounds.least as i64, bounds.most as i64);
    argument.value_parser(parser)
}

fn valued<'a>(
    argument: Arg<'a>,
    name: &'a str,
    value: &'a str,
    default: Option<&'a str>,
) -> Arg<'a> {
    let argument = argument.long(name).value_name(value);
    match default {
        Some(number) => argument.default_value(number),
        None => argument,
    }
}
