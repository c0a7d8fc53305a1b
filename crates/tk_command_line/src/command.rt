//! The program with its subcommands.
use crate::completions::COMPLETIONS;
use crate::subcommand::{Subcommand, described};
use crate::subcommands;
use clap::error::ErrorKind;
use clap::{Command, Error};
use std::alloc::{AllocError, Global};

/// The usage of the program.
const USAGE: &str = "tourkit <COMMAND>
       tourkit --completions <SHELL>";

/// The text at the end of `--help`.
const HELP: &str = "An invalid file is reported on standard error as FILE:LINE: NUMBER NAME.
Run tourkit explain NUMBER to see what a fault means, and tourkit explain FILE to see how to fix the file.

Exit status:
  0  the command succeeded, or help was shown
  1  a check found a fault in the tour or in the routes, or a solution has more routes than solve --vehicles states
  2  the arguments are wrong, or a file is invalid or does not fit
  3  a file cannot be read or written, output cannot be written, or memory has run out

Example:
  tourkit check examples/tri.tsp examples/tri.tour";

/// The command of the program with its subcommands. One of them must be named, unless completions are requested.
///
/// # Errors
/// `AllocError` if memory runs out.
pub fn tourkit<'a>(alloc: Global, for_completions: bool) -> Result<Command<'a>, AllocError> {
    let mut made = program(alloc, for_completions)?;
    for subcommand in &subcommands::all() {
        made = with(alloc, made, subcommand)?;
    }
    Ok(made)
}

/// The command of the program without its subcommands.
fn program<'a>(alloc: Global, for_completions: bool) -> Result<Command<'a>, AllocError> {
    described(
        alloc,
        "tourkit",
        "Reads, checks and improves tours and routes",
        HELP,
    )
    .version("0.1.0")
    .override_usage(USAGE)
    .args_conflicts_with_subcommands(true)
    .subcommand_required(!for_completions)
    .arg(COMPLETIONS.arg(alloc))
}

/// A command with one more subcommand.
fn with<'a>(
    alloc: Global,
    command: Command<'a>,
    subcommand: &Subcommand,
) -> Result<Command<'a>, AllocError> {
    let subcommand = subcommand.command(alloc, subcommand.name)?;
    command.subcommand(subcommand)
}

/// The error about arguments of a subcommand that cannot be combined.
///
/// # Errors
/// `AllocError` if memory runs out.
pub fn refused(alloc: Global, subcommand: &Subcommand, message: &str) -> Result<Error, AllocError> {
    let mut command = subcommand.command(alloc, subcommand.called)?;
    command.error(ErrorKind::ArgumentConflict, message)
}
