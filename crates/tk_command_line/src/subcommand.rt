//! Subcommands.

use crate::argument::Argument;
use clap::Command;
use std::alloc::{AllocError, Global};

/// A subcommand with its arguments.
#[derive(Clone, Copy)]
pub struct Subcommand {
    pub kind: Kind,
    pub name: &'static str,
    /// The words by which it is called, for errors about its arguments.
    pub called: &'static str,
    /// The text at the beginning of its help.
    pub about: &'static str,
    /// The text at the end of its help.
    pub more: &'static str,
    pub arguments: &'static [Argument],
}

/// The subcommands.
#[derive(Clone, Copy)]
pub enum Kind {
    Check,
    Checksol,
    Explain,
    Info,
    Matrix,
    Near,
    Plot,
    Solve,
}

impl Subcommand {
    /// The subcommand as a command of clap with this name.
    ///
    /// # Errors
    /// `AllocError` if memory runs out.
    pub fn command<'a>(
        &self,
        alloc: Global,
        name: &'static str,
    ) -> Result<Command<'a>, AllocError> {
        let mut made = described(alloc, name, self.about, self.more);
        for argument in self.arguments {
            made = made.arg(argument.arg(alloc))?;
        }
        Ok(made)
    }
}

/// A command with the texts at the beginning and at the end of its help.
pub fn described<'a>(
    alloc: Global,
    name: &'static str,
    about: &'static str,
    more: &'static str,
) -> Command<'a> {
    Command::new(alloc, name).about(about).after_help(more)
}
