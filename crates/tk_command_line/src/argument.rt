//! The arguments of subcommands.

use clap::builder::ValueParser;
use clap::{Arg, ArgAction};
use std::alloc::Global;

/// An argument of a subcommand.
#[derive(Clone, Copy)]
pub struct Argument {
    /// The name of the argument, by which its value is looked up.
    pub name: &'static str,
    pub help: &'static str,
    pub syntax: Syntax,
    /// The values that it accepts.
    pub values: ValueParser<'static>,
}

/// The syntax of an argument.
#[derive(Clone, Copy)]
pub enum Syntax {
    /// A positional argument that is required.
    Required,
    /// A positional argument that is required and can be repeated.
    Repeated,
    /// A positional argument that can be left out.
    Optional,
    /// `--NAME`
    Flag,
    /// `--NAME VALUE`, with the word that the help shows for the value.
    Long(&'static str),
    /// `--NAME FILE`, or `-C FILE` with this letter.
    File(char),
    /// `-C N` with this letter, and the default of N.
    Number(char, &'static str),
}

/// The problem file, which is the first argument of most subcommands.
pub const PROBLEM: Argument = Argument {
    name: "PROBLEM",
    help: "a TSPLIB or CVRPLIB problem file, or - for standard input",
    syntax: Syntax::Required,
    values: ValueParser::String,
};

/// The option that requests one JSON object instead of text.
pub const JSON: Argument = Argument {
    name: "json",
    help: "print one JSON object instead of text",
    syntax: Syntax::Flag,
    values: ValueParser::Bool,
};

/// The option that requests one JSON object for each file instead of text.
pub const JSON_LINES: Argument = Argument {
    name: "json",
    help: "print one JSON object for each file instead of text",
    syntax: Syntax::Flag,
    values: ValueParser::Bool,
};

impl Argument {
    /// The argument, as clap takes it.
    pub fn arg<'a>(&self, alloc: Global) -> Arg<'a> {
        let arg = Arg::new(alloc, self.name)
            .help(self.help)
            .value_parser(self.values);
        match self.syntax {
            Syntax::Required => arg.required(true),
            Syntax::Repeated => arg.required(true).num_args(1..),
            Syntax::Optional => arg,
            Syntax::Flag => arg.long(self.name).action(ArgAction::SetTrue),
            Syntax::Long(value) => arg.long(self.name).value_name(value),
            Syntax::File(letter) => arg.short(letter).long(self.name).value_name("FILE"),
            Syntax::Number(letter, default) => arg
                .short(letter)
                .value_name("N")
                .default_value(default),
        }
    }
}
