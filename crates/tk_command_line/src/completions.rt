//! The option that requests completions.

use crate::argument::{Argument, Syntax};
use crate::request::Request;
use clap::ArgMatches;
use clap::builder::ValueParser;

/// A shell for which there are completions.
#[derive(Clone, Copy)]
pub enum Shell {
    Bash,
    Zsh,
    Fish,
}

/// The names of the shells.
const SHELLS: [&str; 3] = ["bash", "zsh", "fish"];

/// The option that requests completions.
pub const COMPLETIONS: Argument = Argument {
    name: "completions",
    help: "print the completions for a shell",
    syntax: Syntax::Long("SHELL"),
    values: ValueParser::Names(&SHELLS),
};

/// Whether the first argument of a call is this option. It cannot be combined with a subcommand.
pub fn are_asked(words: &[String]) -> bool {
    words
        .get(1)
        .is_some_and(|word| word.as_str().starts_with("--completions"))
}

/// The request for completions, if the arguments contain it.
pub fn request<'a>(words: &ArgMatches<'a>) -> Option<Request<'a>> {
    let shell = match words.get_str(COMPLETIONS.name)? {
        "bash" => Shell::Bash,
        "zsh" => Shell::Zsh,
        "fish" => Shell::Fish,
        _ => return None,
    };
    Some(Request::Completions { shell })
}
