//! The arguments of `explain`.

use crate::argument::{Argument, Syntax};
use crate::request::Request;
use crate::subcommand::{Kind, Subcommand};
use clap::ArgMatches;
use clap::builder::ValueParser;

/// The text at the end of `explain --help`.
const HELP: &str = "Prints what a fault means, its usual causes, and what to do.
If WHAT is a file (problem, tour, solution or parameters), explains its first fault: the line, what was expected
there and what was found. If the file has no fault, says what it contains.
With LINE, explains that line of the file. Write ./WHAT for a file that is named like a fault.

Exit status:
  0  something was explained
  2  the arguments are wrong, or WHAT is a number that is neither a fault nor a file
  3  a file cannot be read, output cannot be written, or memory has run out

Example:
  tourkit explain TrailingData";

/// The arguments of the subcommand.
static ARGUMENTS: [Argument; 2] = [
    Argument {
        name: "WHAT",
        help: "the number or the name of a fault, a file, or - for standard input",
        syntax: Syntax::Required,
        values: ValueParser::String,
    },
    Argument {
        name: "LINE",
        help: "the number of a line of the file",
        syntax: Syntax::Optional,
        values: ValueParser::Unsigned(1, u64::MAX),
    },
];

/// The subcommand `explain`.
pub fn subcommand() -> Subcommand {
    Subcommand {
        kind: Kind::Explain,
        name: "explain",
        called: "tourkit explain",
        about: "Explains a fault, or what is wrong with a file",
        more: HELP,
        arguments: &ARGUMENTS,
    }
}

/// The request that these arguments make.
pub fn request<'a>(words: &ArgMatches<'a>) -> Option<Request<'a>> {
    Some(Request::Explain {
        what: words.get_str("WHAT")?,
        line: words.get_one::<u64>("LINE"),
    })
}
