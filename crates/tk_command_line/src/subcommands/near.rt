//! The arguments of `near`.

use crate::argument::{Argument, JSON, PROBLEM, Syntax};
use crate::request::Request;
use crate::subcommand::{Kind, Subcommand};
use clap::ArgMatches;
use clap::builder::ValueParser;
use tk_near::ListLength;
use tk_problem::CANDIDATE_LIMIT;

/// The text at the end of `near --help`.
const HELP: &str = "Reads PROBLEM.
Prints a line for each city: its number and its N nearest neighbours, with ties broken by city number.

Exit status:
  0  the lists were printed
  2  the arguments are wrong, or PROBLEM is invalid
  3  PROBLEM cannot be read, output cannot be written, or memory has run out

Example:
  zcat berlin52.tsp.gz | tourkit near - -k 5";

/// The arguments of the subcommand.
static ARGUMENTS: [Argument; 3] = [
    PROBLEM,
    Argument {
        name: "k",
        help: "length of each list, 1 to 100",
        syntax: Syntax::Number('k', "5"),
        values: ValueParser::Unsigned(1, CANDIDATE_LIMIT as u64),
    },
    JSON,
];

/// The subcommand `near`.
pub fn subcommand() -> Subcommand {
    Subcommand {
        kind: Kind::Near,
        name: "near",
        called: "tourkit near",
        about: "Prints the nearest neighbours of each city",
        more: HELP,
        arguments: &ARGUMENTS,
    }
}

/// The request that these arguments make.
pub fn request<'a>(words: &ArgMatches<'a>) -> Option<Request<'a>> {
    Some(Request::Near {
        problem: words.get_str("PROBLEM")?,
        length: ListLength::of(words.get_one::<u32>("k")?)?,
        json: words.get_flag("json"),
    })
}
