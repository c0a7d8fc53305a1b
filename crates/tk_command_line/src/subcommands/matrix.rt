//! The arguments of `matrix`.

use crate::argument::{Argument, JSON, PROBLEM, Syntax};
use crate::request::Request;
use crate::subcommand::{Kind, Subcommand};
use clap::ArgMatches;
use clap::builder::ValueParser;

/// The text at the end of `matrix --help`.
const HELP: &str = "Reads PROBLEM, of at most 5,000 nodes.
Prints a TSPLIB problem file that lists every distance in the order of FORMAT.
With --json, prints an object with all distances of each node, in any FORMAT.

Exit status:
  0  the matrix was printed
  2  the arguments are wrong, PROBLEM is invalid, or it is too large
  3  PROBLEM cannot be read, output cannot be written, or memory has run out

Example:
  tourkit matrix examples/five.tsp LOWER_DIAG_ROW";

/// The names of the formats.
const FORMATS: [&str; 9] = [
    "FULL_MATRIX",
    "UPPER_ROW",
    "LOWER_ROW",
    "UPPER_DIAG_ROW",
    "LOWER_DIAG_ROW",
    "UPPER_COL",
    "LOWER_COL",
    "UPPER_DIAG_COL",
    "LOWER_DIAG_COL",
];

/// The arguments of the subcommand.
static ARGUMENTS: [Argument; 3] = [
    PROBLEM,
    Argument {
        name: "FORMAT",
        help: "the order of the weights",
        syntax: Syntax::Required,
        values: ValueParser::Names(&FORMATS),
    },
    JSON,
];

/// The subcommand `matrix`.
pub fn subcommand() -> Subcommand {
    Subcommand {
        kind: Kind::Matrix,
        name: "matrix",
        called: "tourkit matrix",
        about: "Prints a problem as a TSP with explicit weights",
        more: HELP,
        arguments: &ARGUMENTS,
    }
}

/// The request that these arguments make.
pub fn request<'a>(words: &ArgMatches<'a>) -> Option<Request<'a>> {
    Some(Request::Matrix {
        problem: words.get_str("PROBLEM")?,
        format: words.get_str("FORMAT")?,
        json: words.get_flag("json"),
    })
}
