//! The arguments of `check`.

use crate::argument::{Argument, JSON_LINES, PROBLEM, Syntax};
use crate::request::Request;
use crate::subcommand::{Kind, Subcommand};
use clap::ArgMatches;
use clap::builder::ValueParser;
use std::alloc::{AllocError, Global};

/// The text at the end of `check --help`.
const HELP: &str = "Reads PROBLEM and each TOUR; one of these files may be -, for standard input.
Prints the length of the tour, or the first fault of the list. If there are several tours, each line begins with the
name of the file, and a TOUR that is invalid or cannot be read is reported on standard error.

Exit status, the highest one if there are several tours:
  0  TOUR is a tour of PROBLEM
  1  TOUR is not a tour of PROBLEM
  2  the arguments are wrong, or a file is invalid
  3  a file cannot be read, output cannot be written, or memory has run out

Examples:
  tourkit check examples/tri.tsp examples/tri.tour
  tourkit check examples/board.tsp *.tour";

/// The arguments of the subcommand.
static ARGUMENTS: [Argument; 3] = [
    PROBLEM,
    Argument {
        name: "TOUR",
        help: "a TSPLIB tour file, or - for standard input",
        syntax: Syntax::Repeated,
        values: ValueParser::String,
    },
    JSON_LINES,
];

/// The subcommand `check`.
pub fn subcommand() -> Subcommand {
    Subcommand {
        kind: Kind::Check,
        name: "check",
        called: "tourkit check",
        about: "Checks tours and prints their lengths",
        more: HELP,
        arguments: &ARGUMENTS,
    }
}

/// The request that these arguments make.
///
/// # Errors
/// `AllocError` if memory runs out.
pub fn request<'a>(
    alloc: Global,
    words: &ArgMatches<'a>,
) -> Result<Option<Request<'a>>, AllocError> {
    match (words.get_str("PROBLEM"), words.get_strs("TOUR")) {
        (Some(problem), Some(tours)) => Ok(Some(Request::Check {
            problem,
            tours: tours.to_vec(alloc)?,
            json: words.get_flag("json"),
        })),
        _ => Ok(None),
    }
}
