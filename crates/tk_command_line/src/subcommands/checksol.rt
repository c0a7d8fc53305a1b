//! The arguments of `checksol`.

use crate::argument::{Argument, JSON_LINES, PROBLEM, Syntax};
use crate::request::Request;
use crate::subcommand::{Kind, Subcommand};
use clap::ArgMatches;
use clap::builder::ValueParser;
use std::alloc::{AllocError, Global};

/// The text at the end of `checksol --help`.
const HELP: &str =
    "Reads PROBLEM and each SOLUTION; one of these files may be -, for standard input.
Prints the number of routes and their cost, or their first fault. If there are several solutions, each line begins with
the name of the file, and a SOLUTION that is invalid or cannot be read is reported on standard error.

Exit status, the highest one if there are several solutions:
  0  the routes of SOLUTION are valid, and so is their cost
  1  the routes or their cost are wrong
  2  the arguments are wrong, a file is invalid, or PROBLEM is not a CVRP
  3  a file cannot be read, output cannot be written, or memory has run out

Examples:
  tourkit checksol examples/bakery.vrp examples/bakery-plan.sol
  tourkit checksol examples/bakery.vrp *.sol";

/// The arguments of the subcommand.
static ARGUMENTS: [Argument; 3] = [
    PROBLEM,
    Argument {
        name: "SOLUTION",
        help: "a CVRPLIB solution file, or - for standard input",
        syntax: Syntax::Repeated,
        values: ValueParser::String,
    },
    JSON_LINES,
];

/// The subcommand `checksol`.
pub fn subcommand() -> Subcommand {
    Subcommand {
        kind: Kind::Checksol,
        name: "checksol",
        called: "tourkit checksol",
        about: "Checks the routes of a CVRP and their cost",
        more: HELP,
        arguments: &ARGUMENTS,
    }
}

/// The request that these arguments make.
///
/// # Errors
/// `AllocError` if memory runs out.
pub fn request<'a>(
    alloc: Global,
    words: &ArgMatches<'a>,
) -> Result<Option<Request<'a>>, AllocError> {
    match (words.get_str("PROBLEM"), words.get_strs("SOLUTION")) {
        (Some(problem), Some(solutions)) => Ok(Some(Request::Checksol {
            problem,
            solutions: solutions.to_vec(alloc)?,
            json: words.get_flag("json"),
        })),
        _ => Ok(None),
    }
}
