//! The arguments of `info`.

use crate::argument::{Argument, JSON, PROBLEM};
use crate::request::Request;
use crate::subcommand::{Kind, Subcommand};
use clap::ArgMatches;

/// The text at the end of `info --help`.
const HELP: &str = "Reads PROBLEM.
Prints its name, type, dimension, distance type and the bounds of its coordinates, and for a CVRP
its capacity, depot, total demand and a lower bound on the number of vehicles.

Exit status:
  0  the lines were printed
  2  the arguments are wrong, or PROBLEM is invalid
  3  PROBLEM cannot be read, output cannot be written, or memory has run out

Example:
  tourkit info examples/bakery.vrp";

/// The arguments of the subcommand.
static ARGUMENTS: [Argument; 2] = [PROBLEM, JSON];

/// The subcommand `info`.
pub fn subcommand() -> Subcommand {
    Subcommand {
        kind: Kind::Info,
        name: "info",
        called: "tourkit info",
        about: "Prints what is known of a problem",
        more: HELP,
        arguments: &ARGUMENTS,
    }
}

/// The request that these arguments make.
pub fn request<'a>(words: &ArgMatches<'a>) -> Option<Request<'a>> {
    Some(Request::Info {
        problem: words.get_str("PROBLEM")?,
        json: words.get_flag("json"),
    })
}
