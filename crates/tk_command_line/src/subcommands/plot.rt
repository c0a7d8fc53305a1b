//! The arguments of `plot`.

use crate::argument::{Argument, PROBLEM, Syntax};
use crate::request::{PlotFiles, Request};
use crate::subcommand::{Kind, Subcommand};
use clap::ArgMatches;
use clap::builder::ValueParser;

/// The text at the end of `plot --help`.
const HELP: &str =
    "Reads PROBLEM, TOUR or SOLUTION, OTHER and FILE; one of them may be -, for standard input.
Prints a picture as SVG: the cities, the tour or the routes, and the depot of a CVRP.
With --html, prints a self-contained HTML page: a picture to zoom and pan, the number, coordinates and demand of each
city, and a table of the routes. With --names, it also shows their names. The first row of FILE names its columns, and
each node has a row after it, in the order of the numbers.
With OTHER, which is a tour or a solution too, the page shows both next to each other, the difference of their lengths
or costs, and the legs that only one of them has.
The cities of a PROBLEM with explicit weights are drawn where DISPLAY_DATA_SECTION, or else NODE_COORD_SECTION, places
them.
TOUR, SOLUTION and OTHER are checked first. If one is not a tour of PROBLEM, or its routes are not valid, nothing is
drawn, and standard error gets what check or checksol would print.

Exit status:
  0  the picture or the page was printed
  1  TOUR or OTHER is not a tour of PROBLEM, or the routes of SOLUTION or OTHER are not valid
  2  the arguments are wrong, a file is invalid, PROBLEM has explicit weights and no coordinates, or FILE does not have
     one name for each node
  3  a file cannot be read, output cannot be written, or memory has run out

Examples:
  tourkit plot examples/tri.tsp examples/tri.tour >tri.svg
  tourkit plot --html examples/bakery.vrp examples/bakery-plan.sol >bakery.html
  tourkit plot --html examples/bakery.vrp monday.sol tuesday.sol >both.html
  tourkit plot --html --names examples/florist.csv florist.vrp florist.sol >florist.html";

/// The arguments of the subcommand.
static ARGUMENTS: [Argument; 5] = [
    PROBLEM,
    Argument {
        name: "TOUR | SOLUTION",
        help: "a TSPLIB tour file, or for a CVRP a CVRPLIB solution file, or - for standard input",
        syntax: Syntax::Optional,
        values: ValueParser::String,
    },
    Argument {
        name: "OTHER",
        help: "with --html, another tour or solution, to compare the first with",
        syntax: Syntax::Optional,
        values: ValueParser::String,
    },
    Argument {
        name: "html",
        help: "print an HTML page instead of an SVG picture",
        syntax: Syntax::Flag,
        values: ValueParser::Bool,
    },
    Argument {
        name: "names",
        help: "show the names in column 'name' of the CSV file FILE on the page",
        syntax: Syntax::Long("FILE"),
        values: ValueParser::String,
    },
];

/// The subcommand `plot`.
pub fn subcommand() -> Subcommand {
    Subcommand {
        kind: Kind::Plot,
        name: "plot",
        called: "tourkit plot",
        about: "Draws a problem, and a tour or routes of it, as SVG or HTML",
        more: HELP,
        arguments: &ARGUMENTS,
    }
}

/// The request that these arguments make.
pub fn request<'a>(words: &ArgMatches<'a>) -> Option<Request<'a>> {
    let files = PlotFiles {
        problem: words.get_str("PROBLEM")?,
        claim: words.get_str("TOUR | SOLUTION"),
        other: words.get_str("OTHER"),
        names: words.get_str("names"),
    };
    Some(Request::Plot {
        files,
        html: words.get_flag("html"),
    })
}
