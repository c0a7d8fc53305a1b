//! The arguments of `solve`.

use crate::argument::{Argument, JSON, Syntax};
use crate::request::{DisplayOptions, Request};
use crate::search_options::SearchOptions;
use crate::subcommand::{Kind, Subcommand};
use clap::ArgMatches;
use clap::builder::ValueParser;
use tk_problem::{CANDIDATE_LIMIT, ROUTE_LIMIT};

/// The text at the end of `solve --help`.
const HELP: &str =
    "With a search option or -o, the file is PROBLEM. Otherwise it is PARAMETERS, which specifies the whole search.
With PROBLEM, the search of a CVRP moves customers between routes. With PARAMETERS or --within-routes, it does not.
Prints a line for each run and the best length, or the cost and the number of the routes of a CVRP.
Writes the best tour or the routes to the file that -o, TOUR_FILE or SOLUTION_FILE names.
From the fifth second on, the best result so far is kept in a file of that name plus .best.

Exit status:
  0  the search is done
  1  the search is done, but its best solution has more routes than --vehicles states
  2  the arguments are wrong, a file is invalid, or a key or option does not apply to the problem
  3  a file cannot be read or written, output cannot be written, or memory has run out

Examples:
  tourkit solve examples/board.tsp --trials 2000 -o board.tour
  tourkit solve examples/bakery.vrp --trials 3000 -o bakery.sol
  tourkit solve examples/bakery.vrp --initial-solution bakery.sol --seed 2 -o bakery.sol
  tourkit solve examples/bakery.par";

/// The values of `--construction`.
const CONSTRUCTIONS: [&str; 2] = ["nearest", "savings"];

/// The arguments of the subcommand.
static ARGUMENTS: [Argument; 17] = [
    Argument {
        name: "PROBLEM | PARAMETERS",
        help: "a problem file, or a parameter file like LKH's; - for standard input",
        syntax: Syntax::Required,
        values: ValueParser::String,
    },
    Argument {
        name: "output",
        help: "write the best tour, or the routes of a CVRP, to FILE",
        syntax: Syntax::File('o'),
        values: ValueParser::String,
    },
    Argument {
        name: "trials",
        help: "trials per run, 1 to 1,000,000 [default: the number of cities; CVRP: 10 for each node]",
        syntax: Syntax::Long("N"),
        values: ValueParser::Unsigned(1, 1_000_000),
    },
    Argument {
        name: "seconds",
        help: "begin no trial after N seconds, 1 to 1,000,000",
        syntax: Syntax::Long("N"),
        values: ValueParser::Unsigned(1, 1_000_000),
    },
    Argument {
        name: "candidates",
        help: "length of the near lists, 1 to 100 [default: 5; CVRP: 12]",
        syntax: Syntax::Long("N"),
        values: ValueParser::Unsigned(1, CANDIDATE_LIMIT as u64),
    },
    Argument {
        name: "runs",
        help: "number of runs, 1 to 10,000 [default: 10; CVRP: 1]",
        syntax: Syntax::Long("N"),
        values: ValueParser::Unsigned(1, 10_000),
    },
    Argument {
        name: "seed",
        help: "seed of the random numbers [default: 1]",
        syntax: Syntax::Long("N"),
        values: ValueParser::Unsigned(0, u32::MAX as u64),
    },
    Argument {
        name: "or-segment",
        help: "longest segment that an Or-opt move moves, 1 to 3 [default: 3]",
        syntax: Syntax::Long("N"),
        values: ValueParser::Unsigned(1, 3),
    },
    Argument {
        name: "construction",
        help: "how to construct the starting tours (TSP only) [default: nearest]",
        syntax: Syntax::Long("HOW"),
        values: ValueParser::Names(&CONSTRUCTIONS),
    },
    Argument {
        name: "final-sweep",
        help: "continue each trial until no city has an improving move",
        syntax: Syntax::Flag,
        values: ValueParser::Bool,
    },
    Argument {
        name: "initial-tour",
        help: "start every run from this tour, or - for standard input (TSP only)",
        syntax: Syntax::Long("TOUR"),
        values: ValueParser::String,
    },
    Argument {
        name: "initial-solution",
        help: "start every run from these routes, or - for standard input (CVRP only)",
        syntax: Syntax::Long("SOLUTION"),
        values: ValueParser::String,
    },
    Argument {
        name: "vehicles",
        help: "exit with status 1 if the best solution has more routes than N (CVRP only)",
        syntax: Syntax::Long("N"),
        values: ValueParser::Unsigned(1, ROUTE_LIMIT as u64),
    },
    Argument {
        name: "within-routes",
        help: "move no customers between routes, as with PARAMETERS (CVRP only)",
        syntax: Syntax::Flag,
        values: ValueParser::Bool,
    },
    Argument {
        name: "progress",
        help: "write each run's line to standard error when the run ends",
        syntax: Syntax::Flag,
        values: ValueParser::Bool,
    },
    Argument {
        name: "log",
        help: "append a JSON object to FILE for each improvement of a run",
        syntax: Syntax::Long("FILE"),
        values: ValueParser::String,
    },
    JSON,
];

/// The subcommand `solve`.
pub fn subcommand() -> Subcommand {
    Subcommand {
        kind: Kind::Solve,
        name: "solve",
        called: "tourkit solve",
        about: "Searches for a short tour or for short routes",
        more: HELP,
        arguments: &ARGUMENTS,
    }
}

/// The request that these arguments make.
pub fn request<'a>(words: &ArgMatches<'a>) -> Option<Request<'a>> {
    let options = SearchOptions {
        output: words.get_str("output"),
        initial_tour: words.get_str("initial-tour"),
        runs: words.get_str("runs"),
        trials: words.get_str("trials"),
        seconds: words.get_one::<u32>("seconds"),
        seed: words.get_str("seed"),
        candidates: words.get_str("candidates"),
        construction: words.get_str("construction"),
        or_segment: words.get_str("or-segment"),
        final_sweep: words.get_flag("final-sweep"),
        initial_solution: words.get_str("initial-solution"),
        vehicles: words.get_one::<u32>("vehicles"),
        within_routes: words.get_flag("within-routes"),
    };
    Some(Request::Solve {
        file: words.get_str("PROBLEM | PARAMETERS")?,
        options: options.are_given().then_some(options),
        shown: DisplayOptions {
            progress: words.get_flag("progress"),
            log: words.get_str("log"),
            json: words.get_flag("json"),
        },
    })
}
