//! Parsed command lines.

use crate::completions::Shell;
use crate::search_options::SearchOptions;
use tk_near::ListLength;

/// The name of standard input.
pub const STANDARD: &str = "-";

/// A parsed command line: a subcommand with its files and options, or a request for completions. [`STANDARD`] names
/// standard input.
#[derive(Drop)]
pub enum Request<'a> {
    /// `check PROBLEM TOUR.. [--json]`
    Check {
        problem: &'a str,
        tours: Vec<&'a str>,
        json: bool,
    },
    /// `checksol PROBLEM SOLUTION.. [--json]`
    Checksol {
        problem: &'a str,
        solutions: Vec<&'a str>,
        json: bool,
    },
    /// `--completions SHELL`
    Completions {
        shell: Shell,
    },
    /// `explain WHAT [LINE]`
    Explain {
        what: &'a str,
        line: Option<u64>,
    },
    /// `info PROBLEM [--json]`
    Info {
        problem: &'a str,
        json: bool,
    },
    /// `matrix PROBLEM FORMAT [--json]`
    Matrix {
        problem: &'a str,
        format: &'a str,
        json: bool,
    },
    /// `near PROBLEM -k N [--json]`
    Near {
        problem: &'a str,
        length: ListLength,
        json: bool,
    },
    /// `plot PROBLEM [TOUR | SOLUTION] [OTHER] [--html [--names FILE]]`
    Plot {
        files: PlotFiles<'a>,
        html: bool,
    },
    /// `solve PARAMETERS [--progress] [--log FILE] [--json]`, or `solve PROBLEM` with search options
    Solve {
        file: &'a str,
        options: Option<SearchOptions<'a>>,
        shown: DisplayOptions<'a>,
    },
}

impl Request<'_> {
    /// Whether JSON is requested instead of text.
    pub fn is_json(&self) -> bool {
        match *self {
            Request::Check { json, .. }
            | Request::Checksol { json, .. }
            | Request::Info { json, .. }
            | Request::Matrix { json, .. }
            | Request::Near { json, .. } => json,
            Request::Solve { shown, .. } => shown.json,
            Request::Completions { .. } | Request::Explain { .. } | Request::Plot { .. } => false,
        }
    }
}

/// The files that `plot` reads.
#[derive(Clone, Copy)]
pub struct PlotFiles<'a> {
    pub problem: &'a str,
    /// The tour or the solution.
    pub claim: Option<&'a str>,
    /// `OTHER`: the tour or the solution that it is compared with.
    pub other: Option<&'a str>,
    /// `--names`: the names of the nodes.
    pub names: Option<&'a str>,
}

/// The display options of `solve`.
#[derive(Clone, Copy)]
pub struct DisplayOptions<'a> {
    /// Whether each run's line is written to standard error when the run ends.
    pub progress: bool,
    /// `--log`: the file to which a line is appended for each improvement of a run.
    pub log: Option<&'a str>,
    /// Whether one JSON object is printed instead of text.
    pub json: bool,
}
