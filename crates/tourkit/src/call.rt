//! Runs the program, given its arguments.

use crate::commands::check::check_command;
use crate::commands::completions::completions_command;
use crate::commands::explain::explain_command;
use crate::commands::info::info_command;
use crate::commands::matrix::matrix_command;
use crate::commands::near::near_command;
use crate::commands::plot::plot_command;
use crate::commands::solve::solve_command;
use crate::words::words_of_call;
use std::process::ExitCode;
use tk_command_line::{Request, parse};
use tk_console::refusal::Refusal;
use tk_console::report;
use tk_engines::{RouteVerdict, TourOutcome};

/// Parses the arguments of the program, runs the command that they request, and reports why it stops if it does.
pub fn run_call(rt: &HostRuntime) -> ExitCode {
    match words_of_call(rt) {
        Ok(words) => answer(rt, words.as_slice()),
        Err(refusal) => report::tell(rt, &refusal),
    }
}

/// Runs the command that the arguments request.
fn answer<'a>(rt: &'a HostRuntime, words: &'a [String]) -> ExitCode {
    match parse(rt, words) {
        Ok(request) => {
            let json = request.is_json();
            report::end(rt, run(rt, request), json)
        }
        Err(reason) => report::tell(rt, &Refusal::from(reason)),
    }
}

/// Runs a subcommand, or prints completions.
fn run<'a>(rt: &'a HostRuntime, request: Request<'a>) -> Result<ExitCode, Refusal<'a>> {
    match request {
        Request::Check {
            problem,
            tours,
            json,
        } => check_command::<TourOutcome>(rt, problem, &tours, json),
        Request::Checksol {
            problem,
            solutions,
            json,
        } => check_command::<RouteVerdict>(rt, problem, &solutions, json),
        Request::Completions { shell } => completions_command(rt, shell),
        Request::Explain { what, line } => explain_command(rt, what, line),
        Request::Info { problem, json } => info_command(rt, problem, json),
        Request::Matrix {
            problem,
            format,
            json,
        } => matrix_command(rt, problem, format, json),
        Request::Near {
            problem,
            length,
            json,
        } => near_command(rt, problem, length, json),
        Request::Plot { files, html } => plot_command(rt, files, html),
        Request::Solve {
            file,
            options,
            shown,
        } => solve_command(rt, file, options, shown),
    }
}
