//! The subcommand `matrix`.
ghost use Rattle.std.specs.Prelude.{◌≤◌};
ghost use Rattle.tk_problem.specs.declared.limits.TheConstants.{TABLE_LIMIT};

use std::process::ExitCode;
use tk_console::input::open;
use tk_console::refusal::{Refusal, USAGE};
use tk_console::rows::write_matrix_object;
use tk_engines::{matrix_outcome, write_matrix_of};
use tk_problem::{Format, Problem};
use tk_words::FromRead;
use tk_writers::{ToWrite, WriteFault, format_of};

/// `matrix PROBLEM FORMAT [--json]`.
///
/// # Errors
/// Why it stopped.
pub fn matrix_command<'a>(
    rt: &HostRuntime,
    file: &'a str,
    word: &str,
    json: bool,
) -> Result<ExitCode, Refusal<'a>> {
    let Some(format) = format_of(word) else {
        return Ok(ExitCode::from(USAGE));
    };
    let problem = open(rt, file)?;
    match matrix_outcome(rt.alloc(), &mut FromRead::new(problem)) {
        Ok(problem) => {
            print(rt, &problem, format, json)?;
            Ok(ExitCode::SUCCESS)
        }
        Err(fault) => Err(Refusal::stopped(file, &fault)),
    }
}

/// Prints the matrix of a problem, in this format or as JSON.
fn print(rt: &HostRuntime, problem: &Problem, format: Format, json: bool) -> Result<(), WriteFault>
    requires few { problem.now.n ≤ TABLE_LIMIT }
{
    let mut out = ToWrite::new(rt.stdout());
    if json {
        write_matrix_object(&mut out, problem)
    } else {
        write_matrix_of(&mut out, problem, format)
    }
}
