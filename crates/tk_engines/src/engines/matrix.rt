//! The matrix of a problem.
ghost use Rattle.std.specs.Prelude.{◌≡◌, ◌≤◌, pos, OnErr, IfErr};
ghost use Rattle.tk_problem.specs.declared.limits.TheConstants.{TABLE_LIMIT};
ghost use Rattle.tk_distance.specs.Cities.{IsCity};
ghost use Rattle.tk_distance.specs.Tables.{table_size, table_distance};
ghost use Rattle.tk_problem_text.specs.Names.{IsName};
ghost use Rattle.tk_problem_text.specs.ProblemOf.{problem_is};
ghost use Rattle.tk_writers.specs.Puts.{Writes};
ghost use Rattle.tk_writers.specs.Sinks.{IsBroken};
ghost use Rattle.tk_engines.specs.Engine.{AtWrite, Ends, IsUnwritten, NoText, ReadsProblem, UnlessWrite, WritesNothing};
ghost use Rattle.tk_engines.specs.MatrixOf.{by_distances, IsReadAs, matrix_of, matrix_outcome_task, matrix_task};

use crate::fault::{Fault, end_of};
use std::alloc::Global;
use tk_distance::{Metric, Table};
use tk_problem::{Format, Problem, TABLE_LIMIT};
use tk_problem_text::read_problem;
use tk_words::Source;
use tk_writers::{Sink, WriteFault, write_matrix};

/// Reads a problem whose matrix can be written.
///
/// # Errors
/// The fault of the text, also if memory runs out; `TooLarge` for more than 5,000 nodes.
pub fn matrix_outcome<R: Source>(alloc: Global, problem: &mut R) -> Result<Problem, Fault>
    ensures ends { Ends matrix_outcome_task (ReadsProblem R.Source problem.old problem.new) NoText WritesNothing
        result }
{
    match read_problem(alloc, problem) {
        Ok(problem) if problem.n > TABLE_LIMIT => Err(Fault::TooLarge),
        Ok(problem) => Ok(problem),
        Err(fault) => Err(Fault::Problem(fault)),
    }
}

/// Writes the matrix of a problem: a TSP with explicit weights in this format, the distances of the cities.
/// A reader returns them, if it can return the name of the problem (`read_back`).
///
/// # Errors
/// A write failed; the fault contains the number of bytes that were written.
pub fn write_matrix_of<W: Sink>(
    out: &mut W,
    problem: &Problem,
    format: Format,
) -> Result<(), WriteFault>
    requires few { problem.now.n ≤ TABLE_LIMIT }
    ensures text { Writes W.Sink out.old out.new result (matrix_of (problem_is problem.now) format) }
    ensures read_back { IsName problem.now.name.items
        → IsReadAs (matrix_of (problem_is problem.now) format) (by_distances (problem_is problem.now)) }
    ensures failed { OnErr result (IsBroken W.Sink out.new) }
{
    let table = Table::of(problem);
    let distance = |a: u32, b: u32| -> i64
        requires a { IsCity (table_size table) a }
        requires b { IsCity (table_size table) b }
        ensures { result ≡ pos (table_distance table.entry a b) }
    { table.dist(a, b) };
    write_matrix(out, &problem.name, problem.n, &distance, format)
}

/// Writes a problem as a TSP with explicit weights in this format: the distances of its cities.
///
/// The whole text is read before a byte is written.
///
/// # Errors
/// The fault of the text, also if memory runs out, or of a write; `TooLarge` for more than 5,000 nodes.
pub fn matrix_engine<R: Source, W: Sink>(
    alloc: Global,
    problem: &mut R,
    format: Format,
    out: &mut W,
) -> Result<(), Fault>
    ensures ends { Ends (matrix_task format) (ReadsProblem R.Source problem.old problem.new) NoText
        (Writes W.Sink out.old out.new) result }
    ensures quiet { IfErr result (UnlessWrite (IsUnwritten W.Sink out.old out.new)) }
    ensures failed { IfErr result (AtWrite (IsBroken W.Sink out.new)) }
{
    let problem = matrix_outcome(alloc, problem)?;
    end_of(write_matrix_of(out, &problem, format))
}
