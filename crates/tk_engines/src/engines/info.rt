//! What is known of a problem.
ghost use Rattle.std.specs.Prelude.{IfErr};
ghost use Rattle.tk_writers.specs.Sinks.{IsBroken};
ghost use Rattle.tk_engines.specs.Engine.{AtWrite, IsUnwritten, UnlessWrite};
ghost use Rattle.tk_engines.specs.Info.{FindsInfo, WritesInfo};

use crate::fault::{Fault, end_of};
use std::alloc::Global;
use tk_outcomes::{ProblemInfo, write_info};
use tk_problem_text::read_problem;
use tk_words::Source;
use tk_writers::Sink;

/// Reads a problem, and returns what is known of it.
///
/// # Errors
/// The fault of the text, also if memory runs out.
pub fn info_outcome<P: Source>(alloc: Global, problem: &mut P) -> Result<ProblemInfo, Fault>
    ensures ends { FindsInfo P.Source problem.old problem.new result }
{
    match read_problem(alloc, problem) {
        Ok(problem) => Ok(ProblemInfo::of(problem)),
        Err(fault) => Err(Fault::Problem(fault)),
    }
}

/// Reads a problem, and writes what is known of it, line by line.
///
/// The whole text is read before a byte is written.
///
/// # Errors
/// The fault of the text, also if memory runs out, or of a write.
pub fn info_engine<P: Source, W: Sink>(
    alloc: Global,
    problem: &mut P,
    out: &mut W,
) -> Result<(), Fault>
    ensures ends { WritesInfo P.Source W.Sink (problem.old, out.old) (problem.new, out.new) result }
    ensures quiet { IfErr result (UnlessWrite (IsUnwritten W.Sink out.old out.new)) }
    ensures failed { IfErr result (AtWrite (IsBroken W.Sink out.new)) }
{
    let info = info_outcome(alloc, problem)?;
    end_of(write_info(out, &info))
}
