//! The near lists of a problem.
ghost use Rattle.std.specs.Prelude.{◌≤◌, OnErr, IfErr};
ghost use Rattle.tk_problem.specs.declared.limits.TheConstants.{CANDIDATE_LIMIT};
ghost use Rattle.tk_distance.specs.Cities.{IsCity};
ghost use Rattle.tk_near.specs.Near.{near_of};
ghost use Rattle.tk_problem_text.specs.ProblemOf.{problem_is};
ghost use Rattle.tk_writers.specs.Pens.{Puts};
ghost use Rattle.tk_writers.specs.Puts.{Writes};
ghost use Rattle.tk_writers.specs.Written.{near_line};
ghost use Rattle.tk_writers.specs.Sinks.{IsBroken};
ghost use Rattle.tk_engines.specs.Engine.{AtWrite, Ends, HasRead, IsUnwritten, NoText, ReadsProblem, UnlessWrite};
ghost use Rattle.tk_engines.specs.Engine.{WritesNothing};
ghost use Rattle.tk_engines.specs.NearText.{near_outcome_task, near_task, near_text};

use crate::fault::{Fault, end_of};
use std::alloc::Global;
use tk_distance::Table;
use tk_near::{Near, near_lists};
use tk_problem::Problem;
use tk_problem_text::read_problem;
use tk_words::Source;
use tk_writers::{Pen, Sink, WriteFault};

/// The near lists of a problem, with k cities each, or all other cities if there are fewer.
fn lists_of(alloc: Global, problem: &Problem, k: u32) -> Result<Near, Fault>
    requires low { 1 ≤ k }
    requires limit { k ≤ CANDIDATE_LIMIT }
    ensures { Ends (near_outcome_task k) (HasRead (problem_is problem.now)) NoText WritesNothing result }
{
    match near_lists(alloc, &Table::of(problem), k.min(problem.n - 1)) {
        Ok(near) => Ok(near),
        Err(_) => Err(Fault::NoMemory),
    }
}

/// Finds the near list of each city of a problem: its k nearest other cities, or all of them if there are fewer. k is
/// 1 to 100.
///
/// # Errors
/// The fault of the text, or `NoMemory` if memory runs out.
pub fn near_outcome<R: Source>(alloc: Global, problem: &mut R, k: u32) -> Result<Near, Fault>
    requires low { 1 ≤ k }
    requires limit { k ≤ CANDIDATE_LIMIT }
    ensures ends { Ends (near_outcome_task k) (ReadsProblem R.Source problem.old problem.new) NoText WritesNothing
        result }
{
    match read_problem(alloc, problem) {
        Ok(problem) => lists_of(alloc, &problem, k),
        Err(fault) => Err(Fault::Problem(fault)),
    }
}

/// Writes the near list of a city on a line of its own.
fn put_list<W: Sink>(pen: &mut Pen<'_, W>, near: &Near, city: u32)
    requires { IsCity near.now.size city }
    ensures { Puts W.Sink pen.old pen.new (near_line city (near_of near.now city)) }
{
    pen.put_number(city as u64);
    pen.put(b": ");
    pen.put_spaced(near.of(city));
    pen.put(b"\n");
}

/// Writes the near lists of all cities to a pen.
fn put_lists<W: Sink>(pen: &mut Pen<'_, W>, near: &Near)
    ensures { Puts W.Sink pen.old pen.new (near_text near.now) }
{
    for city in 1..near.size() + 1 {
        put_list(pen, near, city);
    }
}

/// Writes the near lists of all cities to a sink, a line for each city.
///
/// # Errors
/// A write failed; the fault contains the number of bytes that were written.
pub fn write_near_lists<W: Sink>(out: &mut W, near: &Near) -> Result<(), WriteFault>
    ensures text { Writes W.Sink out.old out.new result (near_text near.now) }
    ensures failed { OnErr result (IsBroken W.Sink out.new) }
{
    let _limits = (near.size(), near.width()); // for the proof that the text is short
    let mut pen = Pen::new(out);
    put_lists(&mut pen, near);
    pen.end()
}

/// Writes the near list of each city of a problem, as [`near_outcome`] finds it.
///
/// The whole text is read before a byte is written.
///
/// # Errors
/// The fault of the text or of a write, or `NoMemory` if memory runs out.
pub fn near_engine<R: Source, W: Sink>(
    alloc: Global,
    problem: &mut R,
    k: u32,
    out: &mut W,
) -> Result<(), Fault>
    requires low { 1 ≤ k }
    requires limit { k ≤ CANDIDATE_LIMIT }
    ensures ends { Ends (near_task k) (ReadsProblem R.Source problem.old problem.new) NoText
        (Writes W.Sink out.old out.new) result }
    ensures quiet { IfErr result (UnlessWrite (IsUnwritten W.Sink out.old out.new)) }
    ensures failed { IfErr result (AtWrite (IsBroken W.Sink out.new)) }
{
    let near = near_outcome(alloc, problem, k)?;
    end_of(write_near_lists(out, &near))
}
