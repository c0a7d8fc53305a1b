//! The check of a tour.
ghost use Rattle.std.specs.Prelude.{IfErr};
ghost use Rattle.tk_problem_text.specs.ProblemOf.{problem_is};
ghost use Rattle.tk_writers.specs.Sinks.{IsBroken};
ghost use Rattle.tk_engines.specs.Check.{tour_outcome_task, ChecksTour, FindsTourOutcome};
ghost use Rattle.tk_engines.specs.Engine.{Ends, ReadsTour, IsUnread, IsUnwritten, BeforeSecond, UnlessWrite};
ghost use Rattle.tk_engines.specs.Engine.{AtWrite, HasRead, WritesNothing};

use crate::fault::Fault;
use std::alloc::Global;
use tk_lists::read_tour;
use tk_outcomes::{TourOutcome, write_tour_outcome};
use tk_problem::Problem;
use tk_problem_text::read_problem;
use tk_tour::{Verdict, check};
use tk_words::Source;
use tk_writers::Sink;

/// Checks the tour of a text against a problem that has been read, like [`tour_outcome`] on its text.
///
/// # Errors
/// As for `tour_outcome`, without those of the problem text.
pub fn tour_outcome_of<T: Source>(
    alloc: Global,
    problem: &Problem,
    tour: &mut T,
) -> Result<TourOutcome, Fault>
    ensures ends { Ends tour_outcome_task (HasRead (problem_is problem.now)) (ReadsTour T.Source tour.old tour.new)
        WritesNothing result }
{
    let tour = match read_tour(alloc, tour) {
        Ok(tour) => tour,
        Err(fault) => return Err(Fault::Tour(fault)),
    };
    let cities = tour.cities.as_slice();
    match check(alloc, problem.n, cities) {
        Ok(verdict) => Ok(TourOutcome::of(problem, cities, verdict)),
        Err(_) => Err(Fault::NoMemory),
    }
}

/// Checks the tour of one text against the problem of another: the length of the tour, or the first fault of the list.
///
/// # Errors
/// The fault of either text, or `NoMemory` if memory runs out.
pub fn tour_outcome<P: Source, T: Source>(
    alloc: Global,
    problem: &mut P,
    tour: &mut T,
) -> Result<TourOutcome, Fault>
    ensures ends { FindsTourOutcome P.Source T.Source (problem.old, tour.old) (problem.new, tour.new) result }
    ensures unread { IfErr result (BeforeSecond (IsUnread T.Source tour.old tour.new)) }
{
    match read_problem(alloc, problem) {
        Ok(problem) => tour_outcome_of(alloc, &problem, tour),
        Err(fault) => Err(Fault::Problem(fault)),
    }
}

/// Checks the tour of one text against the problem of another, writes the verdict as one line, and returns it.
///
/// Both texts are read before a byte is written.
///
/// # Errors
/// The fault of either text or of a write, or `NoMemory` if memory runs out.
pub fn check_engine<P: Source, T: Source, W: Sink>(
    alloc: Global,
    problem: &mut P,
    tour: &mut T,
    out: &mut W,
) -> Result<Verdict, Fault>
    ensures ends { ChecksTour P.Source T.Source W.Sink (problem.old, tour.old, out.old)
        (problem.new, tour.new, out.new) result }
    ensures quiet { IfErr result (UnlessWrite (IsUnwritten W.Sink out.old out.new)) }
    ensures failed { IfErr result (AtWrite (IsBroken W.Sink out.new)) }
    ensures unread { IfErr result (BeforeSecond (IsUnread T.Source tour.old tour.new)) }
{
    let outcome = tour_outcome(alloc, problem, tour)?;
    match write_tour_outcome(out, &outcome) {
        Ok(()) => Ok(outcome.verdict()),
        Err(fault) => Err(Fault::Write(fault)),
    }
}
