//! The check of routes.
ghost use Rattle.std.specs.Prelude.{IfErr};
ghost use Rattle.tk_problem_text.specs.ProblemOf.{problem_is};
ghost use Rattle.tk_routes.specs.Cvrps.{instance_of};
ghost use Rattle.tk_routes.specs.Instance.{IsInstanceOf};
ghost use Rattle.tk_writers.specs.Sinks.{IsBroken};
ghost use Rattle.tk_engines.specs.Engine.{Ends, ReadsSolution, IsUnread, IsUnwritten, BeforeSecond, UnlessWrite};
ghost use Rattle.tk_engines.specs.Engine.{AtWrite, HasRead, WritesNothing};
ghost use Rattle.tk_engines.specs.RouteCheck.{route_outcome_task, ChecksRoutes, FindsRouteOutcome};

use crate::fault::Fault;
use std::alloc::Global;
use tk_lists::read_solution;
use tk_outcomes::write_route_verdict;
use tk_problem::Problem;
use tk_problem_text::read_problem;
use tk_routes::{Cvrp, RouteVerdict, check_routes};
use tk_words::Source;
use tk_writers::Sink;

/// Reads a solution, and checks its routes.
fn check_solution<S: Source>(
    alloc: Global,
    problem: &Problem,
    cvrp: &Cvrp<'_>,
    solution: &mut S,
) -> Result<RouteVerdict, Fault>
    requires { IsInstanceOf problem.now (instance_of cvrp.now) }
    ensures ends { Ends route_outcome_task (HasRead (problem_is problem.now))
        (ReadsSolution S.Source solution.old solution.new) WritesNothing result }
{
    let solution = match read_solution(alloc, solution) {
        Ok(solution) => solution,
        Err(fault) => return Err(Fault::Solution(fault)),
    };
    match check_routes(alloc, cvrp, &solution) {
        Ok(verdict) => Ok(verdict),
        Err(_) => Err(Fault::NoMemory),
    }
}

/// Checks the routes of a text against a problem that has been read, like [`route_outcome`] on its text.
///
/// # Errors
/// As for `route_outcome`, without those of the problem text.
pub fn route_outcome_of<S: Source>(
    alloc: Global,
    problem: &Problem,
    solution: &mut S,
) -> Result<RouteVerdict, Fault>
    ensures ends { Ends route_outcome_task (HasRead (problem_is problem.now))
        (ReadsSolution S.Source solution.old solution.new) WritesNothing result }
    ensures unread { IfErr result (BeforeSecond (IsUnread S.Source solution.old solution.new)) }
{
    let Some(cvrp) = Cvrp::of(problem) else {
        return Err(Fault::WrongType);
    };
    check_solution(alloc, problem, &cvrp, solution)
}

/// Checks the routes of one text against the problem of another.
///
/// # Errors
/// The fault of either text, or `NoMemory` if memory runs out; `WrongType` if the problem has no routing.
pub fn route_outcome<P: Source, S: Source>(
    alloc: Global,
    problem: &mut P,
    solution: &mut S,
) -> Result<RouteVerdict, Fault>
    ensures ends { FindsRouteOutcome P.Source S.Source (problem.old, solution.old) (problem.new, solution.new) result }
    ensures unread { IfErr result (BeforeSecond (IsUnread S.Source solution.old solution.new)) }
{
    match read_problem(alloc, problem) {
        Ok(problem) => route_outcome_of(alloc, &problem, solution),
        Err(fault) => Err(Fault::Problem(fault)),
    }
}

/// Checks the routes of one text against the problem of another, writes the verdict as one line, and returns it.
///
/// Both texts are read before a byte is written.
///
/// # Errors
/// The fault of either text or of a write, or `NoMemory` if memory runs out; `WrongType` if the problem has no routing.
pub fn route_check_engine<P: Source, S: Source, W: Sink>(
    alloc: Global,
    problem: &mut P,
    solution: &mut S,
    out: &mut W,
) -> Result<RouteVerdict, Fault>
    ensures ends { ChecksRoutes P.Source S.Source W.Sink (problem.old, solution.old, out.old)
        (problem.new, solution.new, out.new) result }
    ensures quiet { IfErr result (UnlessWrite (IsUnwritten W.Sink out.old out.new)) }
    ensures failed { IfErr result (AtWrite (IsBroken W.Sink out.new)) }
    ensures unread { IfErr result (BeforeSecond (IsUnread S.Source solution.old solution.new)) }
{
    let verdict = route_outcome(alloc, problem, solution)?;
    match write_route_verdict(out, verdict) {
        Ok(()) => Ok(verdict),
        Err(fault) => Err(Fault::Write(fault)),
    }
}
