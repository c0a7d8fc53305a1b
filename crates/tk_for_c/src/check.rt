//! Checks the tours and routes of texts in memory.
ghost use Rattle.std.specs.Prelude.{◌≡◌, ◌≤◌, IfOk, IfErr};
ghost use Rattle.tk_text.specs.Solution.{solution_texts};
ghost use Rattle.tk_text.specs.Tour.{tour_texts};
ghost use Rattle.tk_engines.specs.RouteCheck.{without_routing};
ghost use Rattle.tk_for_c.specs.Answers.{IsStop, NeverClashes, NoFault, fits_any};
ghost use Rattle.tk_for_c.specs.Checks.{IsCheckRefused, IsRouteCheckRefused};
ghost use Rattle.tk_for_c.specs.Outcomes.{with_status};
ghost use Rattle.tk_for_c.specs.Texts.{HasFault, IsCheckOf, IsCheckWritten, IsRouteCheckOf, IsRouteCheckWritten};
ghost use Rattle.tk_for_c.specs.Texts.{IsSomeText, route_status, tour_status};

use crate::answer::{Answer, stopped};
use crate::hand_out::hand_out;
use std::alloc::Global;
use tk_engines::{Fault, check_engine, route_check_engine};
use tk_routes::RouteVerdict;
use tk_text::{FromRead, ToWrite};
use tk_tour::Verdict;

/// The verdict on a tour, and the line that reports it.
fn checked(alloc: Global, problem: &[u8], tour: &[u8]) -> Result<(Verdict, Vec<u8>), Fault>
    ensures ok { IfOk result (λ r. IsCheckOf problem.now tour.now r.0 r.1.items) }
    ensures err { IfErr result (IsStop fits_any NeverClashes (λ _. HasFault tour_texts tour.now) NoFault problem.now) }
{
    let mut problem = FromRead::new(problem);
    let mut tour = FromRead::new(tour);
    let mut text = ToWrite::new(Vec::new(alloc));
    match check_engine(alloc, &mut problem, &mut tour, &mut text) {
        Ok(verdict) => Ok((verdict, text.inner)),
        Err(fault) => Err(fault),
    }
}

/// The verdict on routes, and the line that reports it.
fn routes_checked(
    alloc: Global,
    problem: &[u8],
    solution: &[u8],
) -> Result<(RouteVerdict, Vec<u8>), Fault>
    ensures ok { IfOk result (λ r. IsRouteCheckOf problem.now solution.now r.0 r.1.items) }
    ensures err { IfErr result
        (IsStop without_routing NeverClashes NoFault (λ _. HasFault solution_texts solution.now) problem.now) }
{
    let mut problem = FromRead::new(problem);
    let mut solution = FromRead::new(solution);
    let mut text = ToWrite::new(Vec::new(alloc));
    match route_check_engine(alloc, &mut problem, &mut solution, &mut text) {
        Ok(verdict) => Ok((verdict, text.inner)),
        Err(fault) => Err(fault),
    }
}

/// The status: 0 for a tour, 1 for a fault.
fn status_of(verdict: Verdict) -> u32
    ensures { result ≡ tour_status verdict }
{
    match verdict {
        Verdict::Tour => 0,
        _ => 1,
    }
}

/// The status: 0 for valid routes, 1 for a fault.
fn status_of_routes(verdict: RouteVerdict) -> u32
    ensures { result ≡ route_status verdict }
{
    match verdict {
        RouteVerdict::Valid { .. } => 0,
        _ => 1,
    }
}

/// Checks the tour of a text against a problem. `out` gets the verdict as a line; the status is 0 for a tour and 1 for
/// a fault. If a text is rejected, the status is 2, and `out` gets the message.
pub fn tourkit_check(alloc: Global, problem: &[u8], tour: &[u8], out: &mut [u8]) -> Answer
    ensures given { result.status ≤ 1 → IsCheckWritten problem.now tour.now out.old out.new result }
    ensures known { result.status ≤ 3 }
    ensures refused { result.status ≡ 2 → IsCheckRefused problem.now tour.now result }
    ensures memory { result.status ≡ 3 → result ≡ with_status 3 result.needed }
    ensures message { 2 ≤ result.status → IsSomeText out.old out.new result }
{
    match checked(alloc, problem, tour) {
        Ok((verdict, line)) => Answer::ended(status_of(verdict), hand_out(&line, out)),
        Err(fault) => stopped(alloc, 1, &fault, out),
    }
}

/// Checks the routes of a text against a CVRP. `out` gets the verdict as a line; the status is 0 for valid routes and 1
/// for a fault. If a text is rejected, or the problem is not a CVRP, the status is 2, and `out` gets the message.
pub fn tourkit_checksol(alloc: Global, problem: &[u8], solution: &[u8], out: &mut [u8]) -> Answer
    ensures given { result.status ≤ 1 → IsRouteCheckWritten problem.now solution.now out.old out.new result }
    ensures known { result.status ≤ 3 }
    ensures refused { result.status ≡ 2 → IsRouteCheckRefused problem.now solution.now result }
    ensures memory { result.status ≡ 3 → result ≡ with_status 3 result.needed }
    ensures message { 2 ≤ result.status → IsSomeText out.old out.new result }
{
    match routes_checked(alloc, problem, solution) {
        Ok((verdict, line)) => Answer::ended(status_of_routes(verdict), hand_out(&line, out)),
        Err(fault) => stopped(alloc, 1, &fault, out),
    }
}
