//! The input of a search between the routes of a CVRP: the initial solution, and the options of the search.
ghost use Rattle.std.specs.Prelude.{◌≡◌, ◌≤◌, ◌*◌, IfErr, IfOk, MatchOption, None, Ok, Err, OnOk, Some, unwrap_or};
ghost use Rattle.tk_lists.specs.Solution.{as_solution};
ghost use Rattle.tk_params.specs.SearchOf.{search_is};
ghost use Rattle.tk_routes.specs.Cvrps.{instance_of};
ghost use Rattle.tk_route_search.specs.Tasks.{task_of};
ghost use Rattle.tk_engines.specs.Between.{AreGivenRoutes, IsStartFault, IsStartRefused, ReadsStart, route_fault};
ghost use Rattle.tk_engines.specs.Between.{route_task, solution_in};

use crate::fault::Fault;
use crate::route_fault::RouteFault;
use std::alloc::Global;
use tk_lists::{SolText, read_solution};
use tk_params::SearchSettings;
use tk_route_search::{RouteStart, SearchOptions};
use tk_routes::{Cvrp, RouteVerdict, check_routes};
use tk_words::Source;

/// The initial solution, if the runs begin with one; otherwise its source is not read.
pub(crate) fn read_start<I: Source>(
    alloc: Global,
    given: bool,
    initial: &mut I,
) -> Result<Option<SolText>, Fault>
    ensures ok { IfOk result (λ start. ReadsStart given I.Source initial.old initial.new (Ok (solution_in start))) }
    ensures err { IfErr result (λ f. ReadsStart given I.Source initial.old initial.new (Err f)) }
{
    if !given {
        return Ok(None);
    }
    match read_solution(alloc, initial) {
        Ok(solution) => Ok(Some(solution)),
        Err(fault) => Err(Fault::Solution(fault)),
    }
}

/// The fault that a verdict reports; `None` if the routes are valid.
fn fault_of(verdict: RouteVerdict) -> Option<RouteFault>
    ensures { result ≡ route_fault verdict }
{
    match verdict {
        RouteVerdict::Valid { .. } => None,
        RouteVerdict::BadCustomer(route, number) => Some(RouteFault::BadCustomer(route, number)),
        RouteVerdict::ServedTwice(customer) => Some(RouteFault::ServedTwice(customer)),
        RouteVerdict::OverCapacity(route, load) => Some(RouteFault::OverCapacity(route, load)),
        RouteVerdict::NotServed(customer) => Some(RouteFault::NotServed(customer)),
        RouteVerdict::WrongCost(read, counted) => Some(RouteFault::WrongCost(read, counted)),
    }
}

/// Checks that the routes of a solution are valid, and have the cost that it states.
fn check_solution(alloc: Global, cvrp: &Cvrp<'_>, solution: &SolText) -> Result<(), Fault>
    ensures ok { OnOk result (AreGivenRoutes (instance_of cvrp.now) (as_solution solution.now)) }
    ensures is { OnOk result (IsStartFault (instance_of cvrp.now) (Some (as_solution solution.now)) None) }
    ensures err { IfErr result (IsStartRefused (instance_of cvrp.now) (Some (as_solution solution.now))) }
{
    let Ok(verdict) = check_routes(alloc, cvrp, solution) else {
        return Err(Fault::NoMemory);
    };
    match fault_of(verdict) {
        Some(fault) => Err(Fault::InitialRoutes(fault)),
        None => Ok(()),
    }
}

/// Like `check_solution`, for an initial solution that might be missing.
pub(crate) fn check_start(
    alloc: Global,
    cvrp: &Cvrp<'_>,
    initial: &Option<SolText>,
) -> Result<(), Fault>
    ensures ok { OnOk result
        (MatchOption (solution_in initial.now) (Unit {0}) (AreGivenRoutes (instance_of cvrp.now))) }
    ensures is { OnOk result (IsStartFault (instance_of cvrp.now) (solution_in initial.now) None) }
    ensures err { IfErr result (IsStartRefused (instance_of cvrp.now) (solution_in initial.now)) }
{
    match initial {
        Some(solution) => check_solution(alloc, cvrp, solution),
        None => Ok(()),
    }
}

/// The number of trials for each node, unless the settings state the number of trials.
const TRIALS_PER_NODE: u32 = 10;

/// The number of trials per run.
fn trials_of(settings: &SearchSettings, cvrp: &Cvrp<'_>) -> u32
    ensures value { result ≡ unwrap_or settings.now.max_trials (10 * (instance_of cvrp.now).size) }
    ensures some { (1 ≤ result) × (result ≤ 1000000) }
{
    let nodes = cvrp.customers() + 1;
    settings.max_trials.unwrap_or(TRIALS_PER_NODE * nodes)
}

/// The options of the search for routes of a CVRP.
pub(crate) fn search_options<'a>(
    settings: &SearchSettings,
    cvrp: &Cvrp<'_>,
    initial: &'a Option<SolText>,
) -> SearchOptions<'a>
    ensures { task_of cvrp.now result
        ≡ route_task (search_is settings.now) (instance_of cvrp.now) (solution_in initial.now) }
{
    let start = match initial {
        Some(solution) => RouteStart::Routes(&solution.routes),
        None => RouteStart::Ladder,
    };
    SearchOptions {
        start,
        runs: settings.runs,
        trials: trials_of(settings, cvrp),
        seed: settings.seed,
        candidates: settings.max_candidates,
        or_segment: settings.or_segment,
        final_sweep: settings.final_sweep,
    }
}
