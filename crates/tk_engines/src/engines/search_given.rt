//! The input of a search: a test that its keys apply to the problem, the initial tour, and the options of the search.
ghost use Rattle.std.specs.Prelude.{◌≡◌, IfOk, IfErr, OnOk, Ok, Err, Some, None, MatchOption};
ghost use Rattle.std.specs.Prelude.{option_map};
ghost use Rattle.tk_problem_text.specs.ProblemOf.{problem_is, weights_are};
ghost use Rattle.tk_tour.specs.Tour.{IsTour};
ghost use Rattle.tk_params.specs.SearchOf.{search_is};
ghost use Rattle.tk_solve.specs.Starts.{task_over};
ghost use Rattle.tk_engines.specs.ReadProblems.{read_distance};
ghost use Rattle.tk_engines.specs.Solve.{IsInitial, IsInitialRefused, ReadsInitial, cities_in, start_misfit};
ghost use Rattle.tk_engines.specs.Solve.{tour_task, unfit_key};
ghost use Rattle.tk_engines.specs.declared.fault.Fault.TheVariants.{NotForType};

use crate::fault::Fault;
use std::alloc::Global;
use tk_lists::{TourText, read_tour};
use tk_params::{Construction, Key, Params, SearchSettings};
use tk_problem::Problem;
use tk_search::SearchRules;
use tk_solve::{Start, TourOptions};
use tk_tour::{TourFault, Verdict, check};
use tk_words::Source;

/// The first key that does not apply to a problem of this type, if there is one.
pub fn unfit_key(params: &Params, problem: &Problem) -> Option<Key>
    ensures { result ≡ unfit_key params.now (problem_is problem.now) }
{
    if problem.routing.is_none() {
        if params.solution_file().is_some() {
            return Some(Key::SolutionFile);
        }
        return None;
    }
    if params.tour_file().is_some() {
        return Some(Key::TourFile);
    }
    if params.initial_tour_file().is_some() {
        return Some(Key::InitialTourFile);
    }
    None
}

/// The key of an initial tour, if one is given for a CVRP.
pub(crate) fn unfit_start(given: bool, problem: &Problem) -> Option<Key>
    ensures { option_map NotForType result ≡ start_misfit given (problem_is problem.now) }
{
    if given && problem.routing.is_some() {
        return Some(Key::InitialTourFile);
    }
    None
}

/// The initial tour, if one is given; otherwise its source is not read.
pub(crate) fn read_initial<I: Source>(
    alloc: Global,
    given: bool,
    initial: &mut I,
) -> Result<Option<TourText>, Fault>
    ensures ok { IfOk result (λ tour. ReadsInitial given I.Source initial.old initial.new (Ok (cities_in tour))) }
    ensures err { IfErr result (λ f. ReadsInitial given I.Source initial.old initial.new (Err f)) }
{
    if !given {
        return Ok(None);
    }
    match read_tour(alloc, initial) {
        Ok(tour) => Ok(Some(tour)),
        Err(fault) => Err(Fault::Tour(fault)),
    }
}

/// Checks that the initial tour is a tour of the problem's cities.
fn check_cities(alloc: Global, problem: &Problem, cities: &[u32]) -> Result<(), Fault>
    ensures ok { OnOk result (IsTour problem.now.n cities.now) }
    ensures is { OnOk result (IsInitial (problem_is problem.now) (Some cities.now) None) }
    ensures err { IfErr result (IsInitialRefused (problem_is problem.now) (Some cities.now)) }
{
    match check(alloc, problem.n, cities) {
        Ok(Verdict::Tour) => Ok(()),
        Ok(Verdict::WrongCount) => Err(Fault::Initial(TourFault::WrongCount)),
        Ok(Verdict::OutOfRange(place)) => Err(Fault::Initial(TourFault::OutOfRange(place))),
        Ok(Verdict::RepeatedCity(place)) => Err(Fault::Initial(TourFault::RepeatedCity(place))),
        Err(_) => Err(Fault::NoMemory),
    }
}

/// Like `check_cities`, for an initial tour that might be missing.
pub(crate) fn check_initial(
    alloc: Global,
    problem: &Problem,
    initial: &Option<TourText>,
) -> Result<(), Fault>
    ensures ok { OnOk result (MatchOption (cities_in initial.now) (Unit {0}) (IsTour problem.now.n)) }
    ensures is { OnOk result (IsInitial (problem_is problem.now) (cities_in initial.now) None) }
    ensures err { IfErr result (IsInitialRefused (problem_is problem.now) (cities_in initial.now)) }
{
    match initial {
        Some(tour) => check_cities(alloc, problem, &tour.cities),
        None => Ok(()),
    }
}

/// The options of a search for a tour of the problem's cities.
pub(crate) fn options_of<'a>(
    settings: &SearchSettings,
    problem: &Problem,
    initial: &'a Option<TourText>,
) -> TourOptions<'a>
    ensures { task_over problem.now.n (read_distance (weights_are problem.now.weights)) result
        ≡ tour_task (search_is settings.now) (problem_is problem.now) (cities_in initial.now) }
{
    let start = match (initial, settings.construction) {
        (Some(tour), _) => Start::Tour(&tour.cities),
        (None, Construction::Nearest) => Start::Nearest,
        (None, Construction::Savings) => Start::Savings,
    };
    TourOptions {
        start,
        runs: settings.runs,
        trials: settings.max_trials.unwrap_or(problem.n),
        seed: settings.seed,
        candidates: settings.max_candidates,
        rules: SearchRules {
            sweep: settings.final_sweep,
            or_segment: settings.or_segment,
        },
    }
}
