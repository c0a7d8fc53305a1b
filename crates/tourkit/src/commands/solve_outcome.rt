//! The search of `solve`, by the type of its problem.
use crate::watching::SearchWatch;
use std::alloc::Global;
use tk_command_line::SearchOptions;
use tk_console::input::Input;
use tk_console::named::Named;
use tk_console::search::{Requester, Search};
use tk_engines::{Fault, SearchOutcome, search_between, search_problem, unfit_key};
use tk_lists::{read_solution, read_tour};
use tk_params::SearchSettings;
use tk_problem::Problem;
use tk_problem_text::read_problem;
use tk_words::FromRead;

/// The default length of the near lists of a search between routes.
const CANDIDATES: u32 = 12;

/// The default number of runs of a search between routes.
const RUNS: u32 = 1;

/// Why a search stopped before it wrote anything.
pub enum Stop {
    /// A fault of an engine.
    Fault(Fault),
    /// This key or option does not apply to the type of the problem.
    NotForType(Named),
}

/// The outcome of a search. Each run begins with the initial tour or solution, if there is one.
///
/// # Errors
/// Why the search stopped.
pub fn outcome_of(
    alloc: Global,
    search: &Search<'_, '_>,
    problem: Input,
    initial: Option<Input>,
    watch: &mut SearchWatch<'_>,
) -> Result<SearchOutcome, Stop> {
    let problem = match read_problem(alloc, &mut FromRead::new(problem)) {
        Ok(problem) => problem,
        Err(fault) => return Err(Stop::Fault(Fault::Problem(fault))),
    };
    outcome_for(alloc, search, &problem, initial, watch)
}

/// The outcome of a search whose problem has been read.
fn outcome_for(
    alloc: Global,
    search: &Search<'_, '_>,
    problem: &Problem,
    initial: Option<Input>,
    watch: &mut SearchWatch<'_>,
) -> Result<SearchOutcome, Stop> {
    let outcome = match task_of(search, problem)? {
        Task::Between(settings) => between_routes(alloc, &settings, problem, initial, watch),
        Task::Other(settings) => other_search(alloc, &settings, problem, initial, watch),
    };
    outcome.map_err(Stop::Fault)
}

/// What is searched for, and the settings of the search.
#[derive(Clone, Copy)]
enum Task {
    /// Routes, by a search between the routes of a CVRP.
    Between(SearchSettings),
    /// A tour, or routes that are improved each by itself.
    Other(SearchSettings),
}

/// What a search is for, by the type of its problem.
///
/// # Errors
/// The first key or option that does not apply to this type.
fn task_of(search: &Search<'_, '_>, problem: &Problem) -> Result<Task, Stop> {
    match search.requester {
        Requester::Keys(params) => match unfit_key(params, problem) {
            Some(key) => Err(Stop::NotForType(Named::Key(key))),
            None => Ok(Task::Other(params.search())),
        },
        Requester::Options(options, settings) => {
            let routing = problem.routing.is_some();
            if let Some(option) = unfit(options, routing) {
                return Err(Stop::NotForType(option));
            }
            if routing && !options.within_routes {
                return Ok(Task::Between(between_settings(settings, options)));
            }
            Ok(Task::Other(settings))
        }
    }
}

/// The outcome of any other search than one between routes.
fn other_search(
    alloc: Global,
    settings: &SearchSettings,
    problem: &Problem,
    initial: Option<Input>,
    watch: &mut SearchWatch<'_>,
) -> Result<SearchOutcome, Fault> {
    let initial = match initial {
        Some(tour) => Some(read_tour(alloc, &mut FromRead::new(tour)).map_err(Fault::Tour)?),
        None => None,
    };
    search_problem(alloc, settings, problem, &initial, watch)
}

/// The outcome of a search between routes.
fn between_routes(
    alloc: Global,
    settings: &SearchSettings,
    problem: &Problem,
    initial: Option<Input>,
    watch: &mut SearchWatch<'_>,
) -> Result<SearchOutcome, Fault> {
    let initial = match initial {
        Some(routes) => {
            Some(read_solution(alloc, &mut FromRead::new(routes)).map_err(Fault::Solution)?)
        }
        None => None,
    };
    search_between(alloc, settings, problem, &initial, watch)
}

/// The first option that does not apply to a problem with routing, or to one without.
fn unfit(options: &SearchOptions<'_>, routing: bool) -> Option<Named> {
    let given = [
        (Named::InitialTour, false, options.initial_tour.is_some()),
        (Named::Construction, false, options.construction.is_some()),
        (
            Named::InitialSolution,
            true,
            options.initial_solution.is_some(),
        ),
        (Named::Vehicles, true, options.vehicles.is_some()),
        (Named::WithinRoutes, true, options.within_routes),
    ];
    for (option, for_routing, is_given) in &given {
        if *is_given && *for_routing != routing {
            return Some(*option);
        }
    }
    None
}

/// The settings of a search between routes: the values that were given, and the defaults of this search.
fn between_settings(settings: SearchSettings, options: &SearchOptions<'_>) -> SearchSettings {
    let mut settings = settings;
    if options.runs.is_none() {
        settings.runs = RUNS;
    }
    if options.candidates.is_none() {
        settings.max_candidates = CANDIDATES;
    }
    settings
}
