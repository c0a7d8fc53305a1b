//! The search for a tour or for routes.
ghost use Rattle.std.specs.Prelude.{◌≡◌, ◌≤◌, ◌∷◌, IfOk, IfErr, OnOk, MatchOption, None};
ghost use Rattle.std.specs.Prelude.{Option, is_some, length, option_map};
ghost use Rattle.tk_problem_text.specs.Problem.{ProblemIs};
ghost use Rattle.tk_problem_text.specs.ProblemOf.{problem_is};
ghost use Rattle.tk_params.specs.SearchOf.{search_is};
ghost use Rattle.tk_tour.specs.Tour.{IsTour};
ghost use Rattle.tk_routes.specs.Cvrps.{instance_of};
ghost use Rattle.tk_solve.specs.SolvedTours.{IsSolved, IsSound};
ghost use Rattle.tk_solve.specs.Events.{Begun};
ghost use Rattle.tk_solve.specs.Watching.{WereShown};
ghost use Rattle.tk_engines.specs.Engine.{BeforeSecond, Ends, HasRead, IsUnread, ReadsProblem, WritesNothing};
ghost use Rattle.tk_engines.specs.Solve.{AreRoutesFound, BeforeSearch, IsFound, IsInitial};
ghost use Rattle.tk_engines.specs.Solve.{IsInitialRefused, IsTourFound, ReadsInitial, cities_in, misfit_of};
ghost use Rattle.tk_engines.specs.Solve.{search_task, start_misfit, tour_task};
ghost use Rattle.tk_engines.specs.declared.fault.Fault.{Fault};
ghost use Rattle.tk_engines.specs.declared.fault.Fault.TheVariants.{NotForType};

use crate::engines::search_given::{
    check_initial, options_of, read_initial, unfit_key, unfit_start,
};
use crate::fault::Fault;
use std::alloc::{AllocError, Global};
use tk_distance::Table;
use tk_lists::TourText;
use tk_outcomes::{FoundRoutes, FoundTour, SearchOutcome};
use tk_params::{Key, Params, SearchSettings};
use tk_problem::Problem;
use tk_problem_text::read_problem;
use tk_routes::Cvrp;
use tk_solve::{RouteOptions, SolvedTour, Watch, solve_routes, solve_tour};
use tk_words::Source;

/// The best tour of a TSP. The observer is shown the name of the problem, and then the runs.
fn search_tour<V: Watch>(
    alloc: Global,
    settings: &SearchSettings,
    problem: &Problem,
    initial: &Option<TourText>,
    watch: &mut V,
) -> Result<SolvedTour, AllocError>
    requires { MatchOption (cities_in initial.now) (Unit {0}) (IsTour problem.now.n) }
    ensures solved { IfOk result (IsSolved
        (tour_task (search_is settings.now) (problem_is problem.now) (cities_in initial.now))
        (λ shown. WereShown V.shows watch.old watch.new (Begun (problem_is problem.now).name ∷ shown))) }
    ensures sound { IfOk result (IsSound
        (tour_task (search_is settings.now) (problem_is problem.now) (cities_in initial.now))) }
    ensures runs { IfOk result (λ s. length s.runs.items ≤ 10000) }
{
    let options = options_of(settings, problem, initial);
    watch.begin(&problem.name);
    solve_tour(alloc, &Table::of(problem), &options, watch)
}

/// Searches for a short tour of a TSP.
fn find_tour<V: Watch>(
    alloc: Global,
    settings: &SearchSettings,
    problem: &Problem,
    initial: &Option<TourText>,
    watch: &mut V,
) -> Result<FoundTour, AllocError>
    requires { MatchOption (cities_in initial.now) (Unit {0}) (IsTour problem.now.n) }
    ensures { IfOk result (IsTourFound (search_is settings.now) (WereShown V.shows watch.old watch.new)
        (problem_is problem.now) (cities_in initial.now)) }
{
    let mut name = Vec::new(alloc);
    name.extend_from_slice(&problem.name)?;
    let solved = search_tour(alloc, settings, problem, initial, watch)?;
    Ok(FoundTour { name, solved })
}

/// The options of a search for routes.
fn route_options(settings: &SearchSettings) -> RouteOptions
    ensures candidates { result.candidates ≡ settings.now.max_candidates }
    ensures segment { result.or_segment ≡ settings.now.or_segment }
{
    RouteOptions {
        candidates: settings.max_candidates,
        or_segment: settings.or_segment,
    }
}

/// Searches for short routes of a CVRP.
fn find_routes(
    alloc: Global,
    settings: &SearchSettings,
    cvrp: &Cvrp<'_>,
) -> Result<FoundRoutes, AllocError>
    ensures { IfOk result (AreRoutesFound (search_is settings.now) (instance_of cvrp.now)) }
{
    let (routes, report) = solve_routes(alloc, cvrp, route_options(settings))?;
    Ok(FoundRoutes {
        routes: routes.into_lists(),
        report,
    })
}

/// Searches for a tour or for routes.
fn find<V: Watch>(
    alloc: Global,
    settings: &SearchSettings,
    problem: &Problem,
    initial: &Option<TourText>,
    watch: &mut V,
) -> Result<SearchOutcome, AllocError>
    requires { MatchOption (cities_in initial.now) (Unit {0}) (IsTour problem.now.n) }
    ensures { IfOk result (IsFound (search_is settings.now) (WereShown V.shows watch.old watch.new)
        (problem_is problem.now) (cities_in initial.now)) }
{
    if let Some(cvrp) = Cvrp::of(problem) {
        return Ok(SearchOutcome::Routes(find_routes(alloc, settings, &cvrp)?));
    }
    Ok(SearchOutcome::Tour(find_tour(alloc, settings, problem, initial, watch)?))
}

/// Searches for a short tour of a TSP, or for short routes of a CVRP, like [`search_outcome`]: for a problem and an
/// initial tour, if there is one, that have been read.
///
/// # Errors
/// `Initial` if the initial tour is not a tour of the problem's cities, or `NoMemory` if memory runs out.
pub fn search_problem<V: Watch>(
    alloc: Global,
    settings: &SearchSettings,
    problem: &Problem,
    initial: &Option<TourText>,
    watch: &mut V,
) -> Result<SearchOutcome, Fault>
    ensures together { OnOk result (IsInitial (problem_is problem.now) (cities_in initial.now) None) }
    ensures found { IfOk result (IsFound (search_is settings.now) (WereShown V.shows watch.old watch.new)
        (problem_is problem.now) (cities_in initial.now)) }
    ensures err { IfErr result (IsInitialRefused (problem_is problem.now) (cities_in initial.now)) }
    ensures unwatched { IfErr result (BeforeSearch (watch.new ≡ watch.old)) }
{
    check_initial(alloc, problem, initial)?;
    match find(alloc, settings, problem, initial, watch) {
        Ok(outcome) => Ok(outcome),
        Err(_) => Err(Fault::NoMemory),
    }
}

/// Like [`search_problem`], for an initial tour that is read if it is given, unless a key does not apply.
fn search_from<I: Source, V: Watch>(
    alloc: Global,
    settings: &SearchSettings,
    unfit: Option<Key>,
    given: bool,
    problem: &Problem,
    initial: &mut I,
    watch: &mut V,
) -> Result<SearchOutcome, Fault>
    ensures ends { (misfit : ProblemIs → Option Fault) → misfit (problem_is problem.now) ≡ option_map NotForType unfit
        → Ends (search_task misfit (search_is settings.now) (WereShown V.shows watch.old watch.new))
        (HasRead (problem_is problem.now)) (ReadsInitial given I.Source initial.old initial.new) WritesNothing result }
    ensures unread { IfErr result (BeforeSecond (IsUnread I.Source initial.old initial.new)) }
    ensures unwatched { IfErr result (BeforeSearch (watch.new ≡ watch.old)) }
{
    if let Some(key) = unfit {
        return Err(Fault::NotForType(key));
    }
    let tour = read_initial(alloc, given, initial)?;
    search_problem(alloc, settings, problem, &tour, watch)
}

/// Runs the search that parameters specify: for a short tour of a TSP, or for short routes of a CVRP.
///
/// `initial` is read if the parameters name an INITIAL_TOUR_FILE. In a search for a tour, `watch` is shown the name of
/// the problem, then each trial with the best tour of its run up to then, and each run after its last trial. All this
/// is shown in order, and nothing else is. Between trials and between runs, `watch` can end the search. In a search for
/// routes, `watch` is shown nothing.
///
/// # Errors
/// The fault of the problem text; `NotForType` for a key that does not apply to the problem's type; the fault of the
/// text of the initial tour, or `Initial` if it is not a tour of the problem's cities; or `NoMemory` if memory runs
/// out.
pub fn search_outcome<P: Source, I: Source, V: Watch>(
    alloc: Global,
    params: &Params,
    problem: &mut P,
    initial: &mut I,
    watch: &mut V,
) -> Result<SearchOutcome, Fault>
    ensures ends { Ends (search_task (misfit_of params.now) params.now.search (WereShown V.shows watch.old watch.new))
        (ReadsProblem P.Source problem.old problem.new)
        (ReadsInitial (is_some params.now.initial_tour_file) I.Source initial.old initial.new) WritesNothing result }
    ensures unread { IfErr result (BeforeSecond (IsUnread I.Source initial.old initial.new)) }
    ensures unwatched { IfErr result (BeforeSearch (watch.new ≡ watch.old)) }
{
    let settings = params.search();
    let given = params.initial_tour_file().is_some();
    match read_problem(alloc, problem) {
        Ok(problem) => {
            let unfit = unfit_key(params, &problem);
            search_from(alloc, &settings, unfit, given, &problem, initial, watch)
        }
        Err(fault) => Err(Fault::Problem(fault)),
    }
}

/// Like [`search_outcome`], for settings. `initial` is read if a tour is given.
pub(crate) fn settings_outcome<P: Source, I: Source, V: Watch>(
    alloc: Global,
    settings: &SearchSettings,
    given: bool,
    problem: &mut P,
    initial: &mut I,
    watch: &mut V,
) -> Result<SearchOutcome, Fault>
    ensures ends { Ends
        (search_task (start_misfit given) (search_is settings.now) (WereShown V.shows watch.old watch.new))
        (ReadsProblem P.Source problem.old problem.new) (ReadsInitial given I.Source initial.old initial.new)
        WritesNothing result }
    ensures unread { IfErr result (BeforeSecond (IsUnread I.Source initial.old initial.new)) }
    ensures unwatched { IfErr result (BeforeSearch (watch.new ≡ watch.old)) }
{
    match read_problem(alloc, problem) {
        Ok(problem) => {
            let unfit = unfit_start(given, &problem);
            search_from(alloc, settings, unfit, given, &problem, initial, watch)
        }
        Err(fault) => Err(Fault::Problem(fault)),
    }
}
