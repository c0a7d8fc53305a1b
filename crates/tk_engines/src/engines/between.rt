//! The search between the routes of a CVRP, and its output.
ghost use Rattle.std.specs.Prelude.{◌≡◌, ◌⊎◌, IfErr, IfOk, MatchOption};
ghost use Rattle.tk_params.specs.SearchOf.{search_is};
ghost use Rattle.tk_problem_text.specs.ProblemOf.{problem_is};
ghost use Rattle.tk_writers.specs.Sinks.{IsBroken};
ghost use Rattle.tk_routes.specs.Cvrps.{instance_of};
ghost use Rattle.tk_route_search.specs.Watching.{WereShown};
ghost use Rattle.tk_engines.specs.Between.{AreFound, AreGivenRoutes, ReadsStart, between_files_task, between_task};
ghost use Rattle.tk_engines.specs.Between.{solution_in};
ghost use Rattle.tk_engines.specs.Engine.{AtWrite, BeforeSecond, Ends, HasRead, IsUnread, ReadsProblem, UnlessWrite};
ghost use Rattle.tk_engines.specs.Engine.{WritesNothing};
ghost use Rattle.tk_engines.specs.Solve.{AreUntouched, BeforeSearch, WritesFiles};

use crate::engines::between_given::{check_start, read_start, search_options};
use crate::engines::solve::write_files;
use crate::fault::{Fault, end_of};
use std::alloc::{AllocError, Global};
use tk_lists::SolText;
use tk_outcomes::{FoundBetween, SearchOutcome};
use tk_params::SearchSettings;
use tk_problem::Problem;
use tk_problem_text::read_problem;
use tk_route_search::{RouteWatch, SolvedRoutes, search_routes};
use tk_routes::Cvrp;
use tk_words::Source;
use tk_writers::Sink;

/// The best routes of a CVRP. The observer is shown the name of the problem, and then the runs.
fn find_routes<V: RouteWatch>(
    alloc: Global,
    settings: &SearchSettings,
    name: &[u8],
    cvrp: &Cvrp<'_>,
    initial: &Option<SolText>,
    watch: &mut V,
) -> Result<SolvedRoutes, AllocError>
    requires { MatchOption (solution_in initial.now) (Unit {0}) (AreGivenRoutes (instance_of cvrp.now)) }
    ensures { IfOk result (AreFound (search_is settings.now) (WereShown V.shows watch.old watch.new) name.now
        (instance_of cvrp.now) (solution_in initial.now)) }
{
    let options = search_options(settings, cvrp, initial);
    watch.begin(name);
    search_routes(alloc, cvrp, &options, watch)
}

/// Searches between the routes of a CVRP.
fn find_between<V: RouteWatch>(
    alloc: Global,
    settings: &SearchSettings,
    name: &[u8],
    cvrp: &Cvrp<'_>,
    initial: &Option<SolText>,
    watch: &mut V,
) -> Result<FoundBetween, AllocError>
    requires { MatchOption (solution_in initial.now) (Unit {0}) (AreGivenRoutes (instance_of cvrp.now)) }
    ensures { IfOk result (λ f. AreFound (search_is settings.now) (WereShown V.shows watch.old watch.new) name.now
        (instance_of cvrp.now) (solution_in initial.now) f.solved) }
{
    let solved = find_routes(alloc, settings, name, cvrp, initial, watch)?;
    Ok(FoundBetween { solved })
}

/// Searches between the routes of a CVRP, like [`between_outcome`]: for a problem and an initial solution, if there is
/// one, that have been read.
///
/// # Errors
/// As for `between_outcome`, without those of texts.
pub fn search_between<V: RouteWatch>(
    alloc: Global,
    settings: &SearchSettings,
    problem: &Problem,
    initial: &Option<SolText>,
    watch: &mut V,
) -> Result<SearchOutcome, Fault>
    ensures ends { Ends (between_task (search_is settings.now) (WereShown V.shows watch.old watch.new))
        (HasRead (problem_is problem.now)) (HasRead (solution_in initial.now)) WritesNothing result }
    ensures unwatched { IfErr result (BeforeSearch (watch.new ≡ watch.old)) }
{
    let Some(cvrp) = Cvrp::of(problem) else {
        return Err(Fault::WrongType);
    };
    check_start(alloc, &cvrp, initial)?;
    match find_between(alloc, settings, &problem.name, &cvrp, initial, watch) {
        Ok(found) => Ok(SearchOutcome::Between(found)),
        Err(_) => Err(Fault::NoMemory),
    }
}

/// Like [`search_between`], for an initial solution that is read if it is given.
fn search_from<I: Source, V: RouteWatch>(
    alloc: Global,
    settings: &SearchSettings,
    given: bool,
    problem: &Problem,
    initial: &mut I,
    watch: &mut V,
) -> Result<SearchOutcome, Fault>
    ensures ends { Ends (between_task (search_is settings.now) (WereShown V.shows watch.old watch.new))
        (HasRead (problem_is problem.now)) (ReadsStart given I.Source initial.old initial.new) WritesNothing result }
    ensures unread { IfErr result (BeforeSecond (IsUnread I.Source initial.old initial.new)) }
    ensures unwatched { IfErr result (BeforeSearch (watch.new ≡ watch.old)) }
{
    if problem.routing.is_none() {
        return Err(Fault::WrongType);
    }
    let start = read_start(alloc, given, initial)?;
    search_between(alloc, settings, problem, &start, watch)
}

/// Searches between the routes of a CVRP: `runs` runs of a first descent and kicked trials each, whose moves may change
/// several routes at a time.
///
/// `initial` is read if `from_solution`; otherwise each run begins with savings routes. `watch` is shown the name of
/// the problem, then the first descent of each run and each trial, with the best routes of its run if it found them,
/// and each run after its last trial. All this is shown in order, and nothing else is. Before each trial and between
/// runs, `watch` can end the search.
///
/// # Errors
/// The fault of the problem text; `WrongType` if the problem has no routing; the fault of the text of the initial
/// solution, or `InitialRoutes` if its routes are not valid or have another cost than it states; or `NoMemory` if
/// memory runs out.
pub fn between_outcome<P: Source, I: Source, V: RouteWatch>(
    alloc: Global,
    settings: &SearchSettings,
    from_solution: bool,
    problem: &mut P,
    initial: &mut I,
    watch: &mut V,
) -> Result<SearchOutcome, Fault>
    ensures ends { Ends (between_task (search_is settings.now) (WereShown V.shows watch.old watch.new))
        (ReadsProblem P.Source problem.old problem.new)
        (ReadsStart from_solution I.Source initial.old initial.new) WritesNothing result }
    ensures unread { IfErr result (BeforeSecond (IsUnread I.Source initial.old initial.new)) }
    ensures unwatched { IfErr result (BeforeSearch (watch.new ≡ watch.old)) }
{
    match read_problem(alloc, problem) {
        Ok(problem) => search_from(alloc, settings, from_solution, &problem, initial, watch),
        Err(fault) => Err(Fault::Problem(fault)),
    }
}

/// Searches between the routes of a CVRP, like [`between_outcome`]. `file` gets the text of the solution. Then `out`
/// gets a line about the routes that the runs begin with, a line for each run, and the best cost.
///
/// All texts are read before a byte is written.
///
/// # Errors
/// As for `between_outcome`, or the fault of a write.
pub fn between_engine<P: Source, I: Source, F: Sink, W: Sink, V: RouteWatch>(
    alloc: Global,
    settings: &SearchSettings,
    from_solution: bool,
    problem: &mut P,
    initial: &mut I,
    file: &mut F,
    out: &mut W,
    watch: &mut V,
) -> Result<(), Fault>
    ensures ends { Ends (between_files_task (search_is settings.now) (WereShown V.shows watch.old watch.new))
        (ReadsProblem P.Source problem.old problem.new) (ReadsStart from_solution I.Source initial.old initial.new)
        (WritesFiles F.Sink W.Sink file.old file.new out.old out.new) result }
    ensures quiet { IfErr result (UnlessWrite (AreUntouched F.Sink W.Sink file.old file.new out.old out.new)) }
    ensures failed { IfErr result (AtWrite (IsBroken F.Sink file.new ⊎ IsBroken W.Sink out.new)) }
    ensures unread { IfErr result (BeforeSecond (IsUnread I.Source initial.old initial.new)) }
    ensures unwatched { IfErr result (BeforeSearch (watch.new ≡ watch.old)) }
{
    let outcome = between_outcome(alloc, settings, from_solution, problem, initial, watch)?;
    end_of(write_files(file, out, &[], &outcome))
}
