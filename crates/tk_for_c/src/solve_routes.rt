//! Searches between the routes of a CVRP, for texts in memory.
ghost use Rattle.std.specs.Prelude.{◌≡◌, ◌≤◌, IfErr, IfOk};
ghost use Rattle.tk_params.specs.SearchOf.{search_is};
ghost use Rattle.tk_for_c.specs.Outcomes.{with_status};
ghost use Rattle.tk_for_c.specs.Searches.{HoldFiles, IsInRange};
ghost use Rattle.tk_for_c.specs.SolvedRoutes.{AreSolvedBy, AreSolvedOf, IsBetweenStop, IsRoutesRefused, as_search};
ghost use Rattle.tk_for_c.specs.Texts.{IsSomeText};

use crate::answer::{Answer, REFUSED};
use crate::hand_out::hand_out;
use crate::search::{SearchOptions, settings_of};
use crate::searches::answer_of;
use std::alloc::Global;
use tk_engines::{Fault, SearchSettings, between_engine};
use tk_route_search::NoObserver;
use tk_text::{FromRead, ToWrite};

/// The options of a search between routes.
#[derive(Clone, Copy)]
#[repr(C)]
pub struct RouteOptions {
    /// The number of runs, 1 to 10,000.
    pub runs: u32,
    /// The number of trials per run, 1 to 1,000,000; 0 for ten for each node.
    pub trials: u32,
    /// The seed of the random numbers.
    pub seed: u32,
    /// Maximum length of the near lists, 1 to 100.
    pub candidates: u32,
    /// Maximum number of customers in a segment that is moved, 1 to 3.
    pub or_segment: u32,
    /// Whether each descent is swept.
    pub final_sweep: bool,
    /// Whether each run begins with the routes of the initial solution; otherwise with savings routes.
    pub from_solution: bool,
}

/// The same options of a search for a tour.
fn as_search(options: &RouteOptions) -> SearchOptions
    ensures { result ≡ as_search options.now }
{
    SearchOptions {
        runs: options.runs,
        trials: options.trials,
        seed: options.seed,
        candidates: options.candidates,
        or_segment: options.or_segment,
        final_sweep: options.final_sweep,
        savings: false,
        from_tour: options.from_solution,
    }
}

/// The text of the solution, and the lines that the program prints.
fn solved(
    alloc: Global,
    settings: &SearchSettings,
    from_solution: bool,
    problem: &[u8],
    initial: &[u8],
) -> Result<(Vec<u8>, Vec<u8>), Fault>
    ensures ok { IfOk result (λ r. AreSolvedBy (search_is settings.now) from_solution problem.now initial.now
        (record { file = r.0.items; out = r.1.items })) }
    ensures err { IfErr result (IsBetweenStop from_solution problem.now initial.now) }
{
    let mut problem = FromRead::new(problem);
    let mut initial = FromRead::new(initial);
    let mut file = ToWrite::new(Vec::new(alloc));
    let mut out = ToWrite::new(Vec::new(alloc));
    let mut watch = NoObserver;
    match between_engine(
        alloc,
        settings,
        from_solution,
        &mut problem,
        &mut initial,
        &mut file,
        &mut out,
        &mut watch,
    ) {
        Ok(()) => Ok((file.inner, out.inner)),
        Err(fault) => Err(fault),
    }
}

/// Searches between the routes of a CVRP. `file` gets the text of the solution, and `out` the lines that the program
/// prints. `initial` is a solution, which is read if each run begins with its routes. If a number of the options is out
/// of range, the status is 2 without a message. If a text is rejected, or the problem is not a CVRP, or the initial
/// solution is not valid, `out` gets the message.
pub fn tourkit_solve_routes(
    alloc: Global,
    problem: &[u8],
    initial: &[u8],
    options: &RouteOptions,
    out: &mut [u8],
    file: &mut [u8],
) -> Answer
    ensures given { result.status ≤ 1
        → HoldFiles (AreSolvedOf options.now problem.now initial.now) out.old out.new file.old file.new result }
    ensures known { result.status ≤ 3 }
    ensures refused { result.status ≡ 2 → IsInRange (as_search options.now)
        → IsRoutesRefused options.now problem.now initial.now result }
    ensures outside { (IsInRange (as_search options.now) → ⊥) → result ≡ with_status 2 0 }
    ensures memory { result.status ≡ 3 → result ≡ with_status 3 result.needed }
    ensures message { 2 ≤ result.status → IsSomeText out.old out.new result }
    ensures kept { 2 ≤ result.status → file.new ≡ file.old }
{
    let Some(settings) = settings_of(&as_search(options)) else {
        return Answer::ended(REFUSED, hand_out(b"", out));
    };
    let solved = solved(alloc, &settings, options.from_solution, problem, initial);
    answer_of(alloc, 1, solved, out, file)
}
