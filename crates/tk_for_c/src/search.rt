//! Searches with options instead of a parameter file, for texts in memory.
ghost use Rattle.std.specs.Prelude.{◌≡◌, ◌≤◌, ◌==◌, if◌then◌else◌, None, Some, IfErr, IfNone, IfOk, IfSome};
ghost use Rattle.tk_engines.specs.Solve.{settings_task, start_misfit};
ghost use Rattle.tk_params.specs.Requested.{IsInLimits};
ghost use Rattle.tk_params.specs.SearchOf.{search_is};
ghost use Rattle.tk_for_c.specs.Outcomes.{with_status};
ghost use Rattle.tk_for_c.specs.Searches.{HoldFiles, IsInRange, settings_of};
ghost use Rattle.tk_for_c.specs.Solved.{IsOptionsRefused, IsSearchedOf, IsSolveStop, IsSolvedBy};
ghost use Rattle.tk_for_c.specs.Texts.{IsSomeText};

use crate::answer::{Answer, REFUSED};
use crate::hand_out::hand_out;
use crate::searches::answer_of;
use std::alloc::Global;
use tk_engines::{Construction, Fault, NoObserver, SearchSettings, search_engine};
use tk_text::{CANDIDATE_LIMIT, FromRead, ToWrite};

/// The options of a search for a tour, or for routes that are improved each by itself.
#[derive(Clone, Copy)]
#[repr(C)]
pub struct SearchOptions {
    /// The number of runs, 1 to 10,000.
    pub runs: u32,
    /// The number of trials per run, 1 to 1,000,000; 0 for the number of cities.
    pub trials: u32,
    /// The seed of the random numbers.
    pub seed: u32,
    /// Maximum length of the near lists, 1 to 100.
    pub candidates: u32,
    /// Maximum number of cities in a segment that is moved, 1 to 3.
    pub or_segment: u32,
    /// Whether each trial continues until no city has an improving move.
    pub final_sweep: bool,
    /// Whether starting tours are constructed by the savings algorithm; otherwise by nearest neighbours.
    pub savings: bool,
    /// Whether each run starts from the initial tour; otherwise from a constructed tour.
    pub from_tour: bool,
}

/// The number of trials per run; `None` for the default.
fn trials_of(trials: u32) -> Option<u32>
    requires { trials ≤ 1000000 }
    ensures is { result ≡ (if trials == 0 then None else Some trials) }
    ensures limits { IfSome result (IsInLimits 1 1000000) }
{
    if trials == 0 { None } else { Some(trials) }
}

/// The settings that options specify; `None` if a number is out of range.
pub(crate) fn settings_of(options: &SearchOptions) -> Option<SearchSettings>
    ensures some { IfSome result (λ s. search_is s ≡ settings_of options.now) }
    ensures fits { IfSome result (λ _. IsInRange options.now) }
    ensures none { IfNone result (IsInRange options.now → ⊥) }
{
    if options.runs < 1 || options.runs > 10_000 || options.trials > 1_000_000 {
        return None;
    }
    if options.candidates < 1 || options.candidates > CANDIDATE_LIMIT {
        return None;
    }
    if options.or_segment < 1 || options.or_segment > 3 {
        return None;
    }
    let construction = if options.savings {
        Construction::Savings
    } else {
        Construction::Nearest
    };
    Some(SearchSettings {
        runs: options.runs,
        max_trials: trials_of(options.trials),
        seed: options.seed,
        max_candidates: options.candidates,
        construction,
        final_sweep: options.final_sweep,
        or_segment: options.or_segment,
    })
}

/// The text of the tour or of the solution, and the lines that the program prints.
fn solved(
    alloc: Global,
    settings: &SearchSettings,
    from_tour: bool,
    problem: &[u8],
    initial: &[u8],
) -> Result<(Vec<u8>, Vec<u8>), Fault>
    ensures ok { IfOk result (λ r. IsSolvedBy (settings_task from_tour (search_is settings.now)) from_tour
        problem.now initial.now (record { file = r.0.items; out = r.1.items })) }
    ensures err { IfErr result (IsSolveStop (start_misfit from_tour) from_tour problem.now initial.now) }
{
    let mut problem = FromRead::new(problem);
    let mut initial = FromRead::new(initial);
    let mut file = ToWrite::new(Vec::new(alloc));
    let mut out = ToWrite::new(Vec::new(alloc));
    let mut watch = NoObserver;
    match search_engine(
        alloc,
        settings,
        from_tour,
        &mut problem,
        &mut initial,
        &mut file,
        &mut out,
        &mut watch,
    ) {
        Ok(()) => Ok((file.inner, out.inner)),
        Err(fault) => Err(fault),
    }
}

/// Searches for a short tour, or for routes that are improved each by itself, with these options. `file` gets the text
/// of the tour or of the solution, and `out` the lines that the program prints. `initial` is a tour, which is read if
/// each run starts from it. If a number of the options is out of range, the status is 2 without a message. If a text is
/// rejected, or an initial tour is given for a CVRP, `out` gets the message.
pub fn tourkit_search(
    alloc: Global,
    problem: &[u8],
    initial: &[u8],
    options: &SearchOptions,
    out: &mut [u8],
    file: &mut [u8],
) -> Answer
    ensures given { result.status ≤ 1
        → HoldFiles (IsSearchedOf options.now problem.now initial.now) out.old out.new file.old file.new result }
    ensures known { result.status ≤ 3 }
    ensures refused { result.status ≡ 2 → IsInRange options.now
        → IsOptionsRefused options.now problem.now initial.now result }
    ensures outside { (IsInRange options.now → ⊥) → result ≡ with_status 2 0 }
    ensures memory { result.status ≡ 3 → result ≡ with_status 3 result.needed }
    ensures message { 2 ≤ result.status → IsSomeText out.old out.new result }
    ensures kept { 2 ≤ result.status → file.new ≡ file.old }
{
    let Some(settings) = settings_of(options) else {
        return Answer::ended(REFUSED, hand_out(b"", out));
    };
    let solved = solved(alloc, &settings, options.from_tour, problem, initial);
    answer_of(alloc, 1, solved, out, file)
}
