//! Searches. They allocate memory before the first trial, and none during trials.
use crate::again;
use crate::host::Host;
use crate::instances::{FIVE, ROW, SQUARE};
use crate::lists::near_of;
use crate::readers::problem_of;
use rand_core::SeedableRng;
use rand_pcg::Pcg32;
use std::alloc::Global;
use tk_build::{Search, SearchRules};
use tk_metric::{Metric, Near, Table};
use tk_text::Problem;
use tk_tour::{ArrayTour, TourFault, TourStore};

/// A search of this many trials from a tour, with near lists of this length.
#[derive(Clone, Copy)]
struct Task<'a> {
    problem: &'a [u8],
    start: &'a [u32],
    candidates: u32,
    trials: u32,
}

/// Searches on four, five and eight cities.
const TASKS: [Task<'static>; 3] = [
    Task {
        problem: SQUARE,
        start: &[1, 2, 3, 4],
        candidates: 3,
        trials: 1,
    },
    Task {
        problem: FIVE,
        start: &[1, 2, 3, 4, 5],
        candidates: 1,
        trials: 1,
    },
    Task {
        problem: ROW,
        start: &[1, 2, 3, 4, 5, 6, 7, 8],
        candidates: 5,
        trials: 50,
    },
];

/// A search from a list of cities.
fn begin<'a, M: Metric>(
    alloc: Global,
    metric: &'a M,
    near: &'a Near,
    start: &[u32],
) -> Result<Search<'a, M>, TourFault> {
    let start = ArrayTour::from_list(alloc, start)?;
    if start.size() != metric.size() || start.size() != near.size() {
        return Err(TourFault::WrongCount);
    }
    let rules = SearchRules {
        sweep: false,
        or_segment: 3,
    };
    match Search::new(alloc, metric, near, start, rules) {
        Ok(search) => Ok(search),
        Err(_) => Err(TourFault::NoMemory),
    }
}

/// Prints the counters of a search, and its best tour.
fn show<M: Metric>(host: &Host<'_>, name: &str, search: &Search<M>) {
    let (totals, best) = (search.totals(), search.best());
    println!(host; "{name}: {totals:?}, {best:?}");
}

/// Makes this many trials.
fn make_trials<M: Metric>(search: &mut Search<M>, count: u32) {
    let mut rng = Pcg32::seed_from_u64(1);
    for _ in 0..count {
        let _ = search.trial(&mut rng);
    }
}

/// Makes the trials of a search that is built, and prints its state before and after them.
fn search<M: Metric>(host: &Host<'_>, search: &mut Search<M>, trials: u32) {
    show(host, "Search::new", search);
    host.mark("built");
    make_trials(search, trials);
    show(host, "trial", search);
    host.mark("done");
}

/// The search of a task, before its first trial.
fn begun<'a, M: Metric>(
    host: &Host<'_>,
    metric: &'a M,
    near: &'a Near,
    task: &Task<'_>,
) -> Option<Search<'a, M>> {
    again!(
        host,
        "Search::new",
        begin(host.alloc, metric, near, task.start)
    )
}

/// Makes a search, and then its trials.
fn search_from<M: Metric>(host: &Host<'_>, metric: &M, near: &Near, task: &Task<'_>) {
    if let Some(mut begun) = begun(host, metric, near, task) {
        search(host, &mut begun, task.trials);
    }
}

/// Searches among the cities of a task's problem.
fn search_in(host: &Host<'_>, problem: &Problem, task: &Task<'_>) {
    let table = Table::of(problem);
    if let Some(near) = near_of(host, &table, task.candidates) {
        search_from(host, &table, &near, task);
    }
}

/// Makes the searches.
pub fn make_calls(host: &Host<'_>) {
    for task in &TASKS {
        if let Some(problem) = problem_of(host, task.problem) {
            search_in(host, &problem, task);
        }
    }
}
