//! One run: the trials of a search from a start.
ghost use Rattle.std.specs.Prelude.{◌≡◌, ◌<◌, IfOk, List, length};
ghost use Rattle.tk_tour.specs.ArrayTours.{order_of};
ghost use Rattle.tk_search.specs.SearchOf.{search_of};
ghost use Rattle.tk_solve.specs.Events.{Event};
ghost use Rattle.tk_solve.specs.Runs.{IsSearched};
ghost use Rattle.tk_solve.specs.Starts.{task_over};
ghost use Rattle.tk_solve.specs.Watching.{WereShown};

use crate::options::TourOptions;
use crate::watch::{Progress, Watch, is_made};
use rand_core::SeedableRng;
use rand_pcg::Pcg32;
use std::alloc::{AllocError, Global};
use tk_distance::Metric;
use tk_near::Near;
use tk_search::Search;
use tk_tour::ArrayTour;

/// The search of run j, counted from 0, after its trials: all of them, unless the observer ends them. The observer has
/// been shown each trial.
pub(crate) fn search_run<'a, M: Metric, W: Watch>(
    alloc: Global,
    metric: &'a M,
    near: &'a Near,
    start: ArrayTour,
    options: &TourOptions<'_>,
    j: u32,
    watch: &mut W,
) -> Result<Search<'a, M>, AllocError>
    requires fits { (M.size_of metric.now ≡ length (order_of start)) × (near.now.size ≡ length (order_of start)) }
    requires run { j < options.now.runs }
    ensures { IfOk result (λ s. (shown : List Event) × (IsSearched
        (task_over (M.size_of metric.now) (M.distance metric.now) options.now)
        near.now j (order_of start) shown (search_of s) × WereShown W.shows watch.old watch.new shown)) }
{
    let trials = if metric.size() < 8 { 1 } else { options.trials };
    let mut search = Search::new(alloc, metric, near, start, options.rules)?;
    let mut generator = Pcg32::seed_from_u64(options.seed as u64 + j as u64);
    for trial in 0..trials {
        if !is_made(trial, watch) {
            break;
        }
        let report = search.trial(&mut generator);
        let progress = Progress {
            run: j + 1,
            runs: options.runs,
            trial: trial + 1,
            trials,
            length: report.descent.after,
            best: search.shortest(),
        };
        watch.trial(&progress, search.best());
    }
    Ok(search)
}
