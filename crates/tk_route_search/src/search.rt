//! One run: the first descent and the trials of a search from a ring.
ghost use Rattle.std.specs.Prelude.{◌≡◌, ◌<◌, ℕ, IfOk, OnOk, List, length};
ghost use Rattle.tk_routes.specs.Cvrps.{instance_of};
ghost use Rattle.tk_routes.specs.Instance.{customer_count};
ghost use Rattle.tk_ring_search.specs.Given.{given_of};
ghost use Rattle.tk_ring_search.specs.SearchOf.{search_of};
ghost use Rattle.tk_ring_search.specs.Searching.{IsBegun};
ghost use Rattle.tk_ring_search.specs.Totals.{is_better};
ghost use Rattle.tk_route_search.specs.Events.{Event};
ghost use Rattle.tk_route_search.specs.Runs.{AreTrialsMade, IsSearched};
ghost use Rattle.tk_route_search.specs.Tasks.{IsInput, IsRing, task_of};
ghost use Rattle.tk_route_search.specs.Watching.{IsReported, WereShown};

use crate::options::SearchOptions;
use crate::watch::{RouteProgress, RouteWatch};
use rand_core::SeedableRng;
use rand_pcg::Pcg32;
use std::alloc::{AllocError, Global};
use tk_distance::Metric;
use tk_ring_search::{Outcome, RingSearch, RingTerms};
use tk_rings::routes_of;
use tk_routes::Cvrp;
use tk_tour::ArrayTour;

/// Shows a trial to the observer, with the routes of the best ring if they are new.
fn tell<W: RouteWatch>(
    alloc: Global,
    cvrp: &Cvrp<'_>,
    progress: &RouteProgress,
    best: &[u32],
    is_new: bool,
    watch: &mut W,
) -> Result<(), AllocError>
    requires ring { IsRing (instance_of cvrp.now) (length best.now) best.now }
    ensures { OnOk result (IsReported W.shows (customer_count (instance_of cvrp.now)) progress.now best.now is_new
        watch.old watch.new) }
{
    if !is_new {
        watch.trial(progress, None);
        return Ok(());
    }
    let routes = routes_of(alloc, cvrp, best)?;
    watch.trial(progress, Some(&routes));
    Ok(())
}

/// Whether a trial with this outcome found a better ring.
fn is_better(outcome: Outcome) -> bool
    ensures { result ≡ is_better outcome }
{
    matches!(outcome, Outcome::Better)
}

/// Makes the trials of run j, counted from 0, whose search has begun, unless the observer ends them. Shows its first
/// descent and each trial to the observer.
fn make_trials<M: Metric, W: RouteWatch>(
    alloc: Global,
    cvrp: &Cvrp<'_>,
    search: &mut RingSearch<'_, ArrayTour, M>,
    options: &SearchOptions<'_>,
    j: u32,
    watch: &mut W,
) -> Result<(), AllocError>
    requires run { j < options.now.runs }
    requires begun { (ring : List ℕ) × (IsInput (task_of cvrp.now options.now) ring (search_of search.old).given
        × IsBegun (search_of search.old).given ring (search_of search.old)) }
    ensures trials { OnOk result ((shown : List Event)
        × (AreTrialsMade (task_of cvrp.now options.now) j (search_of search.old) shown (search_of search.new)
        × WereShown W.shows watch.old watch.new shown)) }
{
    let mut generator = Pcg32::seed_from_u64(options.seed as u64 + j as u64);
    let first = RouteProgress {
        run: j + 1,
        runs: options.runs,
        trial: 0,
        trials: options.trials,
        cost: search.shortest(),
        best: search.shortest(),
    };
    tell(alloc, cvrp, &first, search.best(), true, watch)?;
    for trial in 0..options.trials {
        if !watch.goes_on() {
            break;
        }
        let Some(report) = search.trial(&mut generator) else {
            break;
        };
        let progress = RouteProgress {
            trial: trial + 1,
            cost: report.descent.after,
            best: search.shortest(),
            ..first
        };
        let is_new = is_better(report.outcome);
        tell(alloc, cvrp, &progress, search.best(), is_new, watch)?;
    }
    Ok(())
}

/// The search of run j, counted from 0, after its trials: all of them, unless the observer ends them. The observer has
/// been shown its first descent and each trial.
pub(crate) fn search_run<'a, M: Metric, W: RouteWatch>(
    alloc: Global,
    cvrp: &Cvrp<'_>,
    terms: RingTerms<'a, M>,
    ring: &[u32],
    options: &SearchOptions<'_>,
    j: u32,
    watch: &mut W,
) -> Result<RingSearch<'a, ArrayTour, M>, AllocError>
    requires run { j < options.now.runs }
    requires size { M.size_of terms.metric.now ≡ length ring.now }
    requires input { IsInput (task_of cvrp.now options.now) ring.now (given_of M.Metric terms) }
    ensures searched { IfOk result (λ s. (shown : List Event)
        × (IsSearched (task_of cvrp.now options.now) (given_of M.Metric terms.entry) ring.now j shown (search_of s)
        × WereShown W.shows watch.old watch.new shown)) }
    ensures ring { IfOk result (λ s. IsRing (instance_of cvrp.now) (length ring.now) (search_of s).best) }
{
    let Ok(start) = ArrayTour::from_list(alloc, ring) else {
        return Err(AllocError);
    };
    let mut search = RingSearch::begin(alloc, terms, start)?;
    make_trials(alloc, cvrp, &mut search, options, j, watch)?;
    Ok(search)
}
