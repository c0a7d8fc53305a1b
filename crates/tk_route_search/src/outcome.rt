//! The results that are kept of completed runs.
ghost use Rattle.std.specs.Prelude.{◌≡◌, ◌<◌, IfOk, OnOk, [], length};
ghost use Rattle.tk_routes.specs.Cvrps.{instance_of};
ghost use Rattle.tk_routes.specs.Instance.{customer_count};
ghost use Rattle.tk_ring_search.specs.Given.{given_of};

use crate::options::SearchOptions;
use crate::search::search_run;
use crate::watch::RouteWatch;
use std::alloc::{AllocError, Global};
use tk_distance::Metric;
use tk_ring_search::{RingSearch, RingTerms, RingTotals};
use tk_rings::routes_of;
use tk_routes::Cvrp;
use tk_tour::ArrayTour;

/// The report of a run.
#[derive(Clone, Copy, PartialEq, Eq)]
pub struct RouteRun {
    /// The cost of its best routes.
    pub best: i64,
    /// The number of its best routes.
    pub routes: u32,
    /// Its counters; `start` is the cost of the routes that it began with.
    pub totals: RingTotals,
}

/// The results that are kept of completed runs: a report of each, and the shortest of the ring that they began with and
/// their best rings; the earliest one, if there are several.
#[derive(Drop)]
pub(crate) struct Outcome {
    pub(crate) reports: Vec<RouteRun>,
    pub(crate) ring: Vec<u32>,
    /// The cost of the routes of `ring`.
    pub(crate) cost: i64,
    /// The cost of the routes that all runs begin with.
    pub(crate) start: i64,
}

impl Outcome {
    ghost use Rattle.tk_ring_search.specs.SearchOf.{search_of};
    ghost use Rattle.tk_route_search.specs.Outcomes.{IsRunAdded, IsTaken};
    ghost use Rattle.tk_route_search.specs.Runs.{report_of};
    ghost use Rattle.tk_route_search.specs.Tasks.{IsInput, IsRing, task_of};
    ghost use Rattle.tk_route_search.specs.Watching.{WereShown};

    /// No run has been completed; each begins with this ring.
    pub(crate) fn new(alloc: Global, ring: &[u32], start: i64) -> Result<Outcome, AllocError>
        ensures reports { IfOk result (λ o. o.reports.items ≡ []) }
        ensures ring { IfOk result (λ o. o.ring.items ≡ ring.now) }
        ensures costs { IfOk result (λ o. (o.cost ≡ start) × (o.start ≡ start)) }
    {
        let mut kept = Vec::new(alloc);
        kept.extend_from_slice(ring)?;
        Ok(Outcome {
            reports: Vec::new(alloc),
            ring: kept,
            cost: start,
            start,
        })
    }

    /// Records a run that ended with this search, and returns its report.
    fn take<M: Metric>(
        &mut self,
        alloc: Global,
        cvrp: &Cvrp<'_>,
        search: &RingSearch<'_, ArrayTour, M>,
    ) -> Result<RouteRun, AllocError>
        requires ring { IsRing (instance_of cvrp.now) (length (search_of search.now).best) (search_of search.now).best }
        ensures report { IfOk result (λ r. r
            ≡ report_of (customer_count (instance_of cvrp.now)) (search_of search.now)) }
        ensures taken { OnOk result
            (IsTaken (customer_count (instance_of cvrp.now)) (search_of search.now) self.old self.new) }
    {
        let routes = routes_of(alloc, cvrp, search.best())?.len() as u32;
        let best = search.shortest();
        if best < self.cost {
            self.ring.clear();
            self.ring.extend_from_slice(search.best())?;
            self.cost = best;
        }
        let report = RouteRun {
            best,
            routes,
            totals: search.totals(),
        };
        self.reports.push(report)?;
        Ok(report)
    }

    /// Makes run j, counted from 0, from a ring, and records it. The observer is shown its first descent and its
    /// trials, and its report.
    pub(crate) fn add_run<M: Metric, W: RouteWatch>(
        &mut self,
        alloc: Global,
        cvrp: &Cvrp<'_>,
        terms: RingTerms<'_, M>,
        ring: &[u32],
        options: &SearchOptions<'_>,
        j: u32,
        watch: &mut W,
    ) -> Result<(), AllocError>
        requires run { j < options.now.runs }
        requires size { M.size_of terms.metric.now ≡ length ring.now }
        requires input { IsInput (task_of cvrp.now options.now) ring.now (given_of M.Metric terms) }
        ensures { OnOk result (IsRunAdded (task_of cvrp.now options.now) (given_of M.Metric terms.entry) ring.now j
            (WereShown W.shows watch.old watch.new) self.old self.new) }
    {
        let search = search_run(alloc, cvrp, terms, ring, options, j, watch)?;
        let report = self.take(alloc, cvrp, &search)?;
        watch.end_run(j + 1, &report);
        Ok(())
    }
}
