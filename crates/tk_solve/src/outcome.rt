//! The results that are kept of completed runs.
ghost use Rattle.std.specs.Prelude.{◌≡◌, ◌≢◌, ◌<ℤ◌, ◌≤ℤ◌, ◌+◌, ◌<◌, ◌++◌, ◌∷◌, [], IfOk, OnOk, length};
ghost use Rattle.tk_distance.specs.Tables.{table_size};
ghost use Rattle.tk_tour.specs.ArrayTours.{order_of};
ghost use Rattle.tk_tour.specs.Tour.{IsTour};

use crate::options::TourOptions;
use crate::search::search_run;
use crate::watch::Watch;
use std::alloc::{AllocError, Global};
use tk_distance::{Metric, Table};
use tk_near::Near;
use tk_search::{Search, Totals};
use tk_tour::{ArrayTour, length};

/// The report of a run.
#[derive(Clone, Copy)]
pub struct RunReport {
    /// The length of its best tour.
    pub best: i64,
    /// Its counters; `start` is the length of the tour that it began with.
    pub totals: Totals,
}

/// The results that are kept of completed runs: a report of each, and the shortest of their best tours; the earliest
/// one, if there are several.
#[derive(Drop)]
pub(crate) struct Outcome {
    pub(crate) reports: Vec<RunReport>,
    pub(crate) cities: Vec<u32>,
    pub(crate) shortest: i64,
}

impl Outcome {
    ghost use Rattle.tk_search.specs.SearchOf.{search_of};
    ghost use Rattle.tk_solve.specs.Outcomes.{IsRunAdded, best_length, report_of};
    ghost use Rattle.tk_solve.specs.Starts.{IsStart, task_of, task_over};
    ghost use Rattle.tk_solve.specs.Watching.{WereShown};

    /// No run has been completed.
    pub(crate) fn new(alloc: Global) -> Outcome
        ensures reports { result.reports.items ≡ [] }
    {
        Outcome {
            reports: Vec::new(alloc),
            cities: Vec::new(alloc),
            shortest: 0,
        }
    }

    /// Records a run that ended with this search, and returns its report.
    fn take<M: Metric>(
        &mut self,
        metric: &M,
        search: &Search<'_, M>,
    ) -> Result<RunReport, AllocError>
        requires tour { IsTour (M.size_of metric.now) (search_of search.now).best }
        ensures report { IfOk result (λ r. r ≡ report_of (M.distance metric.now) (search_of search.now)) }
        ensures reports { OnOk result (self.new.reports.items
            ≡ self.old.reports.items ++ report_of (M.distance metric.now) (search_of search.now) ∷ []) }
        ensures first { self.old.reports.items ≡ []
            → OnOk result ((self.new.cities.items ≡ (search_of search.now).best)
            × (self.new.shortest ≡ best_length (M.distance metric.now) (search_of search.now))) }
        ensures shorter { best_length (M.distance metric.now) (search_of search.now) <ℤ self.old.shortest
            → OnOk result ((self.new.cities.items ≡ (search_of search.now).best)
            × (self.new.shortest ≡ best_length (M.distance metric.now) (search_of search.now))) }
        ensures kept { self.old.reports.items ≢ []
            → self.old.shortest ≤ℤ best_length (M.distance metric.now) (search_of search.now)
            → OnOk result ((self.new.cities ≡ self.old.cities) × (self.new.shortest ≡ self.old.shortest)) }
    {
        let best = length(metric, search.best());
        if self.reports.is_empty() || best < self.shortest {
            self.cities.clear();
            self.cities.extend_from_slice(search.best())?;
            self.shortest = best;
        }
        let report = RunReport {
            best,
            totals: search.totals(),
        };
        self.reports.push(report)?;
        Ok(report)
    }

    /// Makes run j, counted from 0, from a tour of the cities of a metric, and records it. The observer is shown its
    /// trials, and its report.
    fn add_run_over<M: Metric, W: Watch>(
        &mut self,
        alloc: Global,
        metric: &M,
        near: &Near,
        start: ArrayTour,
        options: &TourOptions<'_>,
        j: u32,
        watch: &mut W,
    ) -> Result<(), AllocError>
        requires fits { (M.size_of metric.now ≡ length (order_of start)) × (near.now.size ≡ length (order_of start)) }
        requires run { j < options.now.runs }
        requires start { IsStart (task_over (M.size_of metric.now) (M.distance metric.now) options.now)
            near.now j (order_of start) }
        ensures { OnOk result (IsRunAdded (task_over (M.size_of metric.now) (M.distance metric.now) options.now)
            near.now j (WereShown W.shows watch.old watch.new) self.old self.new) }
    {
        let search = search_run(alloc, metric, near, start, options, j, watch)?;
        let report = self.take(metric, &search)?;
        watch.end_run(j + 1, &report);
        Ok(())
    }

    /// Like `add_run_over`, for the cities of a table.
    pub(crate) fn add_run<W: Watch>(
        &mut self,
        alloc: Global,
        table: &Table<'_>,
        near: &Near,
        start: ArrayTour,
        options: &TourOptions<'_>,
        j: u32,
        watch: &mut W,
    ) -> Result<(), AllocError>
        requires fits { (table_size table.now ≡ length (order_of start)) × (near.now.size ≡ length (order_of start)) }
        requires run { j < options.now.runs }
        requires start { IsStart (task_of table.now options.now) near.now j (order_of start) }
        ensures { OnOk result (IsRunAdded (task_of table.now options.now) near.now j
            (WereShown W.shows watch.old watch.new) self.old self.new) }
    {
        match table {
            Table::Planes(planes) => match planes.euclid() {
                Some(euclid) => self.add_run_over(alloc, &euclid, near, start, options, j, watch),
                None => self.add_run_over(alloc, planes, near, start, options, j, watch),
            },
            Table::Triangle(triangle) => {
                self.add_run_over(alloc, triangle, near, start, options, j, watch)
            }
        }
    }
}
