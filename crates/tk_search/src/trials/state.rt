//! The state of a search, and its next trial.
ghost use Rattle.std.specs.Prelude.{◌≡◌, pos, ◌+◌, ◌-◌, ◌^◌, ◌<◌, ◌≤◌, IfOk, [], length, true, false, All};
ghost use Rattle.tk_distance.specs.Cities.{IsCity};
ghost use Rattle.tk_descent.specs.Awake.{one_to, woken_each};
ghost use Rattle.tk_descent.specs.EdgeCache.{AreTrueOf};
ghost use Rattle.tk_near.specs.Near.{near_of};
ghost use Rattle.tk_tour.specs.Tour.{tour_length};
ghost use Rattle.tk_tour.specs.Counters.{saturated};
ghost use Rattle.tk_tour.specs.JournalTours.{cities_of, swaps_of, slots_of, flips_since, settled_order, KeepsSettled};
ghost use Rattle.tk_search.specs.Best.{best_of};
ghost use Rattle.tk_search.specs.Cuts.{kick_swaps};
ghost use Rattle.tk_search.specs.Ending.{EndsTrial};
ghost use Rattle.tk_search.specs.Searching.{IsBegun, IsSearching, NextTrial, searching};
ghost use Rattle.tk_search.specs.Settled.{IsAtBest};
ghost use Rattle.tk_search.specs.Totals.{AddsTrial, AreCountsOf};
ghost use Rattle.tk_search.specs.Trials.{IsTrial, IsBoundedTrial, IsKick, gain_of};

use crate::double_bridges::cuts::Cuts;
use crate::double_bridges::kicking::{bridged_length, kick};
use crate::trials::best::Best;
use crate::trials::descending::{SearchRules, descend_by};
use crate::trials::keeping::keep_better;
use crate::trials::totals::{Totals, TrialReport};
use rand_core::Rng;
use std::alloc::{AllocError, Global};
use tk_descent::{EdgeCache, Report, SweptReport, Waking};
use tk_distance::Metric;
use tk_near::Near;
use tk_tour::{JournalTour, TourStore, UndoStore, length};

/// Wakes the first and the last city of each part of a kick or, if descents are swept, all cities.
fn wake_kicked(waking: &mut Waking, ends: &[u32], sweep: bool)
    requires { All (IsCity waking.old.size) ends.now }
    ensures swept { sweep ≡ true → waking.new.queue ≡ woken_each waking.old.queue (one_to waking.old.size) }
    ensures ends { sweep ≡ false → waking.new.queue ≡ woken_each waking.old.queue ends.now }
    ensures size { waking.new.size ≡ waking.old.size }
{
    if sweep {
        waking.wake_all();
    } else {
        waking.wake_each(ends);
    }
}

/// The report of a trial that does nothing.
fn no_trial(shortest: i64) -> TrialReport
    ensures flags { (result.kicked ≡ false) × (result.better ≡ false) }
    ensures lengths { (result.descent.before ≡ shortest) × (result.descent.after ≡ shortest) }
    ensures counts { (result.passes ≡ 0) × (result.descent.moves ≡ 0) × (result.descent.looks ≡ 0)
        × (result.descent.tests ≡ 0) × (result.descent.swaps ≡ 0) }
{
    TrialReport {
        kicked: false,
        better: false,
        passes: 0,
        descent: Report {
            before: shortest,
            after: shortest,
            moves: 0,
            looks: 0,
            tests: 0,
            swaps: 0,
        },
    }
}

/// The state of a search: the tour that it works on, the best tour and its length, the waking cities, the cache of edge
/// lengths, and the totals.
#[derive(Drop)]
pub(crate) struct State<S: UndoStore> {
    pub(crate) tour: JournalTour<S>,
    pub(crate) best: Best,
    pub(crate) waking: Waking,
    pub(crate) steps: EdgeCache,
    pub(crate) shortest: i64,
    pub(crate) totals: Totals,
}

impl<S: UndoStore> State<S> {
    /// The state before the first trial from a starting tour.
    ///
    /// # Errors
    /// `AllocError` if memory runs out; the starting tour is dropped then.
    pub(crate) fn new<M: Metric>(
        alloc: Global,
        metric: &M,
        near: &Near,
        tour: S,
        rules: SearchRules,
    ) -> Result<State<S>, AllocError>
        requires fits { (M.size_of metric.now ≡ length (S.cities tour)) × (near.now.size ≡ length (S.cities tour)) }
        requires most { (1 ≤ rules.or_segment) × (rules.or_segment ≤ 3) }
        ensures begun { IfOk result (λ s. IsBegun (searching (M.distance metric.now) near.now rules s)
            (M.distance metric.now) near.now rules (S.cities tour)) }
        ensures holds { IfOk result (λ s. IsSearching (M.size_of metric.now) (M.distance metric.now) near.now rules s) }
    {
        let n = tour.size();
        let best = Best::new(alloc, &tour)?;
        let shortest = length(metric, best.cities());
        Ok(State {
            tour: JournalTour::new(alloc, tour, n)?,
            best,
            waking: Waking::new(alloc, n)?,
            steps: EdgeCache::new(alloc, n, near.width())?,
            shortest,
            totals: Totals::new(shortest),
        })
    }

    /// Makes the next trial. After the first one, a trial on fewer than 8 cities does nothing.
    pub(crate) fn trial<M: Metric, R: Rng>(
        &mut self,
        metric: &M,
        near: &Near,
        rules: SearchRules,
        rng: &mut R,
    ) -> TrialReport
        requires { IsSearching (M.size_of metric.now) (M.distance metric.now) near.now rules self.old }
        ensures next { NextTrial (searching (M.distance metric.now) near.now rules self.old) (R.stream rng.old)
            (searching (M.distance metric.now) near.now rules self.new) (R.stream rng.new) result }
        ensures undrawn { result.kicked ≡ false → rng.new ≡ rng.old }
        ensures holds { IsSearching (M.size_of metric.now) (M.distance metric.now) near.now rules self.new }
    {
        let before = self.shortest;
        if self.totals.trials == 0 {
            self.waking.wake_all();
            return self.descend(metric, near, rules, false, before);
        }
        if self.tour.size() < 8 {
            return no_trial(before);
        }
        let before = self.kick(metric, rng, rules.sweep);
        self.descend(metric, near, rules, true, before)
    }

    /// Descends from the tour, of length `before`, with the cities that are awake. If the result is shorter than the
    /// best tour, it becomes the best; otherwise the best is restored.
    pub(crate) fn descend<M: Metric>(
        &mut self,
        metric: &M,
        near: &Near,
        rules: SearchRules,
        kicked: bool,
        before: i64,
    ) -> TrialReport
        requires fits { (M.size_of metric.now ≡ length (best_of self.old.best))
            × (near.now.size ≡ length (best_of self.old.best))
            × (self.old.waking.size ≡ length (best_of self.old.best)) }
        requires size { length (cities_of self.old.tour) ≡ length (best_of self.old.best) }
        requires slots { slots_of self.old.tour ≡ length (best_of self.old.best) }
        requires settled { flips_since self.old.tour ≤ slots_of self.old.tour
            → settled_order self.old.tour ≡ best_of self.old.best }
        requires flips { flips_since self.old.tour ≤ 4 }
        requires most { (1 ≤ rules.or_segment) × (rules.or_segment ≤ 3) }
        requires before { before ≡ pos (tour_length (M.distance metric.now) (cities_of self.old.tour)) }
        requires shortest { self.old.shortest ≡ pos (tour_length (M.distance metric.now) (best_of self.old.best)) }
        requires steps { AreTrueOf (M.distance metric.now) self.old.steps }
        ensures trial { (trial : IsTrial (M.distance metric.now) (near_of near.now) rules
            (cities_of self.old.tour) self.old.waking.queue (best_of self.old.best)
            (best_of self.new.best) result) × EndsTrial trial.flips trial.swaps self.old self.new result }
        ensures kicked { result.kicked ≡ kicked }
        ensures at_best { IsAtBest self.new.tour self.new.best }
        ensures size { (length (best_of self.new.best) ≡ length (best_of self.old.best))
            × (slots_of self.new.tour ≡ slots_of self.old.tour) }
        ensures waking { (self.new.waking.queue ≡ []) × (self.new.waking.size ≡ self.old.waking.size) }
        ensures shortest { self.new.shortest ≡ pos (tour_length (M.distance metric.now) (best_of self.new.best)) }
        ensures steps { AreTrueOf (M.distance metric.now) self.new.steps }

        // the totals, and the bounds on the work of the trial
        ensures adds { AddsTrial self.old.totals self.new.totals result (gain_of result) }
        ensures counts { AreCountsOf self.new.totals self.new.tour self.new.best }
        ensures small { (self.new.totals.swaps < 2 ^ 64) × (self.new.totals.copied < 2 ^ 65) }
        ensures bounded { IsBoundedTrial (length (best_of self.old.best)) near.now.width
            (length self.old.waking.queue) rules result }
        ensures swapped { swaps_of self.new.tour ≡ swaps_of self.old.tour + result.descent.swaps }
    {
        let SweptReport { descent, passes } = descend_by(
            &mut self.tour,
            metric,
            near,
            &mut self.waking,
            &mut self.steps,
            rules,
            before,
        );
        let better = descent.after < self.shortest;
        let shortest = if better { descent.after } else { self.shortest };
        keep_better(&mut self.tour, &mut self.best, better);
        self.shortest = shortest;
        let report = TrialReport {
            kicked,
            better,
            passes,
            descent,
        };
        let gained = (before - descent.after).unsigned_abs();
        self.totals = self
            .totals
            .with_trial(&report, gained, &self.tour, &self.best);
        report
    }

    /// Kicks the tour at cuts drawn from the generator, and returns its new length. It wakes the first and the last
    /// city of each part or, if descents are swept, all cities.
    pub(crate) fn kick<M: Metric, R: Rng>(&mut self, metric: &M, rng: &mut R, sweep: bool) -> i64
        requires many { 8 ≤ length (cities_of self.old.tour) }
        requires fits { (M.size_of metric.now ≡ length (cities_of self.old.tour))
            × (self.old.waking.size ≡ length (cities_of self.old.tour)) }
        requires shortest { self.old.shortest
            ≡ pos (tour_length (M.distance metric.now) (cities_of self.old.tour)) }
        ensures kicked { (kick : IsKick (cities_of self.old.tour) (R.stream rng.old) sweep
            self.old.waking.queue (cities_of self.new.tour) (R.stream rng.new) self.new.waking.queue)
            × (swaps_of self.new.tour ≡ saturated (swaps_of self.old.tour
            + kick_swaps (length (cities_of self.old.tour)) kick.cuts)) }
        ensures length { result ≡ pos (tour_length (M.distance metric.now) (cities_of self.new.tour)) }
        ensures flips { flips_since self.new.tour ≡ saturated (flips_since self.old.tour + 4) }
        ensures kept { KeepsSettled self.old.tour self.new.tour }
        ensures size { length (cities_of self.new.tour) ≡ length (cities_of self.old.tour) }
        ensures others { (self.new.best ≡ self.old.best) × (self.new.shortest ≡ self.old.shortest)
            × (self.new.totals ≡ self.old.totals) × (self.new.waking.size ≡ self.old.waking.size)
            × (self.new.steps ≡ self.old.steps) }
    {
        let cuts = Cuts::draw(rng, self.tour.size());
        let ends = cuts.ends(&self.tour);
        kick(&mut self.tour, cuts);
        wake_kicked(&mut self.waking, &ends, sweep);
        bridged_length(metric, self.shortest, ends)
    }
}
