//! The state of a search between routes, and its next trial.
ghost use Rattle.std.specs.Prelude.{◌≡◌, ◌≤◌, ◌<◌, ◌+◌, ◌-◌, ◌^◌, IfOk, length, pos, true};
ghost use Rattle.tk_descent.specs.Awake.{woken_each};
ghost use Rattle.tk_rings.specs.Capacities.{IsFitting};
ghost use Rattle.tk_rings.specs.LoadedRings.{KeepsLoaded, cities_in, flips_in, swaps_in};
ghost use Rattle.tk_search.specs.Cuts.{kick_swaps};
ghost use Rattle.tk_tour.specs.Counters.{saturated};
ghost use Rattle.tk_tour.specs.Tour.{SameCycle, tour_length};
ghost use Rattle.tk_ring_search.specs.Best.{best_of};
ghost use Rattle.tk_ring_search.specs.Given.{given_of};
ghost use Rattle.tk_ring_search.specs.Kicks.{IsKick, ends_of, is_within, kicked};
ghost use Rattle.tk_ring_search.specs.Searching.{IsBegun, IsKickedDescent, IsSearching, IsStanding};
ghost use Rattle.tk_ring_search.specs.Searching.{NextTrial, searching};
ghost use Rattle.tk_ring_search.specs.declared.trials.judging.Outcome.TheVariants.{Idle};

use crate::kicks::drawing::draw_fitting;
use crate::kicks::kick::Kick;
use crate::trials::best::Best;
use crate::trials::descending::descend;
use crate::trials::judging::{Outcome, judge, limit};
use crate::trials::keeping::settle;
use crate::trials::terms::RingTerms;
use crate::trials::totals::{RingTotals, RingTrial};
use rand_core::Rng;
use std::alloc::{AllocError, Global};
use tk_descent::{EdgeCache, Report, SweptReport, Waking};
use tk_distance::Metric;
use tk_rings::LoadedRing;
use tk_search::bridged_length;
use tk_tour::{TourStore, UndoStore, length};

/// The journal has room for as many flips as the ring has elements, and for these. Few trials make more.
const SPARE: u32 = 1_000;

/// The state of a search: the current ring and its cost, the best ring and its cost, the waking elements, the cache of
/// edge lengths, and the totals.
#[derive(Drop)]
pub(crate) struct State<'a, S: UndoStore> {
    pub(crate) ring: LoadedRing<'a, S>,
    pub(crate) best: Best,
    pub(crate) waking: Waking,
    pub(crate) steps: EdgeCache,
    pub(crate) cost: i64,
    pub(crate) shortest: i64,
    pub(crate) totals: RingTotals,
}

impl<'a, S: UndoStore> State<'a, S> {
    /// The state after the first descent from a ring.
    ///
    /// # Errors
    /// `AllocError` if memory runs out; the ring is dropped then.
    pub(crate) fn begin<M: Metric>(
        alloc: Global,
        terms: &RingTerms<'a, M>,
        ring: S,
    ) -> Result<State<'a, S>, AllocError>
        requires sizes { (M.size_of terms.now.metric.now ≡ length (S.cities ring))
            × (terms.now.near.now.size ≡ length (S.cities ring)) }
        requires most { (1 ≤ terms.now.or_segment) × (terms.now.or_segment ≤ 3) }
        requires fits { IsFitting terms.now.vehicles.capacity terms.now.vehicles.demands.now (S.cities ring) }
        ensures begun { IfOk result (λ s. IsBegun (given_of M.Metric terms.now) (S.cities ring)
            (searching (given_of M.Metric terms.now) s)) }
        ensures holds { IfOk result (λ s.
            IsSearching (M.size_of terms.now.metric.now) (given_of M.Metric terms.now) s) }
    {
        let n = ring.size();
        let mut best = Best::new(alloc, &ring)?;
        let before = length(terms.metric, best.elements());
        let mut ring = LoadedRing::new(alloc, ring, n + SPARE, terms.vehicles.demands)?;
        let mut waking = Waking::new(alloc, n)?;
        let mut steps = EdgeCache::new(alloc, n, terms.near.width())?;
        waking.wake_all();
        let report = descend(&mut ring, terms, &mut waking, &mut steps, before);
        best.take(ring.tour());
        ring.settle();
        Ok(State {
            ring,
            best,
            waking,
            steps,
            cost: report.descent.after,
            shortest: report.descent.after,
            totals: RingTotals::new(before, &report),
        })
    }

    /// Makes the next trial.
    pub(crate) fn trial<M: Metric, R: Rng>(
        &mut self,
        terms: &RingTerms<'_, M>,
        rng: &mut R,
    ) -> RingTrial
        requires holds { IsSearching (M.size_of terms.now.metric.now) (given_of M.Metric terms.now) self.old }
        requires left { self.old.totals.trials < terms.now.trials }
        requires room { self.old.totals.trials < 2 ^ 64 - 1 }
        ensures next { NextTrial (searching (given_of M.Metric terms.now) self.old) (R.stream rng.old)
            (searching (given_of M.Metric terms.now) self.new) (R.stream rng.new) result }
        ensures holds { IsSearching (M.size_of terms.now.metric.now) (given_of M.Metric terms.now) self.new }
    {
        let drawn = draw_fitting(&self.ring, &terms.vehicles, rng);
        let trial = match drawn.kick {
            Some(kick) => self.descend_kicked(terms, kick, drawn.draws),
            None => self.idle(drawn.draws),
        };
        self.totals = self
            .totals
            .with_trial(&trial, self.ring.size(), self.ring.swaps());
        trial
    }

    /// The report of a trial without a kick.
    fn idle(&self, draws: u32) -> RingTrial
        ensures draws { result.draws ≡ draws }
        ensures outcome { result.outcome ≡ Idle }
        ensures lengths { (result.descent.before ≡ self.now.cost) × (result.descent.after ≡ self.now.cost) }
        ensures counts { (result.descent.moves ≡ 0) × (result.descent.looks ≡ 0) × (result.descent.tests ≡ 0)
            × (result.descent.swaps ≡ 0) × (result.passes ≡ 0) }
    {
        RingTrial {
            draws,
            outcome: Outcome::Idle,
            passes: 0,
            descent: Report {
                before: self.cost,
                after: self.cost,
                moves: 0,
                looks: 0,
                tests: 0,
                swaps: 0,
            },
        }
    }

    /// Makes a kick after which the ring fits, descends from its ends, and keeps or undoes the result. The totals stay.
    fn descend_kicked<M: Metric>(
        &mut self,
        terms: &RingTerms<'_, M>,
        kick: Kick,
        draws: u32,
    ) -> RingTrial
        requires stands { IsStanding (M.size_of terms.now.metric.now) (given_of M.Metric terms.now) self.old }
        requires left { self.old.totals.trials < terms.now.trials }
        requires kick { IsKick (length (cities_in self.old.ring)) kick }
        requires fits { is_within terms.now.vehicles.capacity terms.now.vehicles.demands.now
            (kicked kick (cities_in self.old.ring)) ≡ true }
        requires swaps { self.old.totals.swaps ≡ swaps_in self.old.ring }
        ensures descent { IsKickedDescent (searching (given_of M.Metric terms.now) self.old) kick
            (swaps_in self.new.ring) (cities_in self.new.ring) (best_of self.new.best) result }
        ensures draws { result.draws ≡ draws }
        ensures totals { self.new.totals ≡ self.old.totals }
        ensures stands { IsStanding (M.size_of terms.now.metric.now) (given_of M.Metric terms.now) self.new }
    {
        let before = self.make(terms.metric, kick);
        let SweptReport { descent, passes } = descend(
            &mut self.ring,
            terms,
            &mut self.waking,
            &mut self.steps,
            before,
        );
        let (cost, shortest) = (self.cost, self.shortest);
        let limit = limit(shortest, self.totals.trials, terms.trials);
        let outcome = judge(descent.after, cost, shortest, limit, !self.ring.lost());
        settle(&mut self.ring, &mut self.best, outcome);
        self.cost = outcome.cost_after(descent.after, cost, shortest);
        self.shortest = shortest.min(descent.after);
        RingTrial {
            draws,
            outcome,
            passes,
            descent,
        }
    }

    /// Makes a kick and wakes its ends. Returns the cost of the ring then.
    fn make<M: Metric>(&mut self, metric: &M, kick: Kick) -> i64
        requires kick { IsKick (length (cities_in self.old.ring)) kick }
        requires sizes { (M.size_of metric.now ≡ length (cities_in self.old.ring))
            × (self.old.waking.size ≡ length (cities_in self.old.ring)) }
        requires cost { self.old.cost ≡ pos (tour_length (M.distance metric.now) (cities_in self.old.ring)) }
        ensures kicked { SameCycle (cities_in self.new.ring) (kicked kick (cities_in self.old.ring)) }
        ensures awake { self.new.waking.queue
            ≡ woken_each self.old.waking.queue (ends_of kick (cities_in self.old.ring)) }
        ensures cost { result ≡ pos (tour_length (M.distance metric.now) (cities_in self.new.ring)) }
        ensures flips { flips_in self.new.ring ≡ saturated (flips_in self.old.ring + 4) }
        ensures swaps { swaps_in self.new.ring
            ≡ saturated (swaps_in self.old.ring + kick_swaps (length (cities_in self.old.ring)) kick.cuts) }
        ensures kept { KeepsLoaded self.old.ring self.new.ring }
        ensures size { length (cities_in self.new.ring) ≡ length (cities_in self.old.ring) }
        ensures others { (self.new.best ≡ self.old.best) × (self.new.cost ≡ self.old.cost)
            × (self.new.shortest ≡ self.old.shortest) × (self.new.totals ≡ self.old.totals)
            × (self.new.steps ≡ self.old.steps) × (self.new.waking.size ≡ self.old.waking.size) }
    {
        let ends = kick.ends(&self.ring);
        kick.make(&mut self.ring);
        self.waking.wake_each(&ends);
        bridged_length(metric, self.cost, ends)
    }
}
