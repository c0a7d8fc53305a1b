//! A search: descents from a starting tour, and then from kicks of the best tour.
ghost use Rattle.std.specs.Prelude.{◌≡◌, ◌≤◌, IfOk, length, pos, false};
ghost use Rattle.tk_tour.specs.ArrayTours.{order_of};
ghost use Rattle.tk_tour.specs.Tour.{tour_length};
ghost use Rattle.tk_search.specs.Searching.{IsBegun, IsBoundedSearch, NextTrial};
ghost use Rattle.tk_search.specs.Standing.{IsValidState, IsValidState-prop};

use crate::trials::any_state::AnyState;
use crate::trials::descending::SearchRules;
use crate::trials::totals::{Totals, TrialReport};
use rand_core::Rng;
use std::alloc::{AllocError, Global};
use tk_distance::Metric;
use tk_near::Near;
use tk_tour::ArrayTour;

/// A search by trials. The first trial descends from the starting tour. Each later one descends from a kick of the best
/// tour if there are at least 8 cities, and otherwise does nothing.
#[derive(Drop)]
pub struct Search<'a, M: Metric> {
    metric: &'a M,
    near: &'a Near,
    rules: SearchRules,
    stand: AnyState,
    ghost holds: { IsValidState (M.size_of metric.now) (M.distance metric.now) near.now rules
        stand } by { IsValidState-prop _ _ _ _ _ },
}

impl<'a, M: Metric> Search<'a, M> {
    ghost use Rattle.tk_search.specs.SearchOf.{search_of};

    /// A search from a starting tour, before the first trial. All of its memory is allocated here.
    ///
    /// # Errors
    /// `AllocError` if memory runs out; the starting tour is dropped then.
    pub fn new(
        alloc: Global,
        metric: &'a M,
        near: &'a Near,
        start: ArrayTour,
        rules: SearchRules,
    ) -> Result<Search<'a, M>, AllocError>
        requires fits { (M.size_of metric.now ≡ length (order_of start)) × (near.now.size ≡ length (order_of start)) }
        requires most { (1 ≤ rules.or_segment) × (rules.or_segment ≤ 3) }
        ensures begun { IfOk result (λ s. IsBegun (search_of s) (M.distance metric.now) near.now rules
            (order_of start)) }
    {
        Ok(Search {
            metric,
            near,
            rules,
            stand: AnyState::new(alloc, metric, near, start, rules)?,
        })
    }

    /// Makes the next trial. After the first one, a trial on fewer than 8 cities does nothing.
    pub fn trial<R: Rng>(&mut self, rng: &mut R) -> TrialReport
        ensures next { NextTrial (search_of self.old) (R.stream rng.old) (search_of self.new)
            (R.stream rng.new) result }
        ensures undrawn { result.kicked ≡ false → rng.new ≡ rng.old }
    {
        match &mut self.stand {
            AnyState::Array(state) => state.trial(self.metric, self.near, self.rules, rng),
            AnyState::Segments(state) => state.trial(self.metric, self.near, self.rules, rng),
        }
    }

    /// The best tour so far: its cities in tour order.
    pub fn best(&self) -> &[u32]
        ensures { result.now ≡ (search_of self.now).best }
    {
        match &self.stand {
            AnyState::Array(state) => state.best.cities(),
            AnyState::Segments(state) => state.best.cities(),
        }
    }

    /// The length of the best tour so far.
    pub fn shortest(&self) -> i64
        ensures { result ≡ pos (tour_length (search_of self.now).distance (search_of self.now).best) }
    {
        match &self.stand {
            AnyState::Array(state) => state.shortest,
            AnyState::Segments(state) => state.shortest,
        }
    }

    /// The totals of the search so far.
    pub fn totals(&self) -> Totals
        ensures value { result ≡ (search_of self.now).totals }
        ensures bounded { IsBoundedSearch (search_of self.now) }
    {
        match &self.stand {
            AnyState::Array(state) => state.totals,
            AnyState::Segments(state) => state.totals,
        }
    }
}
