//! A search between routes: a descent from a ring, and then trials from kicks of it.
ghost use Rattle.std.specs.Prelude.{◌≡◌, ◌≤◌, ◌<◌, IfOk, MatchOption, length, pos};
ghost use Rattle.tk_tour.specs.Tour.{tour_length};
ghost use Rattle.tk_rings.specs.Capacities.{IsFitting};
ghost use Rattle.tk_ring_search.specs.Given.{given_of};
ghost use Rattle.tk_ring_search.specs.Searching.{HasMadeAll, IsBegun, IsSearching, IsSearching-prop, NextTrial};

use crate::trials::state::State;
use crate::trials::terms::RingTerms;
use crate::trials::totals::{RingTotals, RingTrial};
use rand_core::Rng;
use std::alloc::{AllocError, Global};
use tk_distance::Metric;
use tk_tour::UndoStore;

/// A search between routes by trials, on a ring of customers and copies of the depot.
#[derive(Drop)]
pub struct RingSearch<'a, S: UndoStore, M: Metric> {
    terms: RingTerms<'a, M>,
    state: State<'a, S>,
    ghost holds: { IsSearching (M.size_of terms.metric.now) (given_of M.Metric terms)
        state } by { IsSearching-prop _ _ _ },
}

impl<'a, S: UndoStore, M: Metric> RingSearch<'a, S, M> {
    ghost use Rattle.tk_ring_search.specs.SearchOf.{search_of};

    /// Descends from a ring that fits, with all elements awake. All memory of the search is allocated here.
    ///
    /// # Errors
    /// `AllocError` if memory runs out; the ring is dropped then.
    pub fn begin(
        alloc: Global,
        terms: RingTerms<'a, M>,
        ring: S,
    ) -> Result<RingSearch<'a, S, M>, AllocError>
        requires sizes { (M.size_of terms.metric.now ≡ length (S.cities ring))
            × (terms.near.now.size ≡ length (S.cities ring)) }
        requires most { (1 ≤ terms.or_segment) × (terms.or_segment ≤ 3) }
        requires fits { IsFitting terms.vehicles.capacity terms.vehicles.demands.now (S.cities ring) }
        ensures begun { IfOk result (λ s. IsBegun (given_of M.Metric terms.entry) (S.cities ring) (search_of s)) }
    {
        let state = State::begin(alloc, &terms, ring)?;
        Ok(RingSearch { terms, state })
    }

    /// Makes the next trial, or returns `None` if all have been made.
    pub fn trial<R: Rng>(&mut self, rng: &mut R) -> Option<RingTrial>
        ensures { MatchOption result
            (HasMadeAll (search_of self.old) (R.stream rng.old) (search_of self.new) (R.stream rng.new))
            (NextTrial (search_of self.old) (R.stream rng.old) (search_of self.new) (R.stream rng.new)) }
    {
        if !self.state.totals.has_left(self.terms.trials) {
            return None;
        }
        Some(self.state.trial(&self.terms, rng))
    }

    /// The best ring so far, in its order.
    pub fn best(&self) -> &[u32]
        ensures { result.now ≡ (search_of self.now).best }
    {
        self.state.best.elements()
    }

    /// The cost of the best ring so far.
    pub fn shortest(&self) -> i64
        ensures { result ≡ pos (tour_length (search_of self.now).given.distance (search_of self.now).best) }
    {
        self.state.shortest
    }

    /// The totals of the search so far.
    pub fn totals(&self) -> RingTotals
        ensures { result ≡ (search_of self.now).totals }
    {
        self.state.totals
    }
}
