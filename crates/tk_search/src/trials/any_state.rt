//! The state of a search, with the tour store that suits its number of cities.
ghost use Rattle.std.specs.Prelude.{◌≡◌, ◌≤◌, IfOk, length};
ghost use Rattle.tk_tour.specs.ArrayTours.{order_of};
ghost use Rattle.tk_search.specs.Searching.{IsBegun};

use crate::trials::descending::SearchRules;
use crate::trials::state::State;
use std::alloc::{AllocError, Global};
use tk_distance::Metric;
use tk_near::Near;
use tk_segments::SegmentTour;
use tk_tour::ArrayTour;

/// Tours of at least this many cities are stored in segments.
const MANY: usize = 8_000;

/// The state of a search. A tour of few cities is stored in an array, and one of many in an array that is divided into
/// segments.
#[derive(Drop)]
pub(crate) enum AnyState {
    Array(State<ArrayTour>),
    Segments(State<SegmentTour>),
}

impl AnyState {
    ghost use Rattle.tk_search.specs.SearchOf.{stands_at};
    ghost use Rattle.tk_search.specs.Standing.{IsValidState};

    /// The state before the first trial from a starting tour.
    ///
    /// # Errors
    /// `AllocError` if memory runs out; the starting tour is dropped then.
    pub(crate) fn new<M: Metric>(
        alloc: Global,
        metric: &M,
        near: &Near,
        start: ArrayTour,
        rules: SearchRules,
    ) -> Result<AnyState, AllocError>
        requires fits { (M.size_of metric.now ≡ length (order_of start)) × (near.now.size ≡ length (order_of start)) }
        requires most { (1 ≤ rules.or_segment) × (rules.or_segment ≤ 3) }
        ensures begun { IfOk result (λ s. IsBegun (stands_at (M.distance metric.now) near.now rules s)
            (M.distance metric.now) near.now rules (order_of start)) }
        ensures holds { IfOk result
            (λ s. IsValidState (M.size_of metric.now) (M.distance metric.now) near.now rules s) }
    {
        if start.order().len() < MANY {
            return Ok(AnyState::Array(State::new(alloc, metric, near, start, rules)?));
        }
        let Ok(tour) = SegmentTour::from_list(alloc, start.order()) else {
            return Err(AllocError);
        };
        Ok(AnyState::Segments(State::new(alloc, metric, near, tour, rules)?))
    }
}
