//! A cache of edge lengths.
ghost use Rattle.std.specs.Prelude.{◌≡◌, ◌<◌, ◌≤◌, ◌-◌, [], ℕ, IfOk, pos};
ghost use Rattle.tk_problem.specs.declared.limits.TheConstants.{CANDIDATE_LIMIT};
ghost use Rattle.tk_distance.specs.Cities.{IsCity};
ghost use Rattle.tk_descent.specs.EdgeCache.{AreMeasured, AreTrueOf, IsMeasured, knows, candidates_of, edges_of};

use crate::candidate_cache::{CachedDistance, NO_DISTANCE};
use std::alloc::{AllocError, Global};
use tk_distance::Metric;

/// The maximum number of cities that have a cache. With more cities, it does not fit into the processor's cache
/// together with the coordinates and near lists, and reading it takes longer than the square roots that it saves.
const REMEMBERED: u32 = 10_000;

/// The maximum number of distances to candidates, for the same reason. If there are more, none is cached.
const CANDIDATES_REMEMBERED: usize = 100_000;

/// The entry of a city: two cities that have been its tour neighbours, and the distances to them. 0 means no city.
#[derive(Clone, Copy, Drop)]
pub(crate) struct CachedEdges {
    pub one: u32,
    pub other: u32,
    pub to_one: u32,
    pub to_other: u32,
}

impl CachedEdges {
    /// Whether the city is one of the two.
    #[inline(always)]
    fn knows(&self, city: u32) -> bool
        ensures { result ≡ knows self.now city }
    {
        city == self.one || city == self.other
    }
}

/// The lengths that a cache stores: for each city, two cities that have been its tour neighbours, and its candidates.
#[derive(Drop)]
pub(crate) struct Lengths {
    pub edges: Vec<CachedEdges>,
    pub candidates: Vec<CachedDistance>,
}

/// A cache of edge lengths: for each city, the distances to two cities that have been its tour neighbours, and to the
/// cities of its near list. Entries stay correct for their metric when the tour changes.
#[derive(Drop)]
pub struct EdgeCache {
    pub(crate) lengths: Option<Lengths>,
}

impl EdgeCache {
    /// A cache for n cities with near lists of this width, without entries. For more than 10,000 cities, nothing is
    /// cached, and for more than 100,000 candidates of all cities together, no distance to a candidate.
    ///
    /// # Errors
    /// `AllocError` if memory runs out.
    pub fn new(alloc: Global, n: u32, width: u32) -> Result<EdgeCache, AllocError>
        requires { width ≤ CANDIDATE_LIMIT }
        ensures { IfOk result (λ s. (distance : ℕ → ℕ → ℕ) → AreTrueOf distance s) }
    {
        if n > REMEMBERED {
            return Ok(EdgeCache::none());
        }
        let none = CachedEdges {
            one: 0,
            other: 0,
            to_one: 0,
            to_other: 0,
        };
        let wanted = n as usize * width as usize;
        let stored = if wanted <= CANDIDATES_REMEMBERED {
            wanted
        } else {
            0
        };
        Ok(EdgeCache {
            lengths: Some(Lengths {
                edges: vec![in alloc; none; n as usize]?,
                candidates: vec![in alloc; NO_DISTANCE; stored]?,
            }),
        })
    }

    /// A cache that never has entries.
    pub fn none() -> EdgeCache
        ensures edges { edges_of result ≡ [] }
        ensures candidates { candidates_of result ≡ [] }
    {
        EdgeCache { lengths: None }
    }

    /// Takes the cache, and leaves one that never has entries.
    pub fn take(&mut self) -> EdgeCache
        ensures taken { result ≡ self.old }
        ensures edges { edges_of self.new ≡ [] }
        ensures candidates { candidates_of self.new ≡ [] }
    {
        EdgeCache {
            lengths: self.lengths.take(),
        }
    }
}

/// The distance from c to a city. It is measured only if the entry of c does not have it.
#[inline(always)]
fn distance_to<M: Metric>(metric: &M, known: CachedEdges, c: u32, city: u32) -> u32
    requires from { IsCity (M.size_of metric.now) c }
    requires city { IsCity (M.size_of metric.now) city }
    requires known { IsMeasured (M.distance metric.now) c known }
    ensures { result ≡ M.distance metric.now c city }
{
    if city == known.one {
        known.to_one
    } else if city == known.other {
        known.to_other
    } else {
        metric.dist(c, city) as u32
    }
}

/// The distance from c to a city. It is measured only if it is not cached.
#[inline(always)]
pub(crate) fn step<M: Metric>(metric: &M, steps: &[CachedEdges], c: u32, city: u32) -> i64
    requires from { IsCity (M.size_of metric.now) c }
    requires city { IsCity (M.size_of metric.now) city }
    requires known { AreMeasured (M.distance metric.now) steps.now }
    ensures { result ≡ pos (M.distance metric.now c city) }
{
    let at = c as usize - 1;
    if at >= steps.len() {
        return metric.dist(c, city);
    }
    i64::from(distance_to(metric, steps[at], c, city))
}

/// The distances from c to the cities after and before it. They are cached if the cache has an entry for c.
#[inline(always)]
pub(crate) fn neighbour_distances<M: Metric>(
    metric: &M,
    steps: &mut [CachedEdges],
    c: u32,
    after: u32,
    before: u32,
) -> (i64, i64)
    requires from { IsCity (M.size_of metric.now) c }
    requires beside { IsCity (M.size_of metric.now) after × IsCity (M.size_of metric.now) before }
    requires known { AreMeasured (M.distance metric.now) steps.old }
    ensures after { result.0 ≡ pos (M.distance metric.now c after) }
    ensures before { result.1 ≡ pos (M.distance metric.now c before) }
    ensures known { AreMeasured (M.distance metric.now) steps.new }
{
    let at = c as usize - 1;
    if at >= steps.len() {
        return (metric.dist(c, after), metric.dist(c, before));
    }
    let known = steps[at];
    let to_after = distance_to(metric, known, c, after);
    let to_before = distance_to(metric, known, c, before);
    if !known.knows(after) || !known.knows(before) {
        steps[at] = CachedEdges {
            one: after,
            other: before,
            to_one: to_after,
            to_other: to_before,
        };
    }
    (i64::from(to_after), i64::from(to_before))
}
