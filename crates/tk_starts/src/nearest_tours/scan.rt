//! The nearest-neighbour tour by a scan of all unvisited cities.
ghost use Rattle.std.specs.Prelude.{ℕ, ◌-◌, ◌≤◌, ◌<◌, IfOk, length, slice_index};
ghost use Rattle.tk_distance.specs.Cities.{IsCity};
ghost use Rattle.tk_near.specs.Keeping.{rank, candidate};
ghost use Rattle.tk_tour.specs.Tour.{IsTour};
ghost use Rattle.tk_starts.specs.NearestTour.{IsNearestTour, IsNearestTo};

use std::alloc::{AllocError, Global};
use tk_distance::Metric;
use tk_near::measure;

/// The position, from j on, of the city that is nearest to the one before position j.
fn first_from<M: Metric>(metric: &M, cities: &[u32], j: usize) -> usize
    requires cities { (i : ℕ) → i < length cities.now → IsCity (M.size_of metric.now) (slice_index cities.now i) }
    requires low { 1 ≤ j }
    requires high { j < length cities.now }
    ensures from { j ≤ result }
    ensures within { result < length cities.now }
    ensures first { (i : ℕ) → j ≤ i → i < length cities.now
        → rank (candidate (M.distance metric.now) (slice_index cities.now (j - 1)) (slice_index cities.now result))
        ≤ rank (candidate (M.distance metric.now) (slice_index cities.now (j - 1)) (slice_index cities.now i)) }
{
    let here = cities[j - 1];
    let mut best = measure(metric, here, cities[j]);
    let mut at = j;
    for i in j + 1..cities.len() {
        let x = measure(metric, here, cities[i]);
        if x.is_before(best) {
            best = x;
            at = i;
        }
    }
    at
}

/// Puts the cities after the first one in order, each the nearest unvisited city of the one before it.
fn place_nearest<M: Metric>(metric: &M, cities: &mut Vec<u32>)
    requires size { 1 ≤ M.size_of metric.now }
    requires tour { IsNearestTo (M.distance metric.now) (M.size_of metric.now)
        (slice_index cities.old.items 0) 1 cities.old.items }
    ensures { IsNearestTo (M.distance metric.now) (M.size_of metric.now) (slice_index cities.old.items 0)
        (M.size_of metric.now) cities.new.items }
{
    for j in 1..cities.len() {
        let at = first_from(metric, cities.as_slice(), j);
        cities.swap(j, at);
    }
}

/// The nearest-neighbour tour: it begins at `start`, and each next city is the nearest unvisited one, with ties broken
/// by number. It computes n·(n-1)/2 distances.
///
/// # Errors
/// `AllocError` if memory runs out.
pub fn nearest<M: Metric>(alloc: Global, metric: &M, start: u32) -> Result<Vec<u32>, AllocError>
    requires { IsCity (M.size_of metric.now) start }
    ensures nearest { IfOk result (λ v. IsNearestTour (M.distance metric.now) (M.size_of metric.now) start v.items) }
    ensures tour { IfOk result (λ v. IsTour (M.size_of metric.now) v.items) }
{
    let mut cities = Vec::with_capacity(alloc, metric.size() as usize)?;
    for c in 1..metric.size() + 1 {
        cities.push(c)?;
    }
    cities.swap(0, start as usize - 1);
    place_nearest(metric, &mut cities);
    Ok(cities)
}
