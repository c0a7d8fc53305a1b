//! The savings algorithm.
ghost use Rattle.std.specs.Prelude.{◌≡◌, ◌+◌, ◌≤◌, IfOk, [], length, vec_len, ◌∷◌};
ghost use Rattle.std.specs.List.{All, flat_map};
ghost use Rattle.tk_problem.specs.declared.limits.TheConstants.{CITY_LIMIT};
ghost use Rattle.tk_distance.specs.Cities.{IsCity};
ghost use Rattle.tk_tour.specs.Tour.{IsTour};
ghost use Rattle.tk_starts.specs.SavingsMerges.{AreLight, AreMerged, AreWithin, IsMergedTour};
ghost use Rattle.tk_starts.specs.PathEnds.{AreJoined, load_of, IsPairWithin};
ghost use Rattle.tk_starts.specs.Joints.{joints};

use crate::merges::pair_list::PairList;
use crate::merges::pairs::candidate_pairs;
use crate::merges::paths::Paths;
use std::alloc::{AllocError, Global};
use tk_distance::Metric;
use tk_near::Near;

/// Joins the pairs that are allowed to be joined, in their order, and returns the paths.
fn joined_paths(
    alloc: Global,
    loads: &[u32],
    capacity: u64,
    pairs: &PairList,
) -> Result<Paths, AllocError>
    requires limit { length loads.now ≤ CITY_LIMIT }
    requires within { All (IsPairWithin (length loads.now)) pairs.now }
    ensures sizes { IfOk result (λ p. (vec_len p.one ≡ length loads.now + 1) × (vec_len p.two ≡ length loads.now + 1)
        × (vec_len p.other ≡ length loads.now + 1) × (vec_len p.load ≡ length loads.now + 1)) }
    ensures joined { IfOk result (λ p. AreJoined (length loads.now) (load_of loads.now)
        (joints (load_of loads.now) (length loads.now) capacity [] pairs.now) p.one.items p.two.items p.other.items
        p.load.items) }
{
    let mut paths = Paths::new(alloc, loads)?;
    for k in 0..pairs.len() {
        let pair = pairs.at(k);
        if paths.may_join(&pair, capacity) {
            paths.join(pair.i, pair.j);
        }
    }
    Ok(paths)
}

/// The lists of the savings algorithm around a hub. Each other city begins as a list of its own. The pairs of near
/// cities then join lists at their ends, the largest saving first, if the total load is at most the capacity. Each list
/// begins at its smaller end, and the lists are ordered by first city.
///
/// # Errors
/// `AllocError` if memory runs out.
pub fn savings_lists<M: Metric>(
    alloc: Global,
    metric: &M,
    hub: u32,
    loads: &[u32],
    capacity: u64,
    near: &Near,
) -> Result<Vec<Vec<u32>>, AllocError>
    requires hub { IsCity (M.size_of metric.now) hub }
    requires size { near.now.size ≡ M.size_of metric.now }
    requires loads { length loads.now ≡ M.size_of metric.now }
    ensures lists { IfOk result (λ v. AreMerged M.Metric metric.now near.now hub loads.now capacity v.items) }
    ensures once { IfOk result (λ v. IsTour (M.size_of metric.now) (hub ∷ flat_map (λ x. x.items) v.items)) }
    ensures filled { IfOk result (λ v. All (λ list. 1 ≤ length list.items) v.items) }
    ensures within { AreLight (M.size_of metric.now) hub (load_of loads.now) capacity
        → IfOk result (λ v. AreWithin loads.now capacity v.items) }
{
    let pairs = candidate_pairs(alloc, metric, hub, near)?;
    let paths = joined_paths(alloc, loads, capacity, &pairs)?;
    let lists = paths.lists(alloc, hub)?;
    Ok(lists)
}

/// City 1, followed by the lists of the savings algorithm with hub 1 and without loads: a tour of all cities.
///
/// # Errors
/// `AllocError` if memory runs out.
pub fn savings_tour<M: Metric>(
    alloc: Global,
    metric: &M,
    near: &Near,
) -> Result<Vec<u32>, AllocError>
    requires some { 1 ≤ M.size_of metric.now }
    requires size { near.now.size ≡ M.size_of metric.now }
    ensures lists { IfOk result (λ v. IsMergedTour M.Metric metric.now near.now v.items) }
    ensures tour { IfOk result (λ v. IsTour (M.size_of metric.now) v.items) }
{
    let loads = vec![in alloc; 0; metric.size() as usize]?;
    let lists = savings_lists(alloc, metric, 1, &loads, 0, near)?;
    let mut tour = Vec::new(alloc);
    tour.push(1)?;
    for list in &lists {
        tour.extend_from_slice(list)?;
    }
    Ok(tour)
}
