//! The pairs of the savings rule, in their order.
ghost use Rattle.std.specs.Prelude.{◌≡◌, ◌≢◌, IfOk, IfSome};
ghost use Rattle.tk_distance.specs.Cities.{IsCity};
ghost use Rattle.tk_near.specs.Near.{near_of};
ghost use Rattle.tk_distance.specs.Holding.{holds};
ghost use Rattle.tk_starts.specs.HubDistances.{AreFromHub};
ghost use Rattle.tk_starts.specs.SavingPairs.{saving_of, AreSavingPairs, IsPair, IsPairOf};

use crate::merges::pair_list::PairList;
use std::alloc::{AllocError, Global};
use std::cmp::Reverse;
use tk_distance::Metric;
use tk_near::Near;

/// Two cities i < j and their saving: what the edge i-j costs less than the two trips to the hub that it replaces.
#[derive(Clone, Copy, PartialEq, Eq, PartialOrd, Ord, Drop)]
pub struct Pair {
    /// The saving; the largest comes first.
    pub saving: Reverse<u64>,
    /// The smaller city number.
    pub i: u32,
    /// The larger city number.
    pub j: u32,
}

/// The distance of each city from the hub, indexed by city number.
fn hub_distances<M: Metric>(alloc: Global, metric: &M, hub: u32) -> Result<Vec<u64>, AllocError>
    requires hub { IsCity (M.size_of metric.now) hub }
    ensures { IfOk result (λ v. AreFromHub (M.distance metric.now) (M.size_of metric.now) hub v.items) }
{
    let places = metric.size() as usize + 1;
    let mut distances = vec![in alloc; 0; places]?;
    for c in 1..places {
        distances[c] = metric.dist(hub, c as u32) as u64;
    }
    Ok(distances)
}

/// The saving of the edge i-j: what it costs less than the two trips to the hub that it replaces, or 0.
fn saving<M: Metric>(metric: &M, hub: u32, from_hub: &[u64], i: u32, j: u32) -> u64
    requires cities { IsCity (M.size_of metric.now) hub × IsCity (M.size_of metric.now) i
        × IsCity (M.size_of metric.now) j }
    requires from_hub { AreFromHub (M.distance metric.now) (M.size_of metric.now) hub from_hub.now }
    ensures { result ≡ saving_of (M.distance metric.now) hub i j }
{
    let apart = from_hub[i as usize] + from_hub[j as usize];
    apart.saturating_sub(metric.dist(i, j) as u64)
}

/// The pair of two cities, if neither is the hub and the saving is positive.
fn pair_of<M: Metric>(metric: &M, hub: u32, from_hub: &[u64], c: u32, d: u32) -> Option<Pair>
    requires cities { IsCity (M.size_of metric.now) hub × IsCity (M.size_of metric.now) c
        × IsCity (M.size_of metric.now) d }
    requires apart { c ≢ d }
    requires from_hub { AreFromHub (M.distance metric.now) (M.size_of metric.now) hub from_hub.now }
    ensures some { IfSome result (λ p. IsPair (M.distance metric.now) (M.size_of metric.now) hub p × IsPairOf c d p) }
    ensures all { (p : Pair) → IsPair (M.distance metric.now) (M.size_of metric.now) hub p → IsPairOf c d p
        → result ≡ Some p }
{
    let (i, j) = if c < d { (c, d) } else { (d, c) };
    let gain = saving(metric, hub, from_hub, i, j);
    if hub != i && hub != j && gain > 0 {
        Some(Pair {
            saving: Reverse(gain),
            i,
            j,
        })
    } else {
        None
    }
}

/// Whether city d is in the near list of city c. It reads the whole list, to need no branch.
fn is_near(near: &Near, c: u32, d: u32) -> bool
    requires { IsCity near.now.size c }
    ensures { result ≡ holds (near_of near.now c) d }
{
    let mut found = false;
    for city in near.of(c) {
        found = found | (*city == d);
    }
    found
}

/// The pairs of cities with a positive saving, without the hub, of which one city is in the near list of the other.
/// Each pair occurs once, in the order of the savings rule.
pub(crate) fn candidate_pairs<M: Metric>(
    alloc: Global,
    metric: &M,
    hub: u32,
    near: &Near,
) -> Result<PairList, AllocError>
    requires hub { IsCity (M.size_of metric.now) hub }
    requires size { near.now.size ≡ M.size_of metric.now }
    ensures { IfOk result (λ v. AreSavingPairs (M.distance metric.now) (near_of near.now)
        (M.size_of metric.now) hub v) }
{
    let from_hub = hub_distances(alloc, metric, hub)?;
    let mut pairs = PairList::new(alloc);
    for c in 1..metric.size() + 1 {
        for d in near.of(c) {
            if *d < c && is_near(near, *d, c) {
                continue;
            }
            if let Some(pair) = pair_of(metric, hub, &from_hub, c, *d) {
                pairs.push(pair)?;
            }
        }
    }
    pairs.put_in_order();
    Ok(pairs)
}
