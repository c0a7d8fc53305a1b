//! Near lists by a sweep in x order.
ghost use Rattle.std.specs.Prelude.{◌≡◌, ◌*◌, ◌≤◌, ◌<◌, ◌↔◌, IfOk, length, IsTrue, MatchBool, ⊤};
ghost use Rattle.tk_problem.specs.declared.limits.TheConstants.{CANDIDATE_LIMIT};
ghost use Rattle.tk_distance.specs.Distance.{reach};
ghost use Rattle.tk_near.specs.Near.{IsNear, AreNearLists};
ghost use Rattle.tk_near.specs.Keeping.{AreFilled, rank, Climbing, with_candidate, candidate, cities_kept};
ghost use Rattle.tk_near.specs.CityPoint.{IsPlaced, placed_city, x_gap};
ghost use Rattle.tk_near.specs.Sweep.{IsXOrder, IsSwept, IsBelow};

use crate::candidates::{Candidate, EMPTY, comes_before, keep, measure, write_cities};
use crate::near::{Near, room_for};
use crate::plane::city_point::{CityPoint, row_of};
use std::alloc::{AllocError, Global};
use tk_distance::Planar;

/// The cities with their coordinates, in x order.
///
/// # Errors
/// `AllocError` if memory runs out.
pub fn order_by_x<P: Planar>(alloc: Global, m: &P) -> Result<Vec<CityPoint>, AllocError>
    ensures { IfOk result (λ v. IsXOrder (P.size_of m.now) (P.place_of m.now) v.items) }
{
    let mut row = row_of(alloc, m)?;
    row.sort_unstable_by_key(|p| (p.place.x, p.city));
    Ok(row)
}

/// Whether no city at this difference in x can be as near as the last candidate kept.
fn is_far<P: Planar>(m: &P, difference: u64, kept: &[Candidate]) -> bool
    requires difference { difference ≤ reach }
    requires room { 1 ≤ length kept.now }
    ensures { IsTrue result ↔ IsBelow (P.floor m.now difference) kept.now }
{
    let last = kept[kept.len() - 1];
    m.floor_x(difference) > last.distance as i64
}

/// Keeps a city if it is near enough. Returns `false` if it is too far in x, as are all cities beyond it.
#[inline]
fn meet<P: Planar>(m: &P, here: CityPoint, there: CityPoint, kept: &mut [Candidate]) -> bool
    requires here { IsPlaced (P.size_of m.now) (P.place_of m.now) here }
    requires there { IsPlaced (P.size_of m.now) (P.place_of m.now) there }
    requires room { 1 ≤ length kept.old }
    requires climbing { Climbing rank kept.old }
    ensures { MatchBool result
        (kept.new ≡ with_candidate (candidate (P.distance m.now) here.city there.city) kept.old)
        ((kept.new ≡ kept.old) × IsBelow (P.floor m.now (x_gap here there)) kept.old) }
{
    if is_far(m, here.gap_x(there), kept) {
        return false;
    }
    if comes_before(m, here.city, there.city, kept[kept.len() - 1]) {
        keep(kept, measure(m, here.city, there.city));
    }
    true
}

/// Visits the next city to the left. Returns the new left end of the swept range, or 0 if all cities beyond are too
/// far.
fn sweep_down<P: Planar>(
    m: &P,
    row: &[CityPoint],
    p: usize,
    low: usize,
    high: usize,
    kept: &mut [Candidate],
) -> usize
    requires order { IsXOrder (P.size_of m.now) (P.place_of m.now) row.now }
    requires left { 0 < low }
    requires room { 1 ≤ length kept.old }
    requires swept { IsSwept (P.distance m.now) row.now p low high (length kept.old) kept.old }
    ensures less { result < low }
    ensures size { length kept.new ≡ length kept.old }
    ensures swept { IsSwept (P.distance m.now) row.now p result high (length kept.old) kept.new }
{
    if meet(m, row[p], row[low - 1], kept) {
        low - 1
    } else {
        0
    }
}

/// Visits the next city to the right. Returns the new right end of the swept range, or the end of the row if all cities
/// beyond are too far.
fn sweep_up<P: Planar>(
    m: &P,
    row: &[CityPoint],
    p: usize,
    low: usize,
    high: usize,
    kept: &mut [Candidate],
) -> usize
    requires order { IsXOrder (P.size_of m.now) (P.place_of m.now) row.now }
    requires right { high < length row.now }
    requires room { 1 ≤ length kept.old }
    requires swept { IsSwept (P.distance m.now) row.now p low high (length kept.old) kept.old }
    ensures more { high < result }
    ensures size { length kept.new ≡ length kept.old }
    ensures swept { IsSwept (P.distance m.now) row.now p low result (length kept.old) kept.new }
{
    if meet(m, row[p], row[high], kept) {
        high + 1
    } else {
        row.len()
    }
}

/// Finds the nearest other cities of the city at position p, as many as there is room for.
fn sweep_city<P: Planar>(m: &P, row: &[CityPoint], p: usize, kept: &mut [Candidate])
    requires order { IsXOrder (P.size_of m.now) (P.place_of m.now) row.now }
    requires place { p < length row.now }
    requires low { 1 ≤ length kept.old }
    requires high { length kept.old < P.size_of m.now }
    ensures size { length kept.new ≡ length kept.old }
    ensures near { IsNear (P.distance m.now) (P.size_of m.now) (length kept.old) (placed_city row.now p)
        (cities_kept kept.new) }
{
    kept.fill(EMPTY);
    let mut low = p;
    let mut high = p + 1;
    while low > 0 || high < row.len() {
        if low > 0 {
            low = sweep_down(m, row, p, low, high, kept);
        }
        if high < row.len() {
            high = sweep_up(m, row, p, low, high, kept);
        }
    }
}

/// Fills the list of each city, in x order.
fn fill_lists<P: Planar>(m: &P, row: &[CityPoint], kept: &mut [Candidate], entries: &mut [u32])
    requires order { IsXOrder (P.size_of m.now) (P.place_of m.now) row.now }
    requires low { 1 ≤ length kept.old }
    requires high { length kept.old < P.size_of m.now }
    requires room { length entries.old ≡ P.size_of m.now * length kept.old }
    ensures { AreFilled (P.distance m.now) (P.size_of m.now) (length kept.old) (λ _. ⊤) entries.new }
{
    for p in 0..row.len() {
        sweep_city(m, row, p, kept);
        write_cities(entries, row[p].city, kept);
    }
}

/// The near lists, by a sweep from each city in both directions of the x order. It is slow if many cities have almost
/// the same x; if they differ more in y, wrap the metric in [`SwappedAxes`](tk_distance::SwappedAxes).
///
/// # Errors
/// `AllocError` if memory runs out.
pub fn near_sweep<P: Planar>(alloc: Global, m: &P, k: u32) -> Result<Near, AllocError>
    requires low { 1 ≤ k }
    requires limit { k ≤ CANDIDATE_LIMIT }
    requires high { k < P.size_of m.now }
    ensures { IfOk result (AreNearLists (P.distance m.now) (P.size_of m.now) k) }
{
    let row = order_by_x(alloc, m)?;
    let mut kept = vec![in alloc; EMPTY; k as usize]?;
    let mut entries = room_for(alloc, m, k)?;
    fill_lists(m, &row, &mut kept, &mut entries);
    Ok(Near::from_filled(m, k, entries))
}
