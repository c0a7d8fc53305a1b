//! Inputs of tests: tours, near lists, and cities that are awake. A test fails if memory runs out.
ghost use Rattle.std.specs.Prelude.{◌≡◌, ◌≢◌, ◌≤◌, ◌<◌, true};
ghost use Rattle.tk_metric.specs.Near.{AreNearest};
ghost use Rattle.tk_tour.specs.ArrayTours.{order_of};

use std::alloc::Global;
use std::process::Abort;
use tk_descent::{Report, Waking};
use tk_metric::{Metric, Near, Triangle, near_scan};
use tk_tour::{ArrayTour, JournalTour, UndoStore};

/// Checks that a condition is true. The proof of a call is much shorter than that of an `assert!`.
pub fn expect(rt: &impl Abort, is: bool)
    ensures { is ≡ true }
{
    assert!(rt; is);
}

/// Checks that a list has these elements.
pub fn expect_list(rt: &impl Abort, list: &[u32], want: &[u32]) {
    expect(rt, list == want);
}

/// Eight cities in the order of their numbers.
pub const EIGHT: [u32; 8] = [1, 2, 3, 4, 5, 6, 7, 8];

/// The distances of at most 16 cities: the rows of the triangle below the diagonal, one after another.
pub fn triangle<'a>(rt: &impl Abort, n: u32, weights: &'a [u32]) -> Triangle<'a>
    ensures { result.n ≡ n }
{
    expect(rt, 1 <= n);
    expect(rt, n <= 16);
    expect(rt, weights.len() == (n * (n - 1) / 2) as usize);
    expect(rt, weights.iter().all(|weight| *weight <= 4_000_000_000));
    Triangle { n, weights }
}

/// The first n cities, in the order of their numbers.
pub fn first_cities(rt: &impl Abort, alloc: Global, n: u32) -> Vec<u32> {
    let mut cities = Vec::new(alloc);
    for k in 0..n {
        cities.push(k + 1).expect(rt, "memory for a list");
    }
    cities
}

/// A tour in the order of the list.
pub fn tour_of(rt: &impl Abort, alloc: Global, cities: &[u32]) -> ArrayTour
    ensures { order_of result ≡ cities.now }
{
    ArrayTour::from_list(alloc, cities).expect(rt, "a tour")
}

/// A tour with a journal of this many flips.
pub fn journal_of<S: UndoStore>(
    rt: &impl Abort,
    alloc: Global,
    tour: S,
    slots: u32,
) -> JournalTour<S> {
    JournalTour::new(alloc, tour, slots).expect(rt, "memory for a journal")
}

/// Checks that the canonical form of the tour is this list.
pub fn expect_printed(rt: &impl Abort, alloc: Global, tour: &ArrayTour, want: &[u32]) {
    let printed = tour.canonical(alloc).expect(rt, "memory for a list");
    expect_list(rt, &printed, want);
}

/// Checks that these are two different cities of a tour of n cities.
pub fn expect_two_cities(rt: &impl Abort, n: u32, a: u32, c: u32)
    ensures first { (1 ≤ a) × (a ≤ n) }
    ensures second { (1 ≤ c) × (c ≤ n) }
    ensures apart { a ≢ c }
{
    expect(rt, 1 <= a);
    expect(rt, a <= n);
    expect(rt, 1 <= c);
    expect(rt, c <= n);
    expect(rt, a != c);
}

/// Checks that near lists of n cities can have this length.
pub fn expect_width(rt: &impl Abort, n: u32, k: u32)
    ensures limits { (1 ≤ k) × (k ≤ 100) }
    ensures others { k < n }
{
    expect(rt, 1 <= k);
    expect(rt, k <= 100);
    expect(rt, k < n);
}

/// The near lists of all cities, with k cities each, by a scan.
pub fn near_of<M: Metric>(rt: &impl Abort, alloc: Global, metric: &M, k: u32) -> Near
    ensures size { result.size ≡ M.size_of metric.now }
    ensures width { result.width ≡ k }
    ensures near { AreNearest (M.distance metric.now) result }
{
    expect_width(rt, metric.size(), k);
    near_scan(alloc, metric, k).expect(rt, "memory for near lists")
}

/// This many cities, none of them awake.
pub fn none_awake(rt: &impl Abort, alloc: Global, n: u32) -> Waking
    ensures { result.size ≡ n }
{
    Waking::new(alloc, n).expect(rt, "memory for the cities awake")
}

/// This many cities, all of them awake.
pub fn all_awake(rt: &impl Abort, alloc: Global, n: u32) -> Waking
    ensures { result.size ≡ n }
{
    let mut waking = none_awake(rt, alloc, n);
    waking.wake_all();
    waking
}

/// This many cities, of which only city 2 is awake.
pub fn one_awake(rt: &impl Abort, alloc: Global, n: u32) -> Waking
    ensures { result.size ≡ n }
{
    let mut waking = none_awake(rt, alloc, n);
    expect(rt, 2 <= n);
    waking.wake(2);
    waking
}

/// Checks the lengths before and after a descent, and its moves, looks, tests and swaps.
pub fn expect_report(rt: &impl Abort, report: &Report, lengths: [i64; 2], counts: [u64; 4]) {
    expect(rt, [report.before, report.after] == lengths);
    expect(
        rt,
        [report.moves, report.looks, report.tests, report.swaps] == counts,
    );
}
