//! Worked examples of the savings algorithm.

use crate::given::{expect, expect_list, near_of, triangle};
use std::alloc::Global;
use std::process::Abort;
use tk_build::savings_lists;
use tk_metric::Metric;

/// The lists of the savings algorithm, with near lists of all other cities.
fn lists_of<M: Metric>(
    rt: &impl Abort,
    alloc: Global,
    metric: &M,
    hub: u32,
    loads: &[u32],
    capacity: u64,
) -> Vec<Vec<u32>> {
    let n = metric.size();
    expect(rt, 2 <= n);
    expect(rt, 1 <= hub);
    expect(rt, hub <= n);
    expect(rt, loads.len() == n as usize);
    let near = near_of(rt, alloc, metric, n - 1);
    savings_lists(alloc, metric, hub, loads, capacity, &near).expect(rt, "memory for lists")
}

/// Checks that the lists are these.
fn expect_each(rt: &impl Abort, lists: &[Vec<u32>], want: &[&[u32]]) {
    expect(rt, lists.len() == want.len());
    for k in 0..want.len() {
        expect_list(rt, &lists[k], want[k]);
    }
}

/// Checks that the lists around a hub, for cities with these loads, are those next to each capacity.
fn expect_lists<M: Metric>(
    rt: &impl Abort,
    alloc: Global,
    metric: &M,
    hub: u32,
    loads: &[u32],
    rows: &[(u64, &[&[u32]])],
) {
    for (capacity, want) in rows {
        let lists = lists_of(rt, alloc, metric, hub, loads, *capacity);
        expect_each(rt, &lists, *want);
    }
}

/// The distances of cities, a hub, the loads of the cities, and the lists next to each capacity.
type Row<'a> = (&'a [u32], u32, &'a [u32], &'a [(u64, &'a [&'a [u32]])]);

const ROWS: &[Row<'static>] = &[
    // (0,0) (10,0) (11,0) (-10,0) (-11,0), EUC_2D: savings 20 for 2-3 and 4-5, and 0 for all others
    (
        &[10, 11, 1, 10, 20, 21, 11, 21, 22, 1],
        1,
        &[0, 1, 1, 1, 1],
        &[
            (2, &[&[2, 3], &[4, 5]]),
            (4, &[&[2, 3], &[4, 5]]),
            (1, &[&[2], &[3], &[4], &[5]]),
        ],
    ),
    // UPPER_ROW 10 10 10 10 / 10 11 11 / 12 19 / 20
    (
        &[10, 10, 10, 10, 11, 12, 10, 11, 19, 20],
        1,
        &[0, 1, 1, 1, 1],
        &[(4, &[&[4, 2, 3, 5]])],
    ),
    // these weights times 150,000,000: the savings are too large for keys
    (
        &[
            1_500_000_000,
            1_500_000_000,
            1_500_000_000,
            1_500_000_000,
            1_650_000_000,
            1_800_000_000,
            1_500_000_000,
            1_650_000_000,
            2_850_000_000,
            3_000_000_000,
        ],
        1,
        &[0, 1, 1, 1, 1],
        &[(4, &[&[4, 2, 3, 5]])],
    ),
    // (10,0) (0,0) (11,0), EUC_2D
    (&[10, 1, 11], 2, &[1, 0, 1], &[(2, &[&[1, 3]])]),
];

#[test]
fn lists_around_a_hub(rt: HostRuntime) {
    for (weights, hub, loads, rows) in ROWS {
        expect(&rt, loads.len() <= 16);
        let metric = triangle(&rt, loads.len() as u32, weights);
        expect_lists(&rt, rt.alloc(), &metric, *hub, loads, rows);
    }
}
