//! Known nearest-neighbour tours.

use crate::given::{expect, expect_list, triangle};
use crate::places::{SQUARE, WHOLE, places, planes_of};
use std::alloc::Global;
use std::process::Abort;
use tk_build::{nearest, nearest_tour, nearest_tours_agree, nearest_tree};
use tk_metric::{BothAxes, Metric, Planes, Table};
use tk_text::PlaneKind;

/// Checks that the tours by a scan and by a tree are this one. They are equal by the law that nearest-neighbour tours
/// agree.
fn expect_in_plane<P: BothAxes>(
    rt: &impl Abort,
    alloc: Global,
    metric: &P,
    start: u32,
    want: &[u32],
) {
    expect(rt, 1 <= start);
    expect(rt, start <= metric.size());
    let tour = nearest(alloc, metric, start).expect(rt, "memory for a tour");
    let found = nearest_tree(alloc, metric, start).expect(rt, "memory for a tour");
    nearest_tours_agree(metric, start, &tour, &found);
    expect_list(rt, &tour, want);
    expect_list(rt, &found, want);
}

/// Checks that the tour of a table is this one.
fn expect_of_table(rt: &impl Abort, alloc: Global, planes: Planes<'_>, start: u32, want: &[u32]) {
    expect(rt, 1 <= start);
    expect(rt, start <= planes.size());
    let table = Table::Planes(planes);
    let found = nearest_tour(alloc, &table, start).expect(rt, "memory for a tour");
    expect_list(rt, &found, want);
}

/// Checks that the tours by a scan, by a tree and of a table are this one.
fn expect_tour(rt: &impl Abort, alloc: Global, corners: &[(u16, u16)], start: u32, want: &[u32]) {
    let points = places(rt, alloc, corners, WHOLE);
    let planes = planes_of(rt, PlaneKind::Euc2d, &points);
    expect_in_plane(rt, alloc, &planes, start, want);
    expect_of_table(rt, alloc, planes, start, want);
}

/// Five cities in a line.
const LINE: &[(u16, u16)] = &[(0, 0), (1, 0), (2, 0), (3, 0), (4, 0)];

/// Cities, the start of a tour, and the tour.
static TOURS: [(&[(u16, u16)], u32, &[u32]); 4] = [
    (&SQUARE, 1, &[1, 3, 2, 4]),
    (&[(0, 0), (10, 10)], 2, &[2, 1]),
    (LINE, 1, &[1, 2, 3, 4, 5]),
    (LINE, 3, &[3, 2, 1, 4, 5]),
];

#[test]
fn in_the_plane(rt: HostRuntime) {
    for (corners, start, want) in &TOURS {
        expect_tour(&rt, rt.alloc(), corners, *start, want);
    }
}

/// The tours from each of four cities.
static FROM_EACH: [[u32; 4]; 4] = [[1, 3, 4, 2], [2, 1, 3, 4], [3, 1, 2, 4], [4, 3, 1, 2]];

/// Checks the tour from the first city of this one.
fn expect_from_first<M: Metric>(rt: &impl Abort, alloc: Global, metric: &M, want: &[u32; 4]) {
    let start = want[0];
    expect(rt, 1 <= start);
    expect(rt, start <= metric.size());
    let tour = nearest(alloc, metric, start).expect(rt, "memory for a tour");
    expect_list(rt, &tour, want);
}

#[test]
fn by_explicit_weights(rt: HostRuntime) {
    // from 3, cities 1 and 4 are at distance 2, and 2 at 7; from 4, cities 1 and 2 are at 9
    let metric = triangle(&rt, 4, &[5, 2, 7, 9, 9, 2]);
    for want in &FROM_EACH {
        expect_from_first(&rt, rt.alloc(), &metric, want);
    }
}
