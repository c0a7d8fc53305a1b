//! Known near lists. A sweep and a tree find the same lists as a scan.
ghost use Rattle.std.specs.Prelude.{◌≡◌};
ghost use Rattle.tk_metric.specs.Near.{AreNearest};

use crate::given::{expect, expect_list, expect_width, near_of, triangle};
use crate::places::{PART, SQUARE, WHOLE, places, planes_of, random_places};
use std::alloc::Global;
use std::process::Abort;
use tk_metric::{
    BothAxes, Metric, Near, Planar, Planes, Sub, SwappedAxes, Table, near_among, near_lists,
    near_lists_agree, near_sweep, near_tree, near_tree_among,
};
use tk_text::PlaneKind;

/// The near lists of all cities, with k cities each, by a sweep.
pub fn near_by_sweep<P: Planar>(rt: &impl Abort, alloc: Global, metric: &P, k: u32) -> Near {
    expect_width(rt, metric.size(), k);
    near_sweep(alloc, metric, k).expect(rt, "memory for near lists")
}

/// Like `near_by_sweep`, but by a tree.
fn near_by_tree<P: BothAxes>(rt: &impl Abort, alloc: Global, metric: &P, k: u32) -> Near
    ensures size { result.size ≡ P.size_of metric.now }
    ensures width { result.width ≡ k }
    ensures near { AreNearest (P.distance metric.now) result }
{
    expect_width(rt, metric.size(), k);
    near_tree(alloc, metric, k).expect(rt, "memory for near lists")
}

/// The near lists among the cities 1 to `among`, with k cities each.
fn near_among_first<M: Metric>(
    rt: &impl Abort,
    alloc: Global,
    metric: &M,
    among: u32,
    k: u32,
) -> Near {
    expect_width(rt, among, k);
    expect(rt, among <= metric.size());
    near_among(alloc, metric, among, k).expect(rt, "memory for near lists")
}

/// Like `near_among_first`, but by a tree.
fn near_among_by_tree<P: BothAxes>(
    rt: &impl Abort,
    alloc: Global,
    metric: &P,
    among: u32,
    k: u32,
) -> Near {
    expect_width(rt, among, k);
    expect(rt, among <= metric.size());
    near_tree_among(alloc, metric, among, k).expect(rt, "memory for near lists")
}

/// The near lists of a table, with k cities each.
fn near_of_table(rt: &impl Abort, alloc: Global, planes: Planes<'_>, k: u32) -> Near {
    expect_width(rt, planes.size(), k);
    near_lists(alloc, &Table::Planes(planes), k).expect(rt, "memory for near lists")
}

/// Checks that the near lists by a scan, by a tree and by a sweep along x are these, one after another. Those by a scan
/// and by a tree are equal by the law that near lists agree.
fn expect_in_plane<P: BothAxes>(rt: &impl Abort, alloc: Global, metric: &P, k: u32, want: &[u32]) {
    let scanned = near_of(rt, alloc, metric, k);
    let found = near_by_tree(rt, alloc, metric, k);
    for c in 1..metric.size() + 1 {
        near_lists_agree(metric, c, k, found.of(c), scanned.of(c));
    }
    expect_list(rt, scanned.entries(), want);
    expect_list(rt, found.entries(), want);
    expect_list(rt, near_by_sweep(rt, alloc, metric, k).entries(), want);
}

/// Like `expect_in_plane`, along x and along y; also checks that the near lists of a table are these.
fn expect_near(rt: &impl Abort, alloc: Global, planes: &Planes<'_>, k: u32, want: &[u32]) {
    expect_in_plane(rt, alloc, planes, k, want);
    expect_in_plane(rt, alloc, &SwappedAxes(planes), k, want);
    expect_list(rt, near_of_table(rt, alloc, *planes, k).entries(), want);
}

/// A distance type; corners as whole numbers of a unit, and this unit; the length of the near lists; and all lists, one
/// after another.
type Row<'a> = (PlaneKind, &'a [(u16, u16)], u32, u32, &'a [u32]);

fn expect_row(rt: &impl Abort, alloc: Global, row: &Row<'_>) {
    let points = places(rt, alloc, row.1, row.2);
    expect_near(rt, alloc, &planes_of(rt, row.0, &points), row.3, row.4);
}

fn expect_rows(rt: &impl Abort, alloc: Global, rows: &[Row<'_>]) {
    for row in rows {
        expect_row(rt, alloc, row);
    }
}

static EQUAL: [Row<'static>; 7] = [
    (PlaneKind::Euc2d, &[(0, 0), (5, 0)], PART, 1, &[2, 1]),
    (
        PlaneKind::Euc2d,
        &[(7, 7), (7, 7), (7, 7), (7, 7)],
        PART,
        2,
        &[2, 3, 1, 3, 1, 2, 1, 2],
    ),
    (
        PlaneKind::Euc2d,
        &SQUARE,
        WHOLE,
        2,
        &[3, 4, 3, 4, 1, 2, 1, 2],
    ),
    (
        PlaneKind::Euc2d,
        &SQUARE,
        WHOLE,
        3,
        &[3, 4, 2, 3, 4, 1, 1, 2, 4, 1, 2, 3],
    ),
    (
        PlaneKind::Euc2d,
        &[(5, 0), (0, 5), (0, 0)],
        WHOLE,
        1,
        &[3, 3, 1],
    ),
    (
        PlaneKind::Euc2d,
        &[(5, 0), (0, 5), (0, 0)],
        WHOLE,
        2,
        &[3, 2, 3, 1, 1, 2],
    ),
    // a tree splits between 5 and 6, which are as near to each other as to 4 and 7
    (
        PlaneKind::Euc2d,
        &[
            (0, 0),
            (1, 0),
            (2, 0),
            (3, 0),
            (4, 0),
            (5, 0),
            (6, 0),
            (7, 0),
            (8, 0),
            (9, 0),
        ],
        WHOLE,
        2,
        &[2, 3, 1, 3, 2, 4, 3, 5, 4, 6, 5, 7, 6, 8, 7, 9, 8, 10, 9, 8],
    ),
];

#[test]
fn equal_distances(rt: HostRuntime) {
    expect_rows(&rt, rt.alloc(), &EQUAL);
}

/// Checks the near lists of the corners of a square, with two cities each, after they are shortened to k cities.
fn expect_shortened<M: Metric>(rt: &impl Abort, alloc: Global, square: &M, k: u32, want: &[u32]) {
    let near = near_of(rt, alloc, square, 2);
    expect(rt, k <= 2);
    let shortened = near.shortened(alloc, k).expect(rt, "memory for near lists");
    expect(rt, shortened.width() == k);
    expect_list(rt, shortened.entries(), want);
}

#[test]
fn shortened_lists(rt: HostRuntime) {
    let points = places(&rt, rt.alloc(), &SQUARE, WHOLE);
    let square = planes_of(&rt, PlaneKind::Euc2d, &points);
    expect_shortened(&rt, rt.alloc(), &square, 2, &[3, 4, 3, 4, 1, 2, 1, 2]);
    expect_shortened(&rt, rt.alloc(), &square, 1, &[3, 3, 1, 1]);
    expect_shortened(&rt, rt.alloc(), &square, 0, &[]);
}

const CORNERS: &[(u16, u16)] = &[(0, 0), (3, 4), (5, 0)];

/// The distances 1-2, 1-3 and 2-3 of `CORNERS` are 5 5 4, 5 5 5, 7 5 6, 4 5 4 and 2 2 2.
static KINDS: [Row<'static>; 5] = [
    (PlaneKind::Euc2d, CORNERS, WHOLE, 1, &[2, 3, 2]),
    (PlaneKind::Ceil2d, CORNERS, WHOLE, 1, &[2, 1, 1]),
    (PlaneKind::Man2d, CORNERS, WHOLE, 1, &[3, 3, 1]),
    (PlaneKind::Max2d, CORNERS, WHOLE, 1, &[2, 1, 2]),
    (PlaneKind::Att, CORNERS, WHOLE, 1, &[2, 1, 1]),
];

#[test]
fn each_kind(rt: HostRuntime) {
    expect_rows(&rt, rt.alloc(), &KINDS);
}

/// A depot in the middle of a square, whose corners are customers 1 to 4 of the ring.
static CUSTOMERS: [(u16, u16); 5] = [(5, 5), (0, 0), (10, 10), (10, 0), (0, 10)];

/// How many elements are candidates, the length of the near lists, and all lists, one after another.
type Among<'a> = (u32, u32, &'a [u32]);

static AMONG: [Among<'static>; 5] = [
    (4, 1, &[3, 3, 1, 1, 1, 1, 1]),
    (4, 2, &[3, 4, 3, 4, 1, 2, 1, 2, 1, 2, 1, 2, 1, 2]),
    (
        4,
        3,
        &[
            3, 4, 2, 3, 4, 1, 1, 2, 4, 1, 2, 3, 1, 2, 3, 1, 2, 3, 1, 2, 3,
        ],
    ),
    (2, 1, &[2, 1, 1, 1, 1, 1, 1]),
    // with the first copy of the depot among them, it is the nearest of each customer
    (5, 1, &[5, 5, 5, 5, 1, 5, 5]),
];

/// Checks the near lists among the first elements.
fn expect_among<M: Metric>(rt: &impl Abort, alloc: Global, metric: &M, rows: &[Among<'_>]) {
    for row in rows {
        let near = near_among_first(rt, alloc, metric, row.0, row.1);
        expect_list(rt, near.entries(), row.2);
    }
}

/// Like `expect_among`, by a tree.
fn expect_among_by_tree<P: BothAxes>(
    rt: &impl Abort,
    alloc: Global,
    metric: &P,
    rows: &[Among<'_>],
) {
    for row in rows {
        let near = near_among_by_tree(rt, alloc, metric, row.0, row.1);
        expect_list(rt, near.entries(), row.2);
    }
}

/// Checks the near lists of a ring of four customers and three copies of the depot.
fn expect_of_ring<P: BothAxes>(rt: &impl Abort, alloc: Global, metric: &P) {
    expect(rt, metric.size() == 5);
    let ring = Sub::new(metric, &[2, 3, 4, 5, 1, 1, 1]);
    expect_among(rt, alloc, &ring, &AMONG);
    expect_among_by_tree(rt, alloc, &ring, &AMONG);
}

#[test]
fn copies_of_a_depot_are_in_no_list(rt: HostRuntime) {
    let points = places(&rt, rt.alloc(), &CUSTOMERS, WHOLE);
    expect_of_ring(&rt, rt.alloc(), &planes_of(&rt, PlaneKind::Euc2d, &points));
}

/// The distances 1-2: 4, 1-3: 9, 2-3: 7, 1-4: 1, 2-4: 5, 3-4: 5, 1-5: 3, 2-5: 3, 3-5: 2, 4-5: 6.
static WEIGHTS: [u32; 10] = [4, 9, 7, 1, 5, 5, 3, 3, 2, 6];

static AMONG_THREE: [Among<'static>; 1] = [(3, 2, &[2, 3, 1, 3, 2, 1, 1, 2, 3, 1])];

#[test]
fn near_customers_by_weights(rt: HostRuntime) {
    expect_among(&rt, rt.alloc(), &triangle(&rt, 5, &WEIGHTS), &AMONG_THREE);
}

/// A distance type, the width and the height of a box, a unit, and the length of the near lists.
type Boxed = (PlaneKind, (u16, u16), u32, u32);

static BOXES: [Boxed; 11] = [
    (PlaneKind::Euc2d, (1000, 1000), WHOLE, 5),
    (PlaneKind::Euc2d, (1000, 1), WHOLE, 7),
    (PlaneKind::Euc2d, (1000, 2), WHOLE, 100),
    (PlaneKind::Euc2d, (2, 1000), WHOLE, 7),
    (PlaneKind::Euc2d, (1, 1), WHOLE, 10),
    (PlaneKind::Euc2d, (17, 17), PART, 9),
    (PlaneKind::Euc2d, (60, 60), PART, 5),
    (PlaneKind::Ceil2d, (30, 30), PART, 5),
    (PlaneKind::Man2d, (40, 20), PART, 5),
    (PlaneKind::Max2d, (20, 40), WHOLE, 5),
    (PlaneKind::Att, (100, 100), WHOLE, 5),
];

/// Checks that the near lists of 300 points in a box agree.
fn expect_agreed(rt: &impl Abort, alloc: Global, row: &Boxed) {
    let points = random_places(rt, alloc, row.1, row.2);
    let planes = planes_of(rt, row.0, &points);
    let near = near_of_table(rt, alloc, planes, row.3);
    expect_in_plane(rt, alloc, &planes, row.3, near.entries());
}

#[test]
fn sweep_and_tree_agree_with_scan(rt: HostRuntime) {
    for row in &BOXES {
        expect_agreed(&rt, rt.alloc(), row);
    }
}
