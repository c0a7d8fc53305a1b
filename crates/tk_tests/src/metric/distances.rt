//! Known distances.
use crate::given::{expect, triangle};
use crate::places::{FAR, ORIGIN, planes_of, points_of, unit_of};
use std::alloc::Global;
use std::process::Abort;
use tk_metric::{Metric, Planar, Sub, Table, root, root_up};
use tk_text::{FromRead, PlaneKind, Point, Points, Problem, read_problem};

/// Checks the lower bound of the distance of points that differ by this much in x.
fn expect_floor<P: Planar>(rt: &impl Abort, metric: &P, difference: u64, want: i64) {
    expect(rt, difference <= 2_000_000_000_000_000_000);
    expect(rt, metric.floor_x(difference) == want);
}

/// Types of distances, differences in x, and the lower bounds of the distances.
static FLOORS: [(PlaneKind, u64, i64); 5] = [
    (PlaneKind::Euc2d, 1_500_000_000, 2),
    (PlaneKind::Ceil2d, 1_000_000_001, 2),
    (PlaneKind::Man2d, 1_499_999_999, 1),
    (PlaneKind::Max2d, 2_000_000_000_000_000_000, 2_000_000_000),
    (PlaneKind::Att, 10_000_000_000, 4),
];

#[test]
fn floors(rt: HostRuntime) {
    let points = points_of(&rt, rt.alloc(), &[ORIGIN, ORIGIN]);
    for (kind, difference, want) in &FLOORS {
        expect_floor(&rt, &planes_of(&rt, *kind, &points), *difference, *want);
    }
}

const WHOLE: Point = Point {
    x: 7_000_000_000,
    y: -8_000_000_000,
};

const FINE: Point = Point { x: 5, y: -FAR };

/// Checks the third of three places, and the distance of the others.
fn expect_third<P: Planar>(rt: &impl Abort, planes: &P, third: Point) {
    expect(rt, planes.size() == 3);
    expect(rt, planes.place(3) == third);
    expect(rt, planes.dist(1, 2) == 11);
}

/// Checks that the origin and `WHOLE` are returned as they were stored, and that the third point is this one.
fn expect_places(rt: &impl Abort, points: &Points, third: Point) {
    expect(rt, points.len() == 3);
    expect(rt, points.get(0) == ORIGIN);
    expect(rt, points.get(1) == WHOLE);
    expect_third(rt, &planes_of(rt, PlaneKind::Euc2d, points), third);
}

/// Like `expect_places`; also checks whether the points are stored as whole numbers of a unit.
fn expect_stored(rt: &impl Abort, alloc: Global, third: Point, are_whole: bool) {
    let points = points_of(rt, alloc, &[ORIGIN, WHOLE, third]);
    expect(rt, unit_of(&points).is_some() == are_whole);
    expect_places(rt, &points, third);
}

#[test]
fn places_one_of_which_is_not_whole(rt: HostRuntime) {
    expect_stored(&rt, rt.alloc(), ORIGIN, true);
    expect_stored(&rt, rt.alloc(), FINE, false);
}

/// Checks the distances of these pairs of cities.
fn expect_pairs<M: Metric>(rt: &impl Abort, metric: &M, rows: &[(u32, u32, i64)]) {
    let n = metric.size();
    for (a, b, want) in rows {
        expect(rt, 1 <= *a);
        expect(rt, *a <= n);
        expect(rt, 1 <= *b);
        expect(rt, *b <= n);
        expect(rt, metric.dist(*a, *b) == *want);
    }
}

/// UPPER_ROW `1 2 3 4 5 6`, as the rows of the lower triangle.
const LOWER: [u32; 6] = [1, 2, 4, 3, 5, 6];

/// Pairs of four cities, and their distances.
static PAIRS: [(u32, u32, i64); 7] = [
    (1, 2, 1),
    (1, 3, 2),
    (4, 1, 3),
    (2, 3, 4),
    (4, 2, 5),
    (3, 4, 6),
    (3, 3, 0),
];

#[test]
fn explicit_weights(rt: HostRuntime) {
    let triangle = triangle(&rt, 4, &LOWER);
    expect(&rt, triangle.size() == 4);
    expect_pairs(&rt, &triangle, &PAIRS);
}

/// Checks the distances of some cities of a metric of four.
fn expect_some<M: Metric>(rt: &impl Abort, metric: &M) {
    expect(rt, metric.size() == 4);
    let some = Sub::new(metric, &[4, 2, 4]);
    expect(rt, some.size() == 3);
    expect_pairs(rt, &some, &[(1, 2, 5), (2, 3, 5), (1, 3, 0)]);
    expect(rt, Sub::new(metric, &[]).size() == 0);
}

#[test]
fn some_of_the_cities(rt: HostRuntime) {
    expect_some(&rt, &triangle(&rt, 4, &LOWER));
}

/// A problem text, the number of its cities, and a pair of them with its distance.
type Text<'a> = (&'a [u8], u32, (u32, u32, i64));

/// Checks that the table of a problem has this many cities, and this distance.
fn expect_table(rt: &impl Abort, problem: &Problem, size: u32, pair: (u32, u32, i64)) {
    let table = Table::of(problem);
    expect(rt, table.size() == size);
    expect_pairs(rt, &table, &[pair]);
}

fn expect_text(rt: &impl Abort, alloc: Global, (text, size, pair): &Text<'_>) {
    let problem = read_problem(alloc, &mut FromRead::new(*text)).expect(rt, "a problem");
    expect_table(rt, &problem, *size, *pair);
}

static TEXTS: [Text<'static>; 2] = [
    (
        b"TYPE : TSP\nDIMENSION : 4\nEDGE_WEIGHT_TYPE : EXPLICIT\nEDGE_WEIGHT_FORMAT : UPPER_ROW\n\
        EDGE_WEIGHT_SECTION 1 2 3 4 5 6\n",
        4,
        (4, 2, 5),
    ),
    (
        b"TYPE : TSP\nDIMENSION : 2\nEDGE_WEIGHT_TYPE : MAX_2D\nNODE_COORD_SECTION 1 0 0 2 3 4\n",
        2,
        (1, 2, 4),
    ),
];

#[test]
fn tables(rt: HostRuntime) {
    for text in &TEXTS {
        expect_text(&rt, rt.alloc(), text);
    }
}

/// Numbers with their roots rounded down and up.
static ROOTS: [(u128, u64, u128); 6] = [
    (0, 0, 0),
    (99, 9, 10),
    (100, 10, 10),
    (101, 10, 11),
    (8_000_000_000_000_000_000, 2_828_427_124, 2_828_427_125),
    (
        340_282_366_920_938_463_463_374_607_431_768_211_455,
        18_446_744_073_709_551_615,
        18_446_744_073_709_551_616,
    ),
];

#[test]
fn roots(rt: HostRuntime) {
    for (square, down, up) in &ROOTS {
        expect(&rt, root(*square) == *down);
        expect(&rt, root_up(*square) == *up);
    }
}
