//! Distances of coordinates with up to three decimals, which are stored as whole numbers of a unit. Each distance is
//! also computed from coordinates that are stored in units of 10^-9.
use crate::given::expect;
use crate::places::{ORIGIN, planes_of, points_of, unit_of};
use std::alloc::Global;
use std::process::Abort;
use tk_metric::Metric;
use tk_text::{PlaneKind, Point, Points, Unit};

/// A point whose coordinates are not all whole numbers of a unit.
const SPECK: Point = Point { x: 1, y: 0 };

static KINDS: [PlaneKind; 5] = [
    PlaneKind::Euc2d,
    PlaneKind::Ceil2d,
    PlaneKind::Man2d,
    PlaneKind::Max2d,
    PlaneKind::Att,
];

/// The unit in which two points are stored, the points in thousandths, and their distance by each type.
type Row = (Option<Unit>, (i64, i64), (i64, i64), [i64; 5]);

const ROWS: &[Row] = &[
    // whole numbers
    (Some(Unit::One), (0, 0), (3_000, 4_000), [5, 5, 7, 4, 2]),
    (Some(Unit::One), (0, 0), (1_000, 1_000), [1, 2, 2, 1, 1]),
    (Some(Unit::One), (0, 0), (1_000, 3_000), [3, 4, 4, 3, 1]),
    (
        Some(Unit::One),
        (0, 0),
        (10_000, 10_000),
        [14, 15, 20, 10, 5],
    ),
    (
        Some(Unit::One),
        (-1_000_000_000_000, -1_000_000_000_000),
        (1_000_000_000_000, 1_000_000_000_000),
        [
            2_828_427_125,
            2_828_427_125,
            4_000_000_000,
            2_000_000_000,
            894_427_191,
        ],
    ),
    // tenths
    (Some(Unit::Tenth), (0, 0), (1_500, 2_000), [3, 3, 4, 2, 1]),
    (Some(Unit::Tenth), (0, 0), (0, 500), [1, 1, 1, 1, 1]),
    (Some(Unit::Tenth), (0, 0), (1_200, 1_300), [2, 2, 3, 1, 1]),
    (Some(Unit::Tenth), (0, 0), (2_400, 2_500), [3, 4, 5, 3, 2]),
    (Some(Unit::Tenth), (0, 0), (300, 400), [1, 1, 1, 0, 1]),
    (Some(Unit::Tenth), (0, 0), (200, 400), [0, 1, 1, 0, 1]),
    (
        Some(Unit::Tenth),
        (7_000, -8_000),
        (2_500, 0),
        [9, 10, 13, 8, 3],
    ),
    (
        Some(Unit::Tenth),
        (-99_999_999_900, -100_000_000_000),
        (100_000_000_000, 100_000_000_000),
        [
            282_842_712,
            282_842_713,
            400_000_000,
            200_000_000,
            89_442_720,
        ],
    ),
    // hundredths
    (
        Some(Unit::Hundredth),
        (-1_250, 2_000),
        (1_250, 2_000),
        [3, 3, 3, 3, 1],
    ),
    (
        Some(Unit::Hundredth),
        (-1_250, 2_000),
        (1_240, 2_000),
        [2, 3, 2, 2, 1],
    ),
    (
        Some(Unit::Hundredth),
        (10, 0),
        (3_010, 4_000),
        [5, 5, 7, 4, 2],
    ),
    (
        Some(Unit::Hundredth),
        (10, 0),
        (3_020, 4_000),
        [5, 6, 7, 4, 2],
    ),
    (
        Some(Unit::Hundredth),
        (-9_999_999_990, -10_000_000_000),
        (10_000_000_000, 10_000_000_000),
        [28_284_271, 28_284_272, 40_000_000, 20_000_000, 8_944_272],
    ),
    // thousandths
    (
        Some(Unit::Thousandth),
        (1, 0),
        (1_501, 2_000),
        [3, 3, 4, 2, 1],
    ),
    (
        Some(Unit::Thousandth),
        (1, 0),
        (1_500, 2_000),
        [2, 3, 3, 2, 1],
    ),
    (Some(Unit::Thousandth), (1, -1), (-1, 1), [0, 1, 0, 0, 1]),
    (
        Some(Unit::Thousandth),
        (1, 0),
        (1_001, 3_000),
        [3, 4, 4, 3, 1],
    ),
    (
        Some(Unit::Thousandth),
        (1, 0),
        (1_002, 3_000),
        [3, 4, 4, 3, 2],
    ),
    (
        Some(Unit::Thousandth),
        (-999_999_999, -1_000_000_000),
        (1_000_000_000, 1_000_000_000),
        [2_828_427, 2_828_428, 4_000_000, 2_000_000, 894_428],
    ),
    // too far for their unit
    (
        None,
        (-100_000_000_100, 0),
        (100_000_000_000, 100_000_000_000),
        [
            223_606_798,
            223_606_798,
            300_000_000,
            200_000_000,
            70_710_679,
        ],
    ),
    (
        None,
        (-1_000_000_001, 5),
        (1_000_000_000, 1_000_000_000),
        [2_236_068, 2_236_068, 3_000_000, 2_000_000, 707_107],
    ),
    (
        None,
        (-999_999_999_999, -1_000_000_000_000),
        (1_000_000_000_000, 1_000_000_000_000),
        [
            2_828_427_125,
            2_828_427_125,
            4_000_000_000,
            2_000_000_000,
            894_427_191,
        ],
    ),
];

fn place_of((x, y): (i64, i64)) -> Point {
    Point {
        x: x.wrapping_mul(1_000_000),
        y: y.wrapping_mul(1_000_000),
    }
}

/// Checks the distance of the first two of three points by a metric, both by `dist` and by `is_nearer`.
fn expect_distance<M: Metric>(rt: &impl Abort, metric: &M, want: i64) {
    expect(rt, metric.size() == 3);
    expect(rt, metric.dist(1, 2) == want);
    expect(rt, metric.dist(2, 1) == want);
    expect(rt, metric.dist(2, 2) == 0);
    expect(rt, metric.is_nearer(1, 2, want.wrapping_add(1)));
    expect(rt, !metric.is_nearer(1, 2, want));
}

/// Like `expect_distance`, for a type of plane distances. Points in a unit have a metric of their own for EUC_2D.
fn expect_kind(rt: &impl Abort, points: &Points, unit: Option<Unit>, kind: PlaneKind, want: i64) {
    let planes = planes_of(rt, kind, points);
    expect_distance(rt, &planes, want);
    let own = kind == PlaneKind::Euc2d && unit.is_some();
    match planes.euclid() {
        Some(euclid) => {
            expect(rt, own);
            expect_distance(rt, &euclid, want);
        }
        None => expect(rt, !own),
    }
}

/// Checks the unit of three points, and the distance of the first two by each type.
fn expect_distances(rt: &impl Abort, points: &Points, unit: Option<Unit>, distances: &[i64; 5]) {
    expect(rt, unit_of(points) == unit);
    for k in 0..5 {
        expect_kind(rt, points, unit, KINDS[k], distances[k]);
    }
}

/// Checks the distances of the first two of three points, and the unit in which these are stored.
fn expect_stored(
    rt: &impl Abort,
    alloc: Global,
    points: [Point; 3],
    unit: Option<Unit>,
    distances: &[i64; 5],
) {
    let points = points_of(rt, alloc, &points);
    expect_distances(rt, &points, unit, distances);
}

/// Checks the distances of a row, in its unit and in units of 10^-9.
fn expect_row(rt: &impl Abort, alloc: Global, (unit, from, to, distances): &Row) {
    let (from, to) = (place_of(*from), place_of(*to));
    expect_stored(rt, alloc, [from, to, ORIGIN], *unit, distances);
    expect_stored(rt, alloc, [from, to, SPECK], None, distances);
}

#[test]
fn distances_in_each_unit(rt: HostRuntime) {
    for row in ROWS {
        expect_row(&rt, rt.alloc(), row);
    }
}

const HALF: Point = Point {
    x: 0,
    y: 499_999_999,
};

#[test]
fn just_less_than_a_half(rt: HostRuntime) {
    expect_stored(
        &rt,
        rt.alloc(),
        [ORIGIN, HALF, ORIGIN],
        None,
        &[0, 1, 0, 0, 1],
    );
}
