//! Points are stored as whole numbers until one of them has a fraction.

use crate::given::expect;
use crate::places::{FAR, ORIGIN, at_origin, put};
use tk_text::{Places, Point, Points};

const WHOLE: Point = Point {
    x: 7_000_000_000,
    y: -FAR,
};

const FINE: Point = Point { x: 5, y: FAR };

const FINE_LOW: Point = Point { x: -1, y: 0 };

/// Whether the points are stored as whole numbers.
fn are_whole(points: &Points) -> bool {
    matches!(points.places(), Places::Whole(..))
}

/// Whether these are the points, read one by one and from their list of places.
fn are_three(points: &Points, wanted: &[Point; 3]) -> bool {
    let places = points.places();
    if points.len() != 3 || places.len() != 3 {
        return false;
    }
    for index in 0..3 {
        if points.get(index) != wanted[index] || places.get(index) != wanted[index] {
            return false;
        }
    }
    true
}

#[test]
fn whole_until_a_fraction(rt: HostRuntime) {
    let mut points = at_origin(&rt, rt.alloc(), 3);
    put(&rt, &mut points, 1, WHOLE);
    expect(&rt, are_whole(&points));
    expect(&rt, are_three(&points, &[ORIGIN, WHOLE, ORIGIN]));
    put(&rt, &mut points, 2, FINE);
    expect(&rt, !are_whole(&points));
    put(&rt, &mut points, 0, FINE_LOW);
    expect(&rt, are_three(&points, &[FINE_LOW, WHOLE, FINE]));
}
