//! Points in the plane.

use crate::given::expect;
use rand::RngExt;
use rand_pcg::Pcg32;
use std::alloc::Global;
use std::process::Abort;
use tk_metric::Planes;
use tk_text::{Places, PlaneKind, Point, Points, Unit};

/// One, in units of 10^-9.
pub const WHOLE: u32 = 1_000_000_000;

/// A part of one that is a whole number only of the unit 10^-9.
pub const PART: u32 = 300_000_001;

/// The maximum of a coordinate, in units of 10^-9.
pub const FAR: i64 = 1_000_000_000_000_000_000;

pub const ORIGIN: Point = Point { x: 0, y: 0 };

pub const SQUARE: [(u16, u16); 4] = [(0, 0), (10, 10), (10, 0), (0, 10)];

/// Sets a point of a list, and checks that its coordinates are within the limit.
pub fn put(rt: &impl Abort, points: &mut Points, index: usize, place: Point) {
    expect(rt, place.x.unsigned_abs() <= FAR as u64);
    expect(rt, place.y.unsigned_abs() <= FAR as u64);
    expect(rt, index < points.len());
    points.set(index, place).expect(rt, "memory for places");
}

/// This many points at the origin.
pub fn at_origin(rt: &impl Abort, alloc: Global, count: usize) -> Points {
    Points::at_origin(alloc, count).expect(rt, "memory for places")
}

/// The points with these coordinates, in units of 10^-9.
pub fn points_of(rt: &impl Abort, alloc: Global, places: &[Point]) -> Points {
    let mut points = at_origin(rt, alloc, places.len());
    for (i, place) in places.iter().enumerate() {
        put(rt, &mut points, i, *place);
    }
    points
}

/// The point of a corner whose coordinates are whole numbers of a unit.
fn place((x, y): (u16, u16), unit: u32) -> Point {
    let unit = unit as i64;
    Point {
        x: unit.wrapping_mul(x as i64),
        y: unit.wrapping_mul(y as i64),
    }
}

/// The points of corners.
pub fn places(rt: &impl Abort, alloc: Global, corners: &[(u16, u16)], unit: u32) -> Points {
    let mut points = at_origin(rt, alloc, corners.len());
    for (i, corner) in corners.iter().enumerate() {
        put(rt, &mut points, i, place(*corner, unit));
    }
    points
}

/// 300 points in a box; some of them can occur more than once.
pub fn random_places(
    rt: &impl Abort,
    alloc: Global,
    (wide, tall): (u16, u16),
    unit: u32,
) -> Points {
    expect(rt, 1 <= wide);
    expect(rt, 1 <= tall);
    let mut points = at_origin(rt, alloc, 300);
    let mut state: u64 = 20250101;
    for i in 0..300 {
        state = state
            .wrapping_mul(6364136223846793005)
            .wrapping_add(1442695040888963407);
        let x = (state >> 33) % wide as u64;
        let y = (state >> 48) % tall as u64;
        put(rt, &mut points, i, place((x as u16, y as u16), unit));
    }
    points
}

/// This many points at random corners of a square of a hundred by a hundred.
pub fn drawn_places(rt: &impl Abort, alloc: Global, count: u32, rng: &mut Pcg32) -> Points {
    let mut points = at_origin(rt, alloc, count as usize);
    for i in 0..count {
        let (x, y) = (rng.random_range(0..=99u16), rng.random_range(0..=99u16));
        put(rt, &mut points, i as usize, place((x, y), WHOLE));
    }
    points
}

/// The unit in which a list stores its points; `None` for units of 10^-9.
pub fn unit_of(points: &Points) -> Option<Unit> {
    match points.places() {
        Places::Whole(unit, _) => Some(unit),
        Places::Fine(_) => None,
    }
}

/// The distances of a type among at most 300 points.
pub fn planes_of<'a>(rt: &impl Abort, kind: PlaneKind, points: &'a Points) -> Planes<'a> {
    expect(rt, points.len() <= 300);
    Planes::new(kind, points)
}
