//! Random cities in a square, and a tour that goes up and down along strips of it.
ghost use Rattle.std.specs.Prelude.{◌≡◌, ◌<◌, ◌≤◌, IfOk, OnOk, length};

use crate::benchmarks::draws::draw_below;
use crate::benchmarks::places::whole;
use std::alloc::{AllocError, Global};
use tk_text::Points;

/// The side of the square.
const SIDE: u32 = 1_000_000;

/// The position of a city on the way along the strips.
#[derive(Clone, Copy)]
struct Stop {
    strip: u32,
    along: u32,
    city: u32,
}

/// A random coordinate.
fn coordinate(state: &mut u64) -> u32
    ensures { result < 1000000 }
{
    draw_below(state, SIDE)
}

/// The position on the way of a city with these coordinates.
fn stop_at(x: u32, y: u32, width: u32, city: u32) -> Stop
    requires y { y < 1000000 }
    requires width { 0 < width }
{
    let strip = x / width;
    let along = if strip % 2 == 0 { y } else { SIDE - y };
    Stop { strip, along, city }
}

/// Draws the point of a city, and adds its position on the way.
fn draw_city(
    points: &mut Points,
    stops: &mut Vec<Stop>,
    state: &mut u64,
    city: u32,
    width: u32,
) -> Result<(), AllocError>
    requires city { (1 ≤ city) × (city ≤ length points.old) }
    requires width { 0 < width }
    ensures { OnOk result (length points.new ≡ length points.old) }
{
    let x = coordinate(state);
    let y = coordinate(state);
    points.set(city as usize - 1, whole(x, y))?;
    stops.push(stop_at(x, y, width, city))?;
    Ok(())
}

/// Random cities, and the position of each on the way.
fn placed(alloc: Global, n: u32, width: u32) -> Result<(Points, Vec<Stop>), AllocError>
    requires { 0 < width }
    ensures { IfOk result (λ r. length r.0 ≡ n) }
{
    let mut points = Points::at_origin(alloc, n as usize)?;
    let mut stops = Vec::new(alloc);
    let mut state = 12345;
    for city in 0..n {
        draw_city(&mut points, &mut stops, &mut state, city + 1, width)?;
    }
    Ok((points, stops))
}

/// The cities of the stops, in the order of the way.
fn order_along(alloc: Global, stops: &mut [Stop]) -> Result<Vec<u32>, AllocError> {
    stops.sort_unstable_by_key(|s| (s.strip, s.along, s.city));
    cities_of(alloc, stops)
}

/// The cities of the stops.
fn cities_of(alloc: Global, stops: &[Stop]) -> Result<Vec<u32>, AllocError> {
    let mut cities = Vec::new(alloc);
    for stop in stops {
        cities.push(stop.city)?;
    }
    Ok(cities)
}

/// Random cities, and the tour along strips of this width.
pub fn along_strips(alloc: Global, n: u32, width: u32) -> Result<(Points, Vec<u32>), AllocError>
    requires { 0 < width }
    ensures { IfOk result (λ r. length r.0 ≡ n) }
{
    let (points, mut stops) = placed(alloc, n, width)?;
    let cities = order_along(alloc, &mut stops)?;
    Ok((points, cities))
}
