//! Points of cities that are easy or hard for near lists and starting tours.
ghost use Rattle.std.specs.Prelude.{◌≡◌, ◌≤◌, IfOk, length};
ghost use Rattle.tk_text.specs.Places.{IsNearOrigin};

use crate::benchmarks::draws::draw;
use std::alloc::{AllocError, Global};
use tk_text::{COORDINATE_LIMIT, Point, Points, SCALE};

/// The distribution of the cities.
#[derive(Clone, Copy)]
pub enum Input {
    /// Anywhere in a square.
    Uniform,
    /// At one point.
    OnePlace,
    /// In rows of 316, so that 100,000 cities fill a square.
    Lattice,
    /// On two axes.
    Axes,
    /// In two columns that are 10^9 apart.
    Columns,
    /// In 30 clusters.
    Clusters,
    /// Near a diagonal.
    Diagonal,
    /// Anywhere in a square, with nine decimals.
    Decimals,
}

/// The point with these whole coordinates.
pub fn whole(x: u32, y: u32) -> Point
    requires { (x ≤ COORDINATE_LIMIT) × (y ≤ COORDINATE_LIMIT) }
    ensures { IsNearOrigin result }
{
    Point {
        x: x as i64 * SCALE,
        y: y as i64 * SCALE,
    }
}

/// The point of city i + 1, given two random numbers.
fn place(input: Input, i: u32, r: u32, s: u32) -> Point
    requires { (i ≤ 1000000) × (r ≤ 2147483647) × (s ≤ 2147483647) }
    ensures { IsNearOrigin result }
{
    let x = r % 1_000_000;
    let y = s % 1_000_000;
    match input {
        Input::Uniform => whole(x, y),
        Input::OnePlace => whole(7, 7),
        Input::Lattice => whole(i % 316, i / 316),
        Input::Axes => { if i % 2 == 0 { whole(x, 0) } else { whole(0, y) } }
        Input::Columns => whole(i % 2 * 1_000_000_000, i / 2),
        Input::Clusters => whole(
            i % 30 * 377_777 % 1_000_000 + x % 20_000,
            i % 30 * 611_953 % 1_000_000 + y % 20_000,
        ),
        Input::Diagonal => whole(x, x + y % 10),
        Input::Decimals => Point {
            x: r as i64 * 465_661,
            y: s as i64 * 465_661,
        },
    }
}

/// The points of this many cities.
pub fn sample(alloc: Global, count: u32, input: Input) -> Result<Points, AllocError>
    requires { count ≤ 1000000 }
    ensures { IfOk result (λ ps. length ps ≡ count) }
{
    let mut points = Points::at_origin(alloc, count as usize)?;
    let mut state = 20250101;
    for i in 0..count {
        let r = draw(&mut state);
        let s = draw(&mut state);
        points.set(i as usize, place(input, i, r, s))?;
    }
    Ok(points)
}
