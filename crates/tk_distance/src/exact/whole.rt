//! Distances of coordinates that are whole numbers of a unit, in 64 bits.
ghost use Rattle.std.specs.Prelude.{◌≡◌, ℕ, ◌+◌, ◌*◌, ◌<◌, ◌≤◌, ◌^◌, ◌↔◌, IsTrue, true};
ghost use Rattle.std.specs.Int.RustNames.{unsigned_abs};
ghost use Rattle.tk_problem.specs.declared.limits.TheConstants.{COORDINATE_LIMIT, DISTANCE_LIMIT};
ghost use Rattle.tk_distance.specs.Distance.{IsGreatest, IsLeast, IsDistance, IsDistanceOf, RootReaches, Covers, gap};
ghost use Rattle.tk_distance.specs.Distance.{square_sum};
ghost use Rattle.tk_problem.specs.Places.{scale};
ghost use Rattle.tk_problem.specs.Units.{place_in, step_of};

use crate::exact::guess::{near_root, rounded};
use crate::exact::short::{SHORT, short_root};
use crate::exact::units::{covering_square, rounded_length, rounding_square, square_at};
use tk_problem::{PlaneKind, Unit, WholePoint};

/// The distance of two points in whole numbers of a unit.
#[inline]
pub fn whole_between(kind: PlaneKind, unit: Unit, p: WholePoint, q: WholePoint) -> u64
    ensures distance { IsDistanceOf kind (place_in unit p) (place_in unit q) result }
    ensures limit { result ≤ DISTANCE_LIMIT }
{
    if let PlaneKind::Euc2d = kind {
        return nearest(rounding_square(unit, square_between(p, q)));
    }
    rarer_between(kind, unit, p, q)
}

/// Whether the distance of two points in whole numbers of a unit is below a bound.
#[inline]
pub fn is_whole_nearer(
    kind: PlaneKind,
    unit: Unit,
    p: WholePoint,
    q: WholePoint,
    bound: u64,
) -> bool
    requires { bound ≤ 4000000001 }
    ensures { (d : ℕ) → IsDistanceOf kind (place_in unit p) (place_in unit q) d → (IsTrue result ↔ (d < bound)) }
{
    if let PlaneKind::Euc2d = kind {
        return square_between(p, q) < square_at(unit, bound);
    }
    rarer_between(kind, unit, p, q) < bound
}

/// The square of the distance in the plane.
#[inline]
fn square_between(p: WholePoint, q: WholePoint) -> u64
    ensures value { result ≡ square_sum (gap p.x q.x) (gap p.y q.y) }
    ensures bound { result ≤ 8000000000000000000 }
{
    square_of(apart(p.x, q.x), apart(p.y, q.y))
}

/// The absolute difference of two coordinates.
#[inline]
fn apart(a: i32, b: i32) -> u64
    requires a { unsigned_abs a ≤ COORDINATE_LIMIT }
    requires b { unsigned_abs b ≤ COORDINATE_LIMIT }
    ensures value { result ≡ gap a b }
    ensures bound { result ≤ 2 * COORDINATE_LIMIT }
{
    (a as i64 - b as i64).unsigned_abs()
}

/// The distance of any type. It is kept apart because types other than EUC_2D are rare.
fn rarer_between(kind: PlaneKind, unit: Unit, p: WholePoint, q: WholePoint) -> u64
    ensures distance { IsDistanceOf kind (place_in unit p) (place_in unit q) result }
    ensures limit { result ≤ DISTANCE_LIMIT }
{
    whole_distance(kind, unit, apart(p.x, q.x), apart(p.y, q.y))
}

/// The distance of points whose coordinates differ by `dx` and `dy` units.
#[inline]
fn whole_distance(kind: PlaneKind, unit: Unit, dx: u64, dy: u64) -> u64
    requires x_near { dx ≤ 2 * COORDINATE_LIMIT }
    requires y_near { dy ≤ 2 * COORDINATE_LIMIT }
    ensures { IsDistance kind (dx * step_of unit) (dy * step_of unit) result }
{
    match kind {
        PlaneKind::Euc2d => nearest(rounding_square(unit, square_of(dx, dy))),
        PlaneKind::Ceil2d => ceiling(covering_square(unit, square_of(dx, dy))),
        PlaneKind::Man2d => rounded_length(unit, dx + dy),
        PlaneKind::Max2d => rounded_length(unit, dx.max(dy)),
        PlaneKind::Att => ceiling(covering_square(unit, square_of(dx, dy)).div_ceil(10)),
    }
}

/// The square of the distance in the plane.
#[inline]
fn square_of(dx: u64, dy: u64) -> u64
    requires x_near { dx ≤ 2 * COORDINATE_LIMIT }
    requires y_near { dy ≤ 2 * COORDINATE_LIMIT }
    ensures value { result ≡ square_sum dx dy }
    ensures bound { result ≤ 8000000000000000000 }
{
    dx * dx + dy * dy
}

/// The root of a square, rounded to the nearest.
#[inline]
fn nearest(square: u64) -> u64
    requires { square ≤ 8000000000000000000 }
    ensures { IsGreatest (RootReaches (square * (scale * scale))) result }
{
    if square < SHORT {
        let guess = short_root(square);
        if is_rounded_root(square, guess) {
            return guess;
        }
    }
    nearest_of_far(square)
}

/// Whether a number is the root of a square, rounded to the nearest.
#[inline]
fn is_rounded_root(square: u64, guess: u64) -> bool
    requires square { square ≤ 8000000000000000000 }
    requires guess { guess < 2 ^ 32 }
    ensures { result ≡ true → IsGreatest (RootReaches (square * (scale * scale))) guess }
{
    let middle = guess * guess;
    middle < square + guess.max(1) && square <= middle + guess
}

/// The root of a square, rounded to the nearest: of a large square, or of a small one whose estimate is wrong.
#[inline]
fn nearest_of_far(square: u64) -> u64
    requires { square ≤ 8000000000000000000 }
    ensures { IsGreatest (RootReaches (square * (scale * scale))) result }
{
    let guess = rounded(near_root(square));
    if is_rounded_root(square, guess) {
        guess
    } else {
        nearest_searched(square)
    }
}

/// The root of a square, rounded to the nearest, by an integer square root.
#[cold]
#[inline(never)]
fn nearest_searched(square: u64) -> u64
    requires { square ≤ 8000000000000000000 }
    ensures { IsGreatest (RootReaches (square * (scale * scale))) result }
{
    let root = square.isqrt();
    if root * root + root < square {
        root + 1
    } else {
        root
    }
}

/// The root of a square, rounded up.
#[inline]
fn ceiling(square: u64) -> u64
    requires { square ≤ 8000000000000000000 }
    ensures { IsLeast (Covers 1 (square * (scale * scale))) result }
{
    let guess = rounded(near_root(square));
    let middle = guess * guess;
    if middle + 1 < square + 2 * guess.max(1) && square <= middle + 2 * guess + 1 {
        if middle < square { guess + 1 } else { guess }
    } else {
        ceiling_searched(square)
    }
}

/// The root of a square, rounded up, by an integer square root.
#[cold]
#[inline(never)]
fn ceiling_searched(square: u64) -> u64
    requires { square ≤ 8000000000000000000 }
    ensures { IsLeast (Covers 1 (square * (scale * scale))) result }
{
    let root = square.isqrt();
    if root * root < square { root + 1 } else { root }
}
