//! Distances of coordinates in units of 10^-9, in 128 bits.
ghost use Rattle.std.specs.Prelude.{◌≡◌, ℕ, ◌+◌, ◌*◌, ◌^◌, ◌<◌, ◌≤◌, ◌↔◌, IsTrue};
ghost use Rattle.std.specs.Int.RustNames.{unsigned_abs};
ghost use Rattle.tk_problem.specs.declared.limits.TheConstants.{DISTANCE_LIMIT};
ghost use Rattle.tk_distance.specs.Distance.{gap, reach, square_sum, IsGreatest, IsLeast, IsDistance, IsDistanceOf};
ghost use Rattle.tk_distance.specs.Distance.{Reaches, RootReaches, Covers};
ghost use Rattle.tk_problem.specs.Places.{IsNearOrigin};

use crate::exact::guess::{
    PER_UNIT, PER_UNIT_AND_ROOT_OF_TEN, near_scaled_root, rounded, rounded_up,
};
use crate::exact::roots::root_up;
use tk_problem::{PlaneKind, Point};

const SCALE: u64 = tk_problem::SCALE as u64;

const HALF: u64 = SCALE / 2;

/// The distance of two points.
#[inline]
pub fn fine_between(kind: PlaneKind, p: Point, q: Point) -> u64
    requires p_near { IsNearOrigin p }
    requires q_near { IsNearOrigin q }
    ensures distance { IsDistanceOf kind p q result }
    ensures limit { result ≤ DISTANCE_LIMIT }
{
    if let PlaneKind::Euc2d = kind {
        return nearest(square_between(p, q));
    }
    fine_distance(kind, p.x.abs_diff(q.x), p.y.abs_diff(q.y))
}

/// Whether the distance of two points is below a bound.
#[inline]
pub fn is_fine_nearer(kind: PlaneKind, p: Point, q: Point, bound: u64) -> bool
    requires p_near { IsNearOrigin p }
    requires q_near { IsNearOrigin q }
    requires bound { bound ≤ 4000000001 }
    ensures { (d : ℕ) → IsDistanceOf kind p q d → (IsTrue result ↔ (d < bound)) }
{
    if let PlaneKind::Euc2d = kind {
        return is_root_below(square_between(p, q), bound);
    }
    fine_between(kind, p, q) < bound
}

/// Whether the root of a square, rounded to the nearest, is below a bound.
#[inline]
fn is_root_below(square: u128, bound: u64) -> bool
    requires { bound ≤ 4000000001 }
    ensures { (d : ℕ) → IsGreatest (RootReaches square) d → (IsTrue result ↔ (d < bound)) }
{
    let end = (bound * SCALE).saturating_sub(HALF) as u128;
    square < end * end
}

/// The square of the distance in the plane.
///
/// One difference is reversed: of two in the same form, LLVM makes a vector, only to take it apart for the products.
#[inline]
fn square_between(p: Point, q: Point) -> u128
    requires p_near { IsNearOrigin p }
    requires q_near { IsNearOrigin q }
    ensures value { result ≡ square_sum (gap p.x q.x) (gap p.y q.y) }
    ensures bound { result ≤ 2 * (reach * reach) }
{
    squared(p.x - q.x) + squared(q.y - p.y)
}

/// The square of a difference.
#[inline]
fn squared(difference: i64) -> u128
    requires { unsigned_abs difference ≤ reach }
    ensures value { result ≡ unsigned_abs difference * unsigned_abs difference }
    ensures bound { result ≤ reach * reach }
{
    let wide = difference as i128;
    (wide * wide) as u128
}

/// The distance of points whose coordinates differ by `dx` and `dy`.
pub fn fine_distance(kind: PlaneKind, dx: u64, dy: u64) -> u64
    requires x_near { dx ≤ reach }
    requires y_near { dy ≤ reach }
    ensures { IsDistance kind dx dy result }
{
    match kind {
        PlaneKind::Euc2d => nearest(square_of(dx, dy)),
        PlaneKind::Ceil2d => least(square_of(dx, dy), 1, PER_UNIT),
        PlaneKind::Man2d => rounded_length(dx + dy),
        PlaneKind::Max2d => rounded_length(dx.max(dy)),
        PlaneKind::Att => least(square_of(dx, dy), 10, PER_UNIT_AND_ROOT_OF_TEN),
    }
}

/// The distance of points that differ by `dx` in x and have the same y.
#[inline]
pub fn floor_distance(kind: PlaneKind, dx: u64) -> u64
    requires { dx ≤ reach }
    ensures { IsDistance kind dx 0 result }
{
    match kind {
        PlaneKind::Euc2d => rounded_length(dx),
        PlaneKind::Ceil2d => dx.div_ceil(SCALE),
        PlaneKind::Man2d => rounded_length(dx),
        PlaneKind::Max2d => rounded_length(dx),
        PlaneKind::Att => least(square_of(dx, 0), 10, PER_UNIT_AND_ROOT_OF_TEN),
    }
}

/// A length, rounded to the nearest.
#[inline]
fn rounded_length(length: u64) -> u64
    requires { length ≤ 2 * reach }
    ensures { IsGreatest (Reaches length) result }
{
    (length + HALF) / SCALE
}

/// The square of the distance in the plane.
#[inline]
fn square_of(dx: u64, dy: u64) -> u128
    requires x_near { dx ≤ reach }
    requires y_near { dy ≤ reach }
    ensures value { result ≡ square_sum dx dy }
    ensures bound { result ≤ 2 * (reach * reach) }
{
    (dx as u128) * (dx as u128) + (dy as u128) * (dy as u128)
}

/// The root of a square, rounded to the nearest.
#[inline]
fn nearest(square: u128) -> u64
    requires { square ≤ 2 * (reach * reach) }
    ensures { IsGreatest (RootReaches square) result }
{
    let guess = rounded(near_scaled_root(square, PER_UNIT));
    let middle = guess * SCALE;
    let low = middle.saturating_sub(HALF) as u128;
    let high = (middle + HALF) as u128;
    if low * low <= square && square < high * high {
        guess
    } else {
        nearest_searched(square)
    }
}

/// The root of a square, rounded to the nearest, by an integer square root.
#[cold]
#[inline(never)]
fn nearest_searched(square: u128) -> u64
    requires { square ≤ 2 * (reach * reach) }
    ensures { IsGreatest (RootReaches square) result }
{
    let root = square.isqrt() as u64;
    (root / HALF + 1) / 2
}

/// The root of `square / parts`, converted to ones and rounded up; `factor` is for the estimate.
#[inline]
fn least(square: u128, parts: u64, factor: u64) -> u64
    requires near { square ≤ 2 * (reach * reach) }
    requires some { 1 ≤ parts }
    requires few { parts ≤ 10 }
    ensures { IsLeast (Covers parts square) result }
{
    let guess = rounded_up(near_scaled_root(square, factor));
    if covers(guess, parts, square) && (guess == 0 || !covers(guess - 1, parts, square)) {
        guess
    } else {
        least_beside(square, parts, guess)
    }
}

/// The root of `square / parts` in ones, rounded up, which is usually the number after the estimate.
#[cold]
#[inline(never)]
fn least_beside(square: u128, parts: u64, guess: u64) -> u64
    requires near { square ≤ 2 * (reach * reach) }
    requires some { 1 ≤ parts }
    requires few { parts ≤ 10 }
    requires small { guess < 2 ^ 32 }
    ensures { IsLeast (Covers parts square) result }
{
    if !covers(guess, parts, square) && covers(guess + 1, parts, square) {
        guess + 1
    } else {
        least_searched(square, parts)
    }
}

/// Whether a number of ones is at least the root of `square / parts`.
#[inline]
fn covers(units: u64, parts: u64, square: u128) -> bool
    requires small { units ≤ 2 ^ 32 }
    requires few { parts ≤ 10 }
    ensures { IsTrue result ↔ Covers parts square units }
{
    let length = (units * SCALE) as u128;
    square <= parts as u128 * (length * length)
}

/// The root of `square / parts` in ones, rounded up, by an integer square root.
#[cold]
#[inline(never)]
fn least_searched(square: u128, parts: u64) -> u64
    requires near { square ≤ 2 * (reach * reach) }
    requires some { 1 ≤ parts }
    requires few { parts ≤ 10 }
    ensures { IsLeast (Covers parts square) result }
{
    let root = root_up(square.div_ceil(parts as u128));
    root.div_ceil(SCALE as u128) as u64
}
