//! Estimates of the roots of small numbers. No contract says how close an estimate is: its callers check it.
ghost use Rattle.std.specs.Prelude.{◌<◌, ◌^◌};

use crate::exact::lines::LINES;

/// Below this, the estimate of a root is usually the root itself, rounded to the nearest.
pub const SHORT: u64 = 1 << 34;

/// Approximately the root of `n`, to 20 bits: a line gives the reciprocal of the root.
#[inline]
pub fn short_root(n: u64) -> u64
    ensures { result < 2 ^ 32 }
{
    let shift = (n | 1).leading_zeros() & 62;
    let m = n << shift;
    let top = m >> 32;
    let (start, fall) = LINES[(m >> 54) as usize];
    let reciprocal = (start as u64).wrapping_sub((top * fall as u64) >> 22);
    let twice = (top.wrapping_mul(reciprocal) >> 29) >> (shift / 2);
    (twice.wrapping_add(1) >> 1) & 0xffff_ffff
}
