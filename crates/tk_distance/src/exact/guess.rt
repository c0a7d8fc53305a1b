//! Estimates of roots, in integer arithmetic. No contract says how close an estimate is: its callers check it.
ghost use Rattle.std.specs.Prelude.{◌<◌, ◌^◌};

use crate::exact::lines::LINES;

/// Approximately the root of `m`, in units of 1/512. One of the two highest bits of `m` is set.
///
/// A line gives the reciprocal of the root to 20 bits, and then a step of Newton's method gives the root to 40 bits.
#[inline]
fn scaled_root(m: u64) -> u64 {
    let top = m >> 32;
    let (start, fall) = LINES[(m >> 54) as usize];
    let reciprocal = (start as u64).wrapping_sub((top * fall as u64) >> 22);
    let root = top.wrapping_mul(reciprocal) >> 30;
    let rest = m.wrapping_sub(root.wrapping_mul(root)).cast_signed() >> 18;
    let more = rest.wrapping_mul(reciprocal.cast_signed()) >> 36;
    (root << 9).wrapping_add(more.cast_unsigned())
}

/// Approximately 64 times the root of `n`.
#[inline]
pub fn near_root(n: u64) -> u64 {
    let shift = (n | 1).leading_zeros() & 62;
    scaled_root(n << shift) >> (shift / 2 + 3)
}

/// A number of 64ths rounded to the nearest, below 2^32.
#[inline]
pub fn rounded(parts: u64) -> u64
    ensures { result < 2 ^ 32 }
{
    (parts.wrapping_add(32) >> 6) & 0xffff_ffff
}

/// A number of 64ths rounded up, below 2^32.
#[inline]
pub fn rounded_up(parts: u64) -> u64
    ensures { result < 2 ^ 32 }
{
    (parts.wrapping_add(63) >> 6) & 0xffff_ffff
}

/// 2^93 divided by the length of a unit, for lengths in units of 10^-9.
pub const PER_UNIT: u64 = 9903520314283042199;

/// 2^93 divided by the length of a unit and by the root of 10.
pub const PER_UNIT_AND_ROOT_OF_TEN: u64 = 3131768104688099139;

/// Approximately 64 times the root of `square`, times `factor`, divided by 2^93.
#[inline]
pub fn near_scaled_root(square: u128, factor: u64) -> u64 {
    let (top, shift) = top_of(square);
    let length = ((scaled_root(top) as u128 * factor as u128) >> 64) as u64;
    length.wrapping_shr(shift / 2)
}

/// The highest bits of a square, after an even number of leading zeros, and that number.
#[inline]
fn top_of(square: u128) -> (u64, u32) {
    let high = (square >> 64) as u64;
    let low = (square & 0xffff_ffff_ffff_ffff) as u64;
    if high == 0 {
        let shift = (low | 1).leading_zeros() & 62;
        (low << shift, shift + 64)
    } else {
        let shift = high.leading_zeros() & 62;
        ((high << shift) | ((low >> 1) >> (63 - shift)), shift)
    }
}

/// Approximately the root of `x`: a step of Newton's method from the root of its highest bits.
#[inline]
pub fn near_wide_root(x: u128) -> u64 {
    let (top, shift) = top_of(x);
    let near = ((scaled_root(top) as u128) << 23).wrapping_shr(shift / 2);
    if near == 0 {
        return 0;
    }
    let next = near.wrapping_add(x / near) >> 1;
    if next > 0xffff_ffff_ffff_ffff {
        0xffff_ffff_ffff_ffff
    } else {
        next as u64
    }
}
