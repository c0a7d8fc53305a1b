//! Lengths and squares in whole numbers of a unit, converted to ones.
ghost use Rattle.std.specs.Prelude.{◌≡◌, ◌≢◌, ℕ, ◌-◌, ◌*◌, ◌≤◌, ◌↔◌, min};
ghost use Rattle.tk_distance.specs.Distance.{IsGreatest, PartsRoots, Reaches, RoundAlike, reach};
ghost use Rattle.tk_problem.specs.Places.{scale};
ghost use Rattle.tk_problem.specs.Units.{step_of};
ghost use Rattle.tk_problem.specs.declared.unit.Unit.TheVariants.{One};

use tk_problem::Unit;

/// A square in ones whose root, rounded to the nearest, equals that of a square in a unit.
#[inline]
pub fn rounding_square(unit: Unit, square: u64) -> u64
    requires { square ≤ 8000000000000000000 }
    ensures alike { RoundAlike (square * (step_of unit * step_of unit)) (result * (scale * scale)) }
    ensures bound { result ≤ 8000000000000000000 }
{
    match unit {
        Unit::One => square,
        Unit::Tenth | Unit::Hundredth | Unit::Thousandth => rounding_square_of_parts(unit, square),
    }
}

/// A square in ones whose root, rounded to the nearest, equals that of a square in a unit that is a part of 1. This is
/// a function of its own because whole numbers are the most frequent and need no jump table.
#[inline(never)]
fn rounding_square_of_parts(unit: Unit, square: u64) -> u64
    requires { square ≤ 8000000000000000000 }
    ensures alike { RoundAlike (square * (step_of unit * step_of unit)) (result * (scale * scale)) }
    ensures bound { result ≤ 8000000000000000000 }
{
    match unit {
        Unit::One => square,
        Unit::Tenth => (square + 75) / 100,
        Unit::Hundredth => (square + 7_500) / 10_000,
        Unit::Thousandth => (square + 750_000) / 1_000_000,
    }
}

/// A bound for squares in a unit: a square is less exactly if its root, rounded to the nearest, is below `bound`.
#[inline]
pub fn square_at(unit: Unit, bound: u64) -> u64
    requires { bound ≤ 4000000001 }
    ensures { PartsRoots (step_of unit) bound result }
{
    match unit {
        Unit::One => bound * bound - bound + bound.min(1),
        Unit::Tenth | Unit::Hundredth | Unit::Thousandth => square_at_in_parts(unit, bound),
    }
}

/// Like `square_at`, but for a unit that is a part of 1.
#[inline(never)]
fn square_at_in_parts(unit: Unit, bound: u64) -> u64
    requires { bound ≤ 4000000001 }
    ensures { unit ≢ One → PartsRoots (step_of unit) bound result }
{
    square_of_half(bound, half_of(unit))
}

/// The number of units in 1/2, for a unit that is a part of 1.
#[inline]
fn half_of(unit: Unit) -> u64
    ensures half { unit ≢ One → 2 * result * step_of unit ≡ scale }
    ensures limit { result ≤ 500 }
{
    match unit {
        Unit::One => 0,
        Unit::Tenth => 5,
        Unit::Hundredth => 50,
        Unit::Thousandth => 500,
    }
}

/// The square of `number - 1/2`, in units of which `half` make 1/2, but at most 9·10^18.
#[inline]
fn square_of_half(number: u64, half: u64) -> u64
    requires number { number ≤ 4000000001 }
    requires half { half ≤ 500 }
    ensures value { result ≡ min ((2 * number - 1) * half) 3000000000 * min ((2 * number - 1) * half) 3000000000 }
{
    let root = ((2 * number).saturating_sub(1) * half).min(3_000_000_000);
    root * root
}

/// The smallest square in ones that is at least a square in a unit.
#[inline]
pub fn covering_square(unit: Unit, square: u64) -> u64
    requires { square ≤ 8000000000000000000 }
    ensures covers { (n : ℕ) → (square * (step_of unit * step_of unit) ≤ n * (scale * scale)) ↔ (result ≤ n) }
    ensures bound { result ≤ 8000000000000000000 }
{
    match unit {
        Unit::One => square,
        Unit::Tenth => (square + 99) / 100,
        Unit::Hundredth => (square + 9_999) / 10_000,
        Unit::Thousandth => (square + 999_999) / 1_000_000,
    }
}

/// A length in a unit, converted to ones and rounded to the nearest.
#[inline]
pub fn rounded_length(unit: Unit, length: u64) -> u64
    requires { length ≤ reach }
    ensures nearest { IsGreatest (Reaches (length * step_of unit)) result }
    ensures bound { result ≤ length }
{
    match unit {
        Unit::One => length,
        Unit::Tenth => (length + 5) / 10,
        Unit::Hundredth => (length + 50) / 100,
        Unit::Thousandth => (length + 500) / 1_000,
    }
}
