//! The units in which coordinates are stored as whole numbers.
ghost use Rattle.std.specs.Prelude.{◌≡◌, ◌≢◌, IfSome, IfNone, pos};
ghost use Rattle.std.specs.Int.Signed.{quot_z};
ghost use Rattle.tk_problem.specs.declared.point.WholePoint.{WholePoint};
ghost use Rattle.tk_problem.specs.Places.{IsNearOrigin};
ghost use Rattle.tk_problem.specs.Units.{place_in, step_of};

use crate::limits::COORDINATE_LIMIT;
use crate::point::{Point, WholePoint};

/// A unit of coordinates: 1, 0.1, 0.01 or 0.001.
#[derive(Clone, Copy, PartialEq, Eq)]
pub enum Unit {
    One,
    Tenth,
    Hundredth,
    Thousandth,
}

impl Unit {
    /// The unit, in units of 10^-9.
    #[inline]
    pub fn step(self) -> i64
        ensures { result ≡ pos (step_of self) }
    {
        match self {
            Unit::One => 1_000_000_000,
            Unit::Tenth => 100_000_000,
            Unit::Hundredth => 10_000_000,
            Unit::Thousandth => 1_000_000,
        }
    }

    /// A point in whole numbers of this unit, converted to units of 10^-9.
    #[inline]
    pub fn place(self, whole: WholePoint) -> Point
        ensures place { result ≡ place_in self whole }
        ensures near { IsNearOrigin result }
    {
        let step = self.step();
        Point {
            x: whole.x as i64 * step,
            y: whole.y as i64 * step,
        }
    }

    /// A coordinate in units of 10^-9, converted to this unit and rounded towards zero. The divisors are constants,
    /// since the compiler turns a division by a constant into a multiplication.
    fn units(self, coordinate: i64) -> i64
        ensures { result ≡ quot_z coordinate (pos (step_of self)) }
    {
        match self {
            Unit::One => coordinate / 1_000_000_000,
            Unit::Tenth => coordinate / 100_000_000,
            Unit::Hundredth => coordinate / 10_000_000,
            Unit::Thousandth => coordinate / 1_000_000,
        }
    }

    /// A point in units of 10^-9, converted to this unit; `None` unless its coordinates are whole numbers of this unit,
    /// of magnitude at most 10^9.
    pub fn whole(self, place: Point) -> Option<WholePoint>
        ensures some { IfSome result (λ whole. place_in self whole ≡ place) }
        ensures none { IfNone result ((whole : WholePoint) → place_in self whole ≢ place) }
    {
        let x = self.units(place.x);
        let y = self.units(place.y);
        if x.unsigned_abs() > COORDINATE_LIMIT || y.unsigned_abs() > COORDINATE_LIMIT {
            return None;
        }
        let whole = WholePoint {
            x: x as i32,
            y: y as i32,
        };
        if self.place(whole) == place {
            Some(whole)
        } else {
            None
        }
    }

    /// The coarsest unit of which a point is a [`WholePoint`], and the point in this unit; `None` if there is no such
    /// unit. No contract depends on `None`, which costs only memory.
    pub(crate) fn of(place: Point) -> Option<(Unit, WholePoint)>
        ensures { IfSome result (λ found. place_in found.0 found.1 ≡ place) }
    {
        for unit in [Unit::One, Unit::Tenth, Unit::Hundredth, Unit::Thousandth] {
            if let Some(whole) = unit.whole(place) {
                return Some((unit, whole));
            }
        }
        None
    }
}
