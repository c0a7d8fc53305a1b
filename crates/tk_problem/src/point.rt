//! Points in the plane.
ghost use Rattle.std.specs.Prelude.{◌≤◌};
ghost use Rattle.std.specs.Int.RustNames.{unsigned_abs};
ghost use Rattle.tk_problem.specs.declared.limits.TheConstants.{COORDINATE_LIMIT};

/// The number of coordinate units in 1: coordinates are counted in units of 10^-9.
pub const SCALE: i64 = 1_000_000_000;

/// A point in the plane, in units of 10^-9.
#[derive(Clone, Copy, PartialEq, Eq)]
pub struct Point {
    pub x: i64,
    pub y: i64,
}

/// A point whose coordinates are whole numbers of a unit, of magnitude at most 10^9. The unit is stored with the list
/// of points.
#[derive(Clone, Copy)]
pub struct WholePoint {
    pub x: i32,
    pub y: i32,
    ghost x_near: { unsigned_abs x ≤ COORDINATE_LIMIT },
    ghost y_near: { unsigned_abs y ≤ COORDINATE_LIMIT },
}
