//! The traits of distances.
ghost use Rattle.std.specs.Prelude.{◌≡◌, ℕ, ℤ, ◌≤◌, ◌<ℤ◌, ◌↔◌, IsTrue, pos, ◌-ℤ◌};
ghost use Rattle.std.specs.Int.RustNames.{unsigned_abs};
ghost use Rattle.tk_distance.specs.Distance.{reach};
ghost use Rattle.tk_problem.specs.declared.limits.TheConstants.{CITY_LIMIT, DISTANCE_LIMIT};
ghost use Rattle.tk_distance.specs.Cities.{IsCity};
ghost use Rattle.tk_problem.specs.declared.point.Point.{Point};

use tk_problem::Point;

/// Symmetric distances among the cities 1 to `size`.
pub trait Metric {
    /// The number of cities.
    ghost size_of: { Self → ℕ };

    /// The table of distances.
    ghost distance: { Self → ℕ → ℕ → ℕ };

    /// The number of cities, at most 100,000.
    fn size(&self) -> u32
        ensures { result ≡ size_of self.now };

    /// The distance of two cities, from 0 to 4·10^9.
    fn dist(&self, a: u32, b: u32) -> i64
        requires a { IsCity (size_of self.now) a }
        requires b { IsCity (size_of self.now) b }
        ensures { result ≡ pos (distance self.now a b) };

    /// Whether the distance of two cities is less than a limit.
    #[inline]
    fn is_nearer(&self, a: u32, b: u32, limit: i64) -> bool
        requires a { IsCity (size_of self.now) a }
        requires b { IsCity (size_of self.now) b }
        ensures { IsTrue result ↔ (pos (distance self.now a b) <ℤ limit) }
    {
        self.dist(a, b) < limit
    }

    ghost size_limit: { (m : Self) → size_of m ≤ CITY_LIMIT };

    ghost symmetric: { (m : Self) (a b : ℕ) → distance m a b ≡ distance m b a };

    ghost diagonal: { (m : Self) (a : ℕ) → distance m a a ≡ 0 };

    ghost distance_limit: { (m : Self) (a b : ℕ) → distance m a b ≤ DISTANCE_LIMIT };
}

/// A metric over points in the plane, in which a distance is at least a function of the difference in x.
pub trait Planar: Metric {
    /// The coordinates of a city, in the units of the metric.
    ghost place_of: { Self → ℕ → Point };

    /// A lower bound of the distance, given the difference in x.
    ghost floor: { Self → ℕ → ℕ };

    /// The coordinates of a city, in the units of the metric.
    fn place(&self, c: u32) -> Point
        requires { IsCity (Self.size_of self.now) c }
        ensures { result ≡ place_of self.now c };

    /// A lower bound of the distance of cities that differ by `dx` in x.
    fn floor_x(&self, dx: u64) -> i64
        requires { dx ≤ reach }
        ensures { result ≡ pos (floor self.now dx) };

    ghost wide: { (m : Self) (a b : ℕ) → unsigned_abs ((place_of m a).x -ℤ (place_of m b).x) ≤ reach };

    ghost floor_rises: { (m : Self) (s t : ℕ) → s ≤ t → t ≤ reach → floor m s ≤ floor m t };

    ghost floor_bounds: { (m : Self) (a b : ℕ)
        → floor m (unsigned_abs ((place_of m a).x -ℤ (place_of m b).x)) ≤ Self.distance m a b };
}

/// A planar metric in which a distance is at least the same function of the difference in y.
pub trait BothAxes: Planar {
    ghost tall: { (m : Self) (a b : ℕ)
        → unsigned_abs ((Self.place_of m a).y -ℤ (Self.place_of m b).y) ≤ reach };

    ghost floor_bounds_y: { (m : Self) (a b : ℕ)
        → Self.floor m (unsigned_abs ((Self.place_of m a).y -ℤ (Self.place_of m b).y)) ≤ Self.distance m a b };
}
