//! Distances among some of the cities.
ghost use Rattle.std.specs.Prelude.{◌≡◌, ◌≤◌, All, length};
ghost use Rattle.tk_problem.specs.declared.limits.TheConstants.{CITY_LIMIT};
ghost use Rattle.tk_distance.specs.Cities.{IsCity};

use crate::metric::{BothAxes, Metric, Planar};
use std::alloc::AllocError;
use tk_problem::Point;

/// The distances among the cities of a list, numbered from 1 in its order. A city can occur in it more than once.
pub struct Sub<'a, M: Metric> {
    pub metric: &'a M,
    pub cities: &'a [u32],
    ghost few: { length cities.now ≤ CITY_LIMIT },
    ghost known: { All (IsCity (M.size_of metric.now)) cities.now },
}

impl<M: Metric> Copy for Sub<'_, M> {}

impl<M: Metric> Clone for Sub<'_, M> {
    ghost is_clone = { λ sub copy. copy ≡ sub };

    fn clone(&self) -> Result<Self, AllocError> {
        Ok(*self)
    }
}

impl<'a, M: Metric> Sub<'a, M> {
    /// The distances among at most 100,000 cities of a metric.
    pub fn new(metric: &'a M, cities: &'a [u32]) -> Sub<'a, M>
        requires few { length cities.now ≤ CITY_LIMIT }
        requires known { All (IsCity (M.size_of metric.now)) cities.now }
        ensures metric { result.metric.now ≡ metric.now }
        ensures cities { result.cities.now ≡ cities.now }
    {
        Sub { metric, cities }
    }
}

impl<M: Metric> Metric for Sub<'_, M> {
    ghost use Rattle.std.specs.Prelude.{length};
    ghost use Rattle.tk_distance.specs.Cities.{city_at};

    ghost size_of = { λ m. length m.cities.now };

    ghost distance = { λ m a b. M.distance m.metric.now (city_at m.cities.now a) (city_at m.cities.now b) };

    ghost size_limit = { λ m. m.few };

    ghost symmetric = { λ m a b. M.symmetric m.metric.now (city_at m.cities.now a) (city_at m.cities.now b) };

    ghost diagonal = { λ m a. M.diagonal m.metric.now (city_at m.cities.now a) };

    ghost distance_limit = { λ m a b. M.distance_limit m.metric.now (city_at m.cities.now a) (city_at m.cities.now b) };

    #[inline]
    fn size(&self) -> u32 {
        self.cities.len() as u32
    }

    #[inline]
    fn dist(&self, a: u32, b: u32) -> i64 {
        self.metric
            .dist(self.cities[a as usize - 1], self.cities[b as usize - 1])
    }

    #[inline]
    fn is_nearer(&self, a: u32, b: u32, limit: i64) -> bool {
        let (a, b) = (self.cities[a as usize - 1], self.cities[b as usize - 1]);
        self.metric.is_nearer(a, b, limit)
    }
}

impl<P: Planar> Planar for Sub<'_, P> {
    ghost use Rattle.tk_distance.specs.Cities.{city_at};

    ghost place_of = { λ m c. P.place_of m.metric.now (city_at m.cities.now c) };

    ghost floor = { λ m. P.floor m.metric.now };

    ghost wide = { λ m a b. P.wide m.metric.now (city_at m.cities.now a) (city_at m.cities.now b) };

    ghost floor_rises = { λ m. P.floor_rises m.metric.now };

    ghost floor_bounds = { λ m a b. P.floor_bounds m.metric.now (city_at m.cities.now a) (city_at m.cities.now b) };

    #[inline]
    fn place(&self, c: u32) -> Point {
        self.metric.place(self.cities[c as usize - 1])
    }

    #[inline]
    fn floor_x(&self, dx: u64) -> i64 {
        self.metric.floor_x(dx)
    }
}

impl<P: BothAxes> BothAxes for Sub<'_, P> {
    ghost use Rattle.tk_distance.specs.Cities.{city_at};

    ghost tall = { λ m a b. P.tall m.metric.now (city_at m.cities.now a) (city_at m.cities.now b) };

    ghost floor_bounds_y = { λ m a b. P.floor_bounds_y m.metric.now (city_at m.cities.now a) (city_at m.cities.now b) };
}
