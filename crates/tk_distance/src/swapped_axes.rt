//! Metrics with x and y swapped.
ghost use Rattle.tk_problem.specs.declared.point.Point.{Point};
ghost use Rattle.tk_distance.specs.SwappedAxes.{turned};

use crate::metric::{BothAxes, Metric, Planar};
use tk_problem::Point;

/// A metric with x and y swapped, so that a sweep runs along y.
#[derive(Drop)]
pub struct SwappedAxes<'a, P: BothAxes>(pub &'a P);

impl<'a, P: BothAxes> Metric for SwappedAxes<'a, P> {
    ghost size_of = { λ t. P.size_of t.0.now };

    ghost distance = { λ t. P.distance t.0.now };

    ghost size_limit = { λ t. P.size_limit t.0.now };

    ghost symmetric = { λ t. P.symmetric t.0.now };

    ghost diagonal = { λ t. P.diagonal t.0.now };

    ghost distance_limit = { λ t. P.distance_limit t.0.now };

    fn size(&self) -> u32 {
        self.0.size()
    }

    fn dist(&self, a: u32, b: u32) -> i64 {
        self.0.dist(a, b)
    }
}

impl<'a, P: BothAxes> Planar for SwappedAxes<'a, P> {
    ghost place_of = { λ t c. turned (P.place_of t.0.now c) };

    ghost floor = { λ t. P.floor t.0.now };

    ghost wide = { λ t. P.tall t.0.now };

    ghost floor_rises = { λ t. P.floor_rises t.0.now };

    ghost floor_bounds = { λ t. P.floor_bounds_y t.0.now };

    fn place(&self, c: u32) -> Point {
        let place = self.0.place(c);
        Point {
            x: place.y,
            y: place.x,
        }
    }

    fn floor_x(&self, dx: u64) -> i64 {
        self.0.floor_x(dx)
    }
}

impl<'a, P: BothAxes> BothAxes for SwappedAxes<'a, P> {
    ghost tall = { λ t. P.wide t.0.now };

    ghost floor_bounds_y = { λ t. P.floor_bounds t.0.now };
}
