//! A law of the nearest-neighbour tour, as the contract of a function that does nothing.
ghost use Rattle.std.specs.Prelude.{◌≡◌};
ghost use Rattle.tk_starts.specs.NearestTour.{IsNearestTour};

use tk_distance::Metric;

/// A law: two nearest-neighbour tours with the same start are equal.
pub fn nearest_tours_agree<M: Metric>(metric: &M, start: u32, xs: &[u32], ys: &[u32])
    requires first { IsNearestTour (M.distance metric.now) (M.size_of metric.now) start xs.now }
    requires second { IsNearestTour (M.distance metric.now) (M.size_of metric.now) start ys.now }
    ensures { xs.now ≡ ys.now }
{}
