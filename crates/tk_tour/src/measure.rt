//! The length of a tour.
ghost use Rattle.std.specs.Prelude.{◌≡◌, ◌<◌, ◌*◌, ◌^◌, pos, length, All};
ghost use Rattle.tk_problem.specs.declared.limits.TheConstants.{DISTANCE_LIMIT};
ghost use Rattle.tk_distance.specs.Cities.{IsCity};
ghost use Rattle.tk_tour.specs.Tour.{tour_length};

use tk_distance::Metric;

/// The length of the closed tour through the cities in this order: 0 if there are none, and twice the distance if there
/// are two.
pub fn length<M: Metric>(metric: &M, cities: &[u32]) -> i64
    requires cities { All (IsCity (M.size_of metric.now)) cities.now }
    requires count { length cities.now * DISTANCE_LIMIT < 2 ^ 63 }
    ensures { result ≡ pos (tour_length (M.distance metric.now) cities.now) }
{
    let Some((&first, others)) = cities.split_first() else {
        return 0;
    };
    let mut from = first;
    let mut total = 0;
    for &city in others {
        total += metric.dist(from, city);
        from = city;
    }
    total + metric.dist(from, first)
}
