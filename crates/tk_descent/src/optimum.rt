//! Tests for local optima.
ghost use Rattle.std.specs.Prelude.{◌≡◌, ◌≤◌, ◌↔◌, IsTrue, length};
ghost use Rattle.tk_near.specs.Near.{near_of};
ghost use Rattle.tk_descent.specs.WakeMachine.{IsLocalOptimum, IsLocalOptimumUnder};

use crate::gains::Gains;
use crate::on_tour::size;
use crate::probe::Probe;
use crate::rule::{Everything, Rule};
use tk_distance::Metric;
use tk_near::Near;
use tk_tour::TourStore;

/// Whether no city has an offer with positive gain that the rule allows. An offer of a city is a 2-opt move that adds
/// an edge from the city to one of its near list, or an Or-opt move that does so at an end of its segment. The segment
/// has at most `or_segment` cities.
pub fn is_local_optimum_under<S: TourStore, M: Metric, R: Rule<S>>(
    tour: &S,
    metric: &M,
    rule: &R,
    near: &Near,
    or_segment: u32,
) -> bool
    requires fits { (M.size_of metric.now ≡ length (S.cities tour.now)) × (near.now.size ≡ length (S.cities tour.now)) }
    requires most { (1 ≤ or_segment) × (or_segment ≤ 3) }
    requires suits { R.Suits rule.now tour.now }
    requires tour { R.Fits rule.now (S.cities tour.now) }
    ensures { IsTrue result ↔ IsLocalOptimumUnder (R.Fits rule.now) (M.distance metric.now) (near_of near.now)
        or_segment
        (S.cities tour.now) }
{
    let mut gains = Probe::new(metric);
    for x in 1..size(tour) + 1 {
        if let Some(_found) = gains.find_offer(tour, rule, near, or_segment, x) {
            return false;
        }
    }
    true
}

/// Whether no city has an offer with positive gain. An offer of a city is a 2-opt move that adds an edge from the city
/// to one of its near list, or an Or-opt move that does so at an end of its segment. The segment has at most
/// `or_segment` cities.
#[inline]
pub fn is_local_optimum<S: TourStore, M: Metric>(
    tour: &S,
    metric: &M,
    near: &Near,
    or_segment: u32,
) -> bool
    requires fits { (M.size_of metric.now ≡ length (S.cities tour.now)) × (near.now.size ≡ length (S.cities tour.now)) }
    requires most { (1 ≤ or_segment) × (or_segment ≤ 3) }
    ensures { IsTrue result ↔ IsLocalOptimum (M.distance metric.now) (near_of near.now) or_segment (S.cities tour.now) }
{
    is_local_optimum_under(tour, metric, &Everything, near, or_segment)
}
