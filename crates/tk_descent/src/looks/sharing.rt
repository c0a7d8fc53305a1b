//! The distances that the gains of a look have in common.
ghost use Rattle.std.specs.Prelude.{◌≡◌, ◌+◌, All, length, map, pos};
ghost use Rattle.tk_distance.specs.Cities.{IsCity};
ghost use Rattle.tk_tour.specs.Tour.{next_city, prev_city};
ghost use Rattle.tk_descent.specs.Offers.{IsSegmentIn, all_segments};
ghost use Rattle.tk_descent.specs.Sharing.{IsCityWithNeighbours, IsRemovedSegment, segment_of};
ghost use Rattle.tk_descent.specs.EdgeCache.{AreMeasured};

use crate::edge_cache::{CachedEdges, neighbour_distances, step};
use crate::looks::segments::segments_of;
use crate::offer::Segment;
use crate::on_tour::neighbours;
use tk_distance::Metric;
use tk_tour::TourStore;

/// A city with its neighbours on the tour, and the distances to them.
#[derive(Clone, Copy)]
pub(crate) struct CityWithNeighbours {
    pub city: u32,
    pub after: u32,
    pub before: u32,
    pub to_after: i64,
    pub to_before: i64,
}

/// A segment that begins at a city x, and the length that the tour loses if the segment is removed.
#[derive(Clone, Copy)]
pub(crate) struct RemovedSegment {
    pub segment: Segment,
    pub freed: i64,
}

/// A city with its neighbours, and the distances to them.
#[inline]
pub(crate) fn look_beside<S: TourStore, M: Metric>(
    tour: &S,
    metric: &M,
    steps: &mut [CachedEdges],
    c: u32,
) -> CityWithNeighbours
    requires size { M.size_of metric.now ≡ length (S.cities tour.now) }
    requires city { IsCity (length (S.cities tour.now)) c }
    requires known { AreMeasured (M.distance metric.now) steps.old }
    ensures city { result.city ≡ c }
    ensures after { result.after ≡ next_city (S.cities tour.now) c }
    ensures before { result.before ≡ prev_city (S.cities tour.now) c }
    ensures shared { IsCityWithNeighbours (M.size_of metric.now) (M.distance metric.now) result }
    ensures known { AreMeasured (M.distance metric.now) steps.new }
{
    let (after, before) = neighbours(tour, c);
    let (to_after, to_before) = neighbour_distances(metric, steps, c, after, before);
    CityWithNeighbours {
        city: c,
        after,
        before,
        to_after,
        to_before,
    }
}

/// A segment from x, at the distances `begin` and `end` from the cities before and after it.
#[inline]
fn measure_piece<M: Metric>(
    metric: &M,
    x: u32,
    begin: i64,
    end: i64,
    segment: Segment,
) -> RemovedSegment
    requires city { IsCity (M.size_of metric.now) x }
    requires segment { IsSegmentIn (M.size_of metric.now) segment }
    requires begin { begin ≡ pos (M.distance metric.now segment.before x) }
    requires end { end ≡ pos (M.distance metric.now segment.last segment.after) }
    ensures segment { result.segment ≡ segment }
    ensures shared { IsRemovedSegment (M.size_of metric.now) (M.distance metric.now) x result }
{
    RemovedSegment {
        segment,
        freed: begin + end - metric.dist(segment.before, segment.after),
    }
}

/// A segment of several cities from x, at the distance `begin` from the city before it.
#[inline]
fn measure_longer<M: Metric>(
    metric: &M,
    steps: &[CachedEdges],
    x: u32,
    begin: i64,
    segment: Segment,
) -> RemovedSegment
    requires city { IsCity (M.size_of metric.now) x }
    requires segment { IsSegmentIn (M.size_of metric.now) segment }
    requires begin { begin ≡ pos (M.distance metric.now segment.before x) }
    requires known { AreMeasured (M.distance metric.now) steps.now }
    ensures segment { result.segment ≡ segment }
    ensures shared { IsRemovedSegment (M.size_of metric.now) (M.distance metric.now) x result }
{
    let end = step(metric, steps, segment.last, segment.after);
    measure_piece(metric, x, begin, end, segment)
}

/// The segments that begin at x, each with the length that the tour loses if it is removed.
#[inline]
pub(crate) fn pieces_of<S: TourStore, M: Metric>(
    tour: &S,
    metric: &M,
    steps: &[CachedEdges],
    x: &CityWithNeighbours,
) -> [RemovedSegment; 5]
    requires size { M.size_of metric.now ≡ length (S.cities tour.now) }
    requires after { x.now.after ≡ next_city (S.cities tour.now) x.now.city }
    requires before { x.now.before ≡ prev_city (S.cities tour.now) x.now.city }
    requires shared { IsCityWithNeighbours (M.size_of metric.now) (M.distance metric.now) x.now }
    requires known { AreMeasured (M.distance metric.now) steps.now }
    ensures value { map segment_of result
        ≡ all_segments (next_city (S.cities tour.now)) (prev_city (S.cities tour.now)) x.now.city }
    ensures shared { All (IsRemovedSegment (M.size_of metric.now) (M.distance metric.now) x.now.city) result }
{
    let city = x.city;
    let [one, two, two_back, three, three_back] = segments_of(tour, city);
    [
        measure_piece(metric, city, x.to_before, x.to_after, one),
        measure_longer(metric, steps, city, x.to_before, two),
        measure_longer(metric, steps, city, x.to_after, two_back),
        measure_longer(metric, steps, city, x.to_before, three),
        measure_longer(metric, steps, city, x.to_after, three_back),
    ]
}
