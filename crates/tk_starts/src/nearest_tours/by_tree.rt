//! The nearest-neighbour tour by a tree of the unvisited cities.
ghost use Rattle.std.specs.Prelude.{◌≡◌, IfOk, MatchOption};
ghost use Rattle.tk_distance.specs.Cities.{IsCity};
ghost use Rattle.tk_near.specs.CityPoint.{IsPlaced};
ghost use Rattle.tk_near.specs.Unvisited.{ArePlacedApart, IsTakenOut, Stands};
ghost use Rattle.tk_tour.specs.Tour.{IsTour};
ghost use Rattle.tk_starts.specs.NearestTour.{IsNearestTour};
ghost use Rattle.tk_starts.specs.Unvisited.{AreAllVisited, IsFirstUnvisited};

use std::alloc::{AllocError, Global};
use tk_distance::{BothAxes, Planar};
use tk_near::{CityHint, CityPoint, Unvisited};

/// A city with its coordinates.
fn placed<P: Planar>(metric: &P, city: u32) -> CityPoint
    requires { IsCity (P.size_of metric.now) city }
    ensures city { result.city ≡ city }
    ensures placed { IsPlaced (P.size_of metric.now) (P.place_of metric.now) result }
{
    let place = metric.place(city);
    CityPoint { place, city }
}

/// Removes a city, and returns its nearest unvisited city, if there is one, with ties broken by number.
fn visit<P: BothAxes>(
    left: &mut Unvisited,
    metric: &P,
    here: CityPoint,
    at: CityHint,
) -> Option<CityHint>
    requires here { IsPlaced (P.size_of metric.now) (P.place_of metric.now) here }
    requires apart { ArePlacedApart (P.size_of metric.now) (P.place_of metric.now) left.old }
    requires left { Stands left.old here.city }
    ensures taken { IsTakenOut here left.old left.new }
    ensures apart { ArePlacedApart (P.size_of metric.now) (P.place_of metric.now) left.new }
    ensures first { MatchOption result (AreAllVisited (P.size_of metric.now) left.new)
        (λ found. IsFirstUnvisited (P.distance metric.now) (P.size_of metric.now) left.new here.city found.city) }
{
    left.visit(metric, here, at)
}

/// The tour of `nearest`, by a k-d tree of the unvisited cities: each next city is found in it, and then removed.
///
/// # Errors
/// `AllocError` if memory runs out.
pub fn nearest_tree<P: BothAxes>(
    alloc: Global,
    metric: &P,
    start: u32,
) -> Result<Vec<u32>, AllocError>
    requires { IsCity (P.size_of metric.now) start }
    ensures nearest { IfOk result (λ v. IsNearestTour (P.distance metric.now) (P.size_of metric.now) start v.items) }
    ensures tour { IfOk result (λ v. IsTour (P.size_of metric.now) v.items) }
{
    let mut left = Unvisited::all(alloc, metric)?;
    let mut cities = Vec::with_capacity(alloc, metric.size() as usize)?;
    cities.push(start)?;
    let mut at = CityHint::somewhere(start);
    while let Some(found) = visit(&mut left, metric, placed(metric, at.city), at) {
        cities.push(found.city)?;
        at = found;
    }
    Ok(cities)
}
