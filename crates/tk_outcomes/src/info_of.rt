//! Finds out what is known of a problem.
ghost use Rattle.std.specs.Prelude.{◌≡◌, ◌≤◌, length, option_map};
ghost use Rattle.std.specs.List.{list_all, sum};
ghost use Rattle.tk_problem.specs.PlacesOf.{places_of};
ghost use Rattle.tk_problem.specs.declared.limits.TheConstants.{CITY_LIMIT, TABLE_LIMIT};
ghost use Rattle.tk_problem_text.specs.ProblemOf.{problem_is, routing_is, weights_are};
ghost use Rattle.tk_outcomes.specs.Infos.{AreDistances, IsArea, IsInfo, is_whole, routing_info};
ghost use Rattle.tk_outcomes.specs.Lines.InfoLines.{type_word};

use crate::info::{Area, DistanceInfo, ProblemInfo, RoutingInfo};
use tk_picture::View;
use tk_problem::{Places, Point, Problem, SCALE, Weights};

/// Whether the coordinates of a point are whole numbers.
fn is_whole(place: Point) -> bool
    ensures { result ≡ is_whole place }
{
    let scale = SCALE as u64;
    place.x.unsigned_abs() % scale == 0 && place.y.unsigned_abs() % scale == 0
}

/// Whether all coordinates are whole numbers.
fn are_whole(places: Places<'_>) -> bool
    ensures { result ≡ list_all is_whole (places_of places.entry) }
{
    for i in 0..places.len() {
        let place = places.get(i);
        if !is_whole(place) {
            return false;
        }
    }
    true
}

/// The bounds of coordinates, and whether they are whole.
fn area_of(places: Places<'_>) -> Area
    requires some { 1 ≤ length (places_of places) }
    requires few { length (places_of places) ≤ CITY_LIMIT }
    ensures { IsArea (places_of places.entry) result }
{
    let extent = View::over(places).extent;
    Area {
        whole: are_whole(places),
        left: extent.left,
        right: extent.right,
        bottom: extent.bottom,
        top: extent.top,
    }
}

/// How the distances of a problem are given.
fn distances_of(problem: &Problem) -> DistanceInfo
    ensures { AreDistances (weights_are problem.now.weights) result }
{
    match &problem.weights {
        Weights::Points(kind, points) => DistanceInfo::Plane(*kind, area_of(points.places())),
        Weights::Lower(_) => DistanceInfo::Explicit,
    }
}

/// The sum of demands.
fn total_of(demands: &[u32]) -> u64
    requires { length demands.now ≤ TABLE_LIMIT }
    ensures { result ≡ sum demands.now }
{
    let mut total = 0;
    for &demand in demands {
        total += demand as u64;
    }
    total
}

/// What is known of the routing data of a problem; `None` for a TSP. No text has a capacity of 0.
fn routing_of(problem: &Problem) -> Option<RoutingInfo>
    ensures { result ≡ option_map routing_info (routing_is problem.now.routing) }
{
    let routing = problem.routing.as_ref()?;
    let demand = total_of(&routing.demand);
    Some(RoutingInfo {
        capacity: routing.capacity,
        depot: routing.depot,
        demand,
        vehicles: demand.div_ceil(routing.capacity.max(1) as u64),
    })
}

impl ProblemInfo {
    /// What is known of a problem.
    pub fn of(problem: Problem) -> ProblemInfo
        ensures { IsInfo (problem_is problem) result }
    {
        let distances = distances_of(&problem);
        let routing = routing_of(&problem);
        ProblemInfo {
            name: problem.name,
            dimension: problem.n,
            distances,
            routing,
        }
    }

    /// The type of the problem: `TSP` or `CVRP`.
    pub fn type_word(&self) -> &'static str
        ensures { result.now ≡ type_word self.now.routing }
    {
        match self.routing {
            Some(_) => "CVRP",
            None => "TSP",
        }
    }
}
