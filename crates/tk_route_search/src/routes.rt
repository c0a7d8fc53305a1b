//! The runs of a search for routes.
ghost use Rattle.std.specs.Prelude.{◌≡◌, ◌≤◌, ◌<◌, IfOk, length};
ghost use Rattle.tk_problem.specs.PlacesOf.{places_of};
ghost use Rattle.tk_problem.specs.declared.points.Places.TheVariants.{Whole};
ghost use Rattle.tk_problem.specs.declared.weights.PlaneKind.TheVariants.{Euc2d};
ghost use Rattle.tk_lists.specs.Solution.{lists_of};
ghost use Rattle.tk_distance.specs.PlaneOf.{city_distance};
ghost use Rattle.tk_routes.specs.Cvrps.{instance_of};
ghost use Rattle.tk_routes.specs.Instance.{customer_count};
ghost use Rattle.tk_routes.specs.Routes.{AreRoutes};
ghost use Rattle.tk_rings.specs.RingRoutes.{ring_distance};
ghost use Rattle.tk_route_search.specs.Outcomes.{AreMade};
ghost use Rattle.tk_route_search.specs.SolvedRoutes.{AreSolved, AreSound};
ghost use Rattle.tk_route_search.specs.Tasks.{AreCandidates, AreGiven, IsRing, IsStart, copies_in, task_of};
ghost use Rattle.tk_route_search.specs.Watching.{WereShown};

use crate::copied::{Copied, copied_points};
use crate::ladder::cheapest;
use crate::options::{RouteStart, SearchOptions};
use crate::outcome::{Outcome, RouteRun};
use crate::start::filled;
use crate::watch::{RouteWatch, is_made};
use std::alloc::{AllocError, Global};
use tk_distance::{BothAxes, Euclid, Metric, Sub, Table};
use tk_near::{Near, near_among, near_tree_among};
use tk_ring_search::RingTerms;
use tk_rings::{Capacity, ring_demands, ring_nodes, ring_of, routes_of};
use tk_routes::Cvrp;
use tk_tour::length;

/// The result of a search for routes.
#[derive(Drop)]
pub struct SolvedRoutes {
    /// The cheapest of the start and the best routes of the runs; the earliest ones, if there are several. Each route
    /// begins at its smaller end, and they are ordered by first customer.
    pub routes: Vec<Vec<u32>>,
    /// Their cost.
    pub cost: i64,
    /// The cost of the routes that each run began with.
    pub start: i64,
    /// The number of these routes.
    pub start_routes: u32,
    /// The length of the near lists that savings routes were made with; `None` for given routes.
    pub candidates: Option<u32>,
    /// A report of each run that was made. With one customer there are no runs.
    pub runs: Vec<RouteRun>,
}

/// The input of the search of a run.
fn terms_of<'a, M: Metric>(
    metric: &'a M,
    near: &'a Near,
    vehicles: Capacity<'a>,
    options: &SearchOptions<'_>,
) -> RingTerms<'a, M>
    ensures metric { result.metric.now ≡ metric.now }
    ensures near { result.near.now ≡ near.now }
    ensures vehicles { (result.vehicles.capacity ≡ vehicles.entry.capacity)
        × (result.vehicles.demands.now ≡ vehicles.entry.demands.now) }
    ensures options { (result.or_segment ≡ options.now.or_segment) × (result.sweep ≡ options.now.final_sweep)
        × (result.trials ≡ options.now.trials) }
{
    RingTerms {
        metric,
        near,
        vehicles,
        or_segment: options.or_segment,
        sweep: options.final_sweep,
        trials: options.trials as u64,
    }
}

/// Makes all runs from a ring, unless the observer ends the search, over the distances between its elements and their
/// near lists.
fn run_each<M: Metric, W: RouteWatch>(
    alloc: Global,
    cvrp: &Cvrp<'_>,
    metric: &M,
    near: &Near,
    ring: &[u32],
    options: &SearchOptions<'_>,
    watch: &mut W,
) -> Result<Outcome, AllocError>
    requires size { M.size_of metric.now ≡ length ring.now }
    requires distance { M.distance metric.now
        ≡ ring_distance (instance_of cvrp.now) (copies_in (instance_of cvrp.now) ring.now) }
    requires ring { IsRing (instance_of cvrp.now) (length ring.now) ring.now }
    requires some { 2 ≤ customer_count (instance_of cvrp.now) }
    requires near { AreCandidates (task_of cvrp.now options.now) (copies_in (instance_of cvrp.now) ring.now) near.now }
    ensures { IfOk result (AreMade (task_of cvrp.now options.now) ring.now (WereShown W.shows watch.old watch.new)) }
{
    let mut outcome = Outcome::new(alloc, ring, length(metric, ring))?;
    let demands = ring_demands(alloc, cvrp)?;
    let vehicles = Capacity {
        demands: &demands,
        capacity: cvrp.capacity() as u64,
    };
    for j in 0..options.runs {
        if !is_made(j, watch) {
            break;
        }
        let terms = terms_of(metric, near, vehicles, options);
        outcome.add_run(alloc, cvrp, terms, ring, options, j, watch)?;
    }
    Ok(outcome)
}

/// The outcome for a ring of one customer, for which no runs are made and the observer is shown nothing.
fn without_runs<M: Metric, W: RouteWatch>(
    alloc: Global,
    cvrp: &Cvrp<'_>,
    metric: &M,
    ring: &[u32],
    options: &SearchOptions<'_>,
    watch: &W,
) -> Result<Outcome, AllocError>
    requires size { M.size_of metric.now ≡ length ring.now }
    requires distance { M.distance metric.now
        ≡ ring_distance (instance_of cvrp.now) (copies_in (instance_of cvrp.now) ring.now) }
    requires ring { IsRing (instance_of cvrp.now) (length ring.now) ring.now }
    requires few { customer_count (instance_of cvrp.now) < 2 }
    ensures { IfOk result (AreMade (task_of cvrp.now options.now) ring.now (WereShown W.shows watch.now watch.now)) }
{
    Outcome::new(alloc, ring, length(metric, ring))
}

/// Makes all runs from a ring, over the distances between its elements. With one customer there are none.
fn run_ring<M: Metric, W: RouteWatch>(
    alloc: Global,
    cvrp: &Cvrp<'_>,
    metric: &M,
    ring: &[u32],
    options: &SearchOptions<'_>,
    watch: &mut W,
) -> Result<Outcome, AllocError>
    requires size { M.size_of metric.now ≡ length ring.now }
    requires distance { M.distance metric.now
        ≡ ring_distance (instance_of cvrp.now) (copies_in (instance_of cvrp.now) ring.now) }
    requires ring { IsRing (instance_of cvrp.now) (length ring.now) ring.now }
    ensures { IfOk result (AreMade (task_of cvrp.now options.now) ring.now (WereShown W.shows watch.old watch.new)) }
{
    let customers = cvrp.customers();
    if customers < 2 {
        return without_runs(alloc, cvrp, metric, ring, options, watch);
    }
    let candidates = options.candidates.min(customers - 1);
    let near = near_among(alloc, metric, customers, candidates)?;
    run_each(alloc, cvrp, metric, &near, ring, options, watch)
}

/// Like `run_ring`, for elements in the plane, whose near lists a k-d tree finds.
fn run_ring_in_plane<P: BothAxes, W: RouteWatch>(
    alloc: Global,
    cvrp: &Cvrp<'_>,
    metric: &P,
    ring: &[u32],
    options: &SearchOptions<'_>,
    watch: &mut W,
) -> Result<Outcome, AllocError>
    requires size { P.size_of metric.now ≡ length ring.now }
    requires distance { P.distance metric.now
        ≡ ring_distance (instance_of cvrp.now) (copies_in (instance_of cvrp.now) ring.now) }
    requires ring { IsRing (instance_of cvrp.now) (length ring.now) ring.now }
    ensures { IfOk result (AreMade (task_of cvrp.now options.now) ring.now (WereShown W.shows watch.old watch.new)) }
{
    let customers = cvrp.customers();
    if customers < 2 {
        return without_runs(alloc, cvrp, metric, ring, options, watch);
    }
    let candidates = options.candidates.min(customers - 1);
    let near = near_tree_among(alloc, metric, customers, candidates)?;
    run_each(alloc, cvrp, metric, &near, ring, options, watch)
}

/// Makes all runs over the distances between the nodes.
fn run_over<M: Metric, W: RouteWatch>(
    alloc: Global,
    cvrp: &Cvrp<'_>,
    metric: &M,
    ring: &[u32],
    options: &SearchOptions<'_>,
    watch: &mut W,
) -> Result<Outcome, AllocError>
    requires size { M.size_of metric.now ≡ (instance_of cvrp.now).size }
    requires distance { M.distance metric.now ≡ (instance_of cvrp.now).distance }
    requires ring { IsRing (instance_of cvrp.now) (length ring.now) ring.now }
    ensures { IfOk result (AreMade (task_of cvrp.now options.now) ring.now (WereShown W.shows watch.old watch.new)) }
{
    let nodes = ring_nodes(alloc, cvrp, ring.len() as u32 - cvrp.customers())?;
    run_ring(alloc, cvrp, &Sub::new(metric, &nodes), ring, options, watch)
}

/// Like `run_over`, for distances in the plane.
fn run_over_plane<P: BothAxes, W: RouteWatch>(
    alloc: Global,
    cvrp: &Cvrp<'_>,
    metric: &P,
    ring: &[u32],
    options: &SearchOptions<'_>,
    watch: &mut W,
) -> Result<Outcome, AllocError>
    requires size { P.size_of metric.now ≡ (instance_of cvrp.now).size }
    requires distance { P.distance metric.now ≡ (instance_of cvrp.now).distance }
    requires ring { IsRing (instance_of cvrp.now) (length ring.now) ring.now }
    ensures { IfOk result (AreMade (task_of cvrp.now options.now) ring.now (WereShown W.shows watch.old watch.new)) }
{
    let nodes = ring_nodes(alloc, cvrp, ring.len() as u32 - cvrp.customers())?;
    run_ring_in_plane(alloc, cvrp, &Sub::new(metric, &nodes), ring, options, watch)
}

/// Like `run_over_plane`, for points in whole numbers of a unit, which are copied in the order of the ring's elements.
fn run_over_points<W: RouteWatch>(
    alloc: Global,
    cvrp: &Cvrp<'_>,
    plane: Euclid<'_>,
    ring: &[u32],
    options: &SearchOptions<'_>,
    watch: &mut W,
) -> Result<Outcome, AllocError>
    requires size { length plane.places.now ≡ (instance_of cvrp.now).size }
    requires distance { city_distance Euc2d (places_of (Whole plane.unit plane.places))
        ≡ (instance_of cvrp.now).distance }
    requires ring { IsRing (instance_of cvrp.now) (length ring.now) ring.now }
    ensures { IfOk result (AreMade (task_of cvrp.now options.now) ring.now (WereShown W.shows watch.old watch.new)) }
{
    let nodes = ring_nodes(alloc, cvrp, ring.len() as u32 - cvrp.customers())?;
    let points = copied_points(alloc, &plane, &nodes)?;
    let metric = Copied::new(plane, &nodes, &points);
    run_ring_in_plane(alloc, cvrp, &metric, ring, options, watch)
}

/// Makes all runs.
fn run_all<W: RouteWatch>(
    alloc: Global,
    cvrp: &Cvrp<'_>,
    ring: &[u32],
    options: &SearchOptions<'_>,
    watch: &mut W,
) -> Result<Outcome, AllocError>
    requires { IsRing (instance_of cvrp.now) (length ring.now) ring.now }
    ensures { IfOk result (AreMade (task_of cvrp.now options.now) ring.now (WereShown W.shows watch.old watch.new)) }
{
    match cvrp.table() {
        Table::Planes(planes) => match planes.euclid() {
            Some(plane) => run_over_points(alloc, cvrp, plane, ring, options, watch),
            None => run_over_plane(alloc, cvrp, &planes, ring, options, watch),
        },
        Table::Triangle(triangle) => run_over(alloc, cvrp, &triangle, ring, options, watch),
    }
}

/// The result of all runs, each of which begins with these routes.
fn search_from<W: RouteWatch>(
    alloc: Global,
    cvrp: &Cvrp<'_>,
    start: &[Vec<u32>],
    candidates: Option<u32>,
    options: &SearchOptions<'_>,
    watch: &mut W,
) -> Result<SolvedRoutes, AllocError>
    requires routes { AreRoutes (instance_of cvrp.now) (lists_of start.now) }
    requires begins { IsStart (task_of cvrp.now options.now) (lists_of start.now) candidates }
    ensures solved { IfOk result (AreSolved (task_of cvrp.now options.now) (WereShown W.shows watch.old watch.new)) }
    ensures sound { IfOk result (AreSound (task_of cvrp.now options.now)) }
{
    let ring = ring_of(alloc, cvrp, start)?;
    let outcome = run_all(alloc, cvrp, &ring, options, watch)?;
    Ok(SolvedRoutes {
        routes: routes_of(alloc, cvrp, &outcome.ring)?,
        cost: outcome.cost,
        start: outcome.start,
        start_routes: start.len() as u32,
        candidates,
        runs: outcome.reports,
    })
}

/// Searches for cheap routes of a CVRP: `runs` runs of a first descent and `trials` trials each, or none if there is
/// one customer. `watch` is shown the first descent of each run and each trial, with the cost that it ended with, the
/// best cost of its run up to then, and the best routes if it found them. It is also shown each run after its last
/// trial, with its report. All this is shown in order, and nothing else is.
///
/// `watch` can end the search: it is asked before each trial, and before each run but the first, whether the search
/// goes on. So the first descent of the first run is always made.
///
/// # Errors
/// `AllocError` if memory runs out.
pub fn search_routes<W: RouteWatch>(
    alloc: Global,
    cvrp: &Cvrp<'_>,
    options: &SearchOptions<'_>,
    watch: &mut W,
) -> Result<SolvedRoutes, AllocError>
    requires given { AreGiven (instance_of cvrp.now) options.now.start }
    ensures solved { IfOk result (AreSolved (task_of cvrp.now options.now) (WereShown W.shows watch.old watch.new)) }
    ensures sound { IfOk result (AreSound (task_of cvrp.now options.now)) }
{
    match options.start {
        RouteStart::Ladder => {
            let rung = cheapest(alloc, cvrp)?;
            let candidates = Some(rung.candidates);
            search_from(alloc, cvrp, rung.routes.lists(), candidates, options, watch)
        }
        RouteStart::Routes(given) => {
            let routes = filled(alloc, given)?;
            search_from(alloc, cvrp, &routes, None, options, watch)
        }
    }
}
