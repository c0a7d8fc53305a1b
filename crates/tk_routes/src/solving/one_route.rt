//! The improvement of one route by a descent.
ghost use Rattle.std.specs.Prelude.{◌≡◌, pos, ◌+◌, ◌*◌, ◌/◌, ◌<◌, ◌≤◌, IfOk, All, length, slice_index};
ghost use Rattle.tk_problem.specs.declared.limits.TheConstants.{CANDIDATE_LIMIT, TABLE_LIMIT};
ghost use Rattle.tk_distance.specs.Cities.{IsCity};
ghost use Rattle.tk_near.specs.Near.{near_of};
ghost use Rattle.tk_tour.specs.ArrayTours.{order_of};
ghost use Rattle.tk_tour.specs.Tour.{IsTour, tour_length};
ghost use Rattle.tk_descent.specs.Awake.{one_to};
ghost use Rattle.tk_descent.specs.Sweeps.{Pass};
ghost use Rattle.tk_routes.specs.Cvrps.{instance_of};
ghost use Rattle.tk_routes.specs.Instance.{customer_count};
ghost use Rattle.tk_routes.specs.Routes.{route_nodes};
ghost use Rattle.tk_routes.specs.ImprovedRoutes.{IsFlipped, IsImprovement, IsReadOff, place_distance};

use crate::cvrp::Cvrp;
use crate::solving::distance_matrix::DistanceMatrix;
use std::alloc::{AllocError, Global};
use tk_descent::{Probe, Report, Waking, descend};
use tk_distance::{Metric, Sub};
use tk_near::{Near, near_scan};
use tk_tour::{ArrayTour, length};

/// The distances between at most this many nodes are computed beforehand.
const MOST_MEASURED: usize = 256;

/// The node of the depot, followed by those of a route.
fn list_nodes(alloc: Global, cvrp: &Cvrp<'_>, route: &[u32]) -> Result<Vec<u32>, AllocError>
    requires { All (IsCity (customer_count (instance_of cvrp.now))) route.now }
    ensures value { IfOk result (λ v. v.items ≡ route_nodes (instance_of cvrp.now) route.now) }
    ensures known { IfOk result (λ v. All (IsCity (instance_of cvrp.now).size) v.items) }
{
    let mut nodes = Vec::new(alloc);
    nodes.push(cvrp.depot)?;
    for &customer in route {
        nodes.push(cvrp.node(customer))?;
    }
    Ok(nodes)
}

/// The positions 1 to n.
fn list_places(alloc: Global, n: u32) -> Result<Vec<u32>, AllocError>
    ensures { IfOk result (λ v. v.items ≡ one_to n) }
{
    let mut places = Vec::new(alloc);
    for k in 0..n {
        places.push(k + 1)?;
    }
    Ok(places)
}

/// A queue with the cities 1 to n, all of them awake.
fn wake_each_city(alloc: Global, n: u32) -> Result<Waking, AllocError>
    ensures size { IfOk result (λ w. w.size ≡ n) }
    ensures queue { IfOk result (λ w. w.queue ≡ one_to n) }
{
    let mut waking = Waking::new(alloc, n)?;
    waking.wake_all();
    Ok(waking)
}

/// A descent from the tour 1, 2, .. n, with all cities awake: its result, and its report.
fn descend_awake<M: Metric>(
    alloc: Global,
    metric: &M,
    near: &Near,
    m: u32,
) -> Result<(ArrayTour, Report), AllocError>
    requires some { 2 ≤ M.size_of metric.now }
    requires few { M.size_of metric.now ≤ TABLE_LIMIT }
    requires fits { near.now.size ≡ M.size_of metric.now }
    requires most { (1 ≤ m) × (m ≤ 3) }
    ensures pass { IfOk result (λ r. Pass (M.distance metric.now) (near_of near.now) m (one_to (M.size_of metric.now))
        (order_of r.0) r.1.looks r.1.moves r.1.tests) }
    ensures tour { IfOk result (λ r. IsTour (M.size_of metric.now) (order_of r.0)) }
    ensures before { IfOk result (λ r. r.1.before
        ≡ pos (tour_length (M.distance metric.now) (one_to (M.size_of metric.now)))) }
    ensures after { IfOk result (λ r. r.1.after ≡ pos (tour_length (M.distance metric.now) (order_of r.0))) }
    ensures moves { IfOk result (λ r. r.1.moves + tour_length (M.distance metric.now) (order_of r.0)
        ≤ tour_length (M.distance metric.now) (one_to (M.size_of metric.now))) }
    ensures tests { IfOk result (λ r. r.1.tests ≤ 4 * m * near.now.width * (M.size_of metric.now + 6 * r.1.moves)) }
    ensures flipped { IfOk result (λ r. IsFlipped (one_to (M.size_of metric.now)) (order_of r.0) r.1.moves r.1.swaps) }
    ensures swaps { IfOk result (λ r. r.1.swaps ≤ 3 * (M.size_of metric.now / 4) * r.1.moves) }
{
    let n = metric.size();
    let places = list_places(alloc, n)?;
    let Ok(mut tour) = ArrayTour::from_list(alloc, &places) else {
        return Err(AllocError);
    };
    let mut waking = wake_each_city(alloc, n)?;
    let before = length(metric, &places);
    let mut gains = Probe::new(metric);
    let report = descend(&mut tour, &mut gains, near, &mut waking, m, before);
    Ok((tour, report))
}

/// The customers at the positions of a cycle after the first, which is the depot's. They are reversed if the first
/// customer is greater than the last.
fn read_off(alloc: Global, route: &[u32], cycle: &[u32]) -> Result<Vec<u32>, AllocError>
    requires some { 1 ≤ length route.now }
    requires tour { IsTour (length route.now + 1) cycle.now }
    requires depot { slice_index cycle.now 0 ≡ 1 }
    ensures { IfOk result (λ v. IsReadOff route.now cycle.now v.items) }
{
    let mut customers = Vec::new(alloc);
    for &place in &cycle[1..] {
        customers.push(route[place as usize - 2])?;
    }
    if customers[0] > customers[customers.len() - 1] {
        customers.reverse();
    }
    Ok(customers)
}

/// The improved route, and the report of its descent, which starts from the depot and the route with all of their nodes
/// awake. The metric has the distances between these nodes.
fn improve_over<M: Metric>(
    alloc: Global,
    cvrp: &Cvrp<'_>,
    metric: &M,
    route: &[u32],
    max_candidates: u32,
    m: u32,
) -> Result<(Vec<u32>, Report), AllocError>
    requires size { M.size_of metric.now ≡ length route.now + 1 }
    requires distances { M.distance metric.now
        ≡ place_distance (instance_of cvrp.now).distance (route_nodes (instance_of cvrp.now) route.now) }
    requires some { 1 ≤ length route.now }
    requires few { length route.now < TABLE_LIMIT }
    requires candidates { (1 ≤ max_candidates) × (max_candidates ≤ CANDIDATE_LIMIT) }
    requires most { (1 ≤ m) × (m ≤ 3) }
    ensures { IfOk result (λ r. IsImprovement (instance_of cvrp.now) max_candidates m route.now r.0.items r.1) }
{
    let near = near_scan(alloc, metric, max_candidates.min(route.len() as u32))?;
    let (tour, report) = descend_awake(alloc, metric, &near, m)?;
    let cycle = tour.canonical(alloc)?;
    Ok((read_off(alloc, route, &cycle)?, report))
}

/// The improved route, and the report of its descent, which starts from the depot and the route with all of their nodes
/// awake.
///
/// # Errors
/// `AllocError` if memory runs out.
pub(crate) fn improve_route(
    alloc: Global,
    cvrp: &Cvrp<'_>,
    route: &[u32],
    max_candidates: u32,
    m: u32,
) -> Result<(Vec<u32>, Report), AllocError>
    requires known { All (IsCity (customer_count (instance_of cvrp.now))) route.now }
    requires some { 1 ≤ length route.now }
    requires few { length route.now < TABLE_LIMIT }
    requires candidates { (1 ≤ max_candidates) × (max_candidates ≤ CANDIDATE_LIMIT) }
    requires most { (1 ≤ m) × (m ≤ 3) }
    ensures { IfOk result (λ r. IsImprovement (instance_of cvrp.now) max_candidates m route.now r.0.items r.1) }
{
    let nodes = list_nodes(alloc, cvrp, route)?;
    let metric = Sub::new(&cvrp.table, &nodes);
    if nodes.len() > MOST_MEASURED {
        return improve_over(alloc, cvrp, &metric, route, max_candidates, m);
    }
    let measured = DistanceMatrix::of(alloc, &metric)?;
    improve_over(alloc, cvrp, &measured, route, max_candidates, m)
}
