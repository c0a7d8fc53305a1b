//! The improvement of routes, each by itself.
ghost use Rattle.std.specs.Prelude.{◌≡◌, ◌+◌, ◌≤◌, IfOk, IfErr};
ghost use Rattle.tk_problem.specs.declared.limits.TheConstants.{CANDIDATE_LIMIT};
ghost use Rattle.tk_lists.specs.Solution.{lists_of};
ghost use Rattle.tk_routes.specs.Cvrps.{instance_of};
ghost use Rattle.tk_routes.specs.Routes.{AreRoutes, routes_cost};
ghost use Rattle.tk_routes.specs.RouteLists.{instance_of_routes, routes_of};
ghost use Rattle.tk_routes.specs.ImprovedRoutes.{AreImprovements, IsImprovedPart, fall_of, most_tests};
ghost use Rattle.tk_routes.specs.ImprovedRoutes.{place_count};

use crate::checking::check::cost_of;
use crate::cvrp::Cvrp;
use crate::routes::Routes;
use crate::solving::one_route::improve_route;
use crate::solving::route_report::RouteReport;
use std::alloc::{AllocError, Global};

/// Improves each of the lists, in order.
fn improve_each(
    alloc: Global,
    cvrp: &Cvrp<'_>,
    lists: &mut [Vec<u32>],
    max_candidates: u32,
    m: u32,
) -> Result<RouteReport, AllocError>
    requires routes { AreRoutes (instance_of cvrp.now) (lists_of lists.old) }
    requires candidates { (1 ≤ max_candidates) × (max_candidates ≤ CANDIDATE_LIMIT) }
    requires most { (1 ≤ m) × (m ≤ 3) }
    ensures improved { IfOk result
        (AreImprovements (instance_of cvrp.now) max_candidates m (lists_of lists.old) (lists_of lists.new)) }
    ensures headline { IfOk result (λ r. r.tests
        ≤ most_tests max_candidates m (place_count (instance_of cvrp.now) (lists_of lists.old)) (fall_of r)) }
    ensures part { IfErr result (λ _.
        IsImprovedPart (instance_of cvrp.now) max_candidates m (lists_of lists.old) (lists_of lists.new)) }
    ensures routes { AreRoutes (instance_of cvrp.now) (lists_of lists.new) }
    ensures cost { routes_cost (instance_of cvrp.now) (lists_of lists.new)
        ≤ routes_cost (instance_of cvrp.now) (lists_of lists.old) }
{
    let before = cost_of(cvrp, lists);
    let mut after = before;
    let mut moves = 0;
    let mut tests = 0;
    let mut swaps = 0;
    for k in 0..lists.len() {
        let (customers, report) = improve_route(alloc, cvrp, &lists[k], max_candidates, m)?;
        lists[k] = customers;
        after -= report.before - report.after;
        moves += report.moves;
        tests += report.tests;
        swaps += report.swaps;
    }
    Ok(RouteReport {
        before,
        after,
        moves,
        tests,
        swaps,
    })
}

/// Improves each route by itself and leaves it at its position. The descent starts from the depot and the route, with
/// all of their nodes awake.
///
/// A look tries at most `max_candidates` near nodes. The segment of an Or-opt move has at most `m` nodes (1 to 3).
///
/// # Errors
/// `AllocError` if memory runs out. The routes before some position are improved then, and the others have not changed.
pub fn improve(
    alloc: Global,
    cvrp: &Cvrp<'_>,
    routes: &mut Routes<'_>,
    max_candidates: u32,
    m: u32,
) -> Result<RouteReport, AllocError>
    requires same { instance_of_routes routes.old ≡ instance_of cvrp.now }
    requires candidates { (1 ≤ max_candidates) × (max_candidates ≤ CANDIDATE_LIMIT) }
    requires most { (1 ≤ m) × (m ≤ 3) }
    ensures improved { IfOk result
        (AreImprovements (instance_of cvrp.now) max_candidates m (routes_of routes.old) (routes_of routes.new)) }
    ensures headline { IfOk result (λ r. r.tests
        ≤ most_tests max_candidates m (place_count (instance_of cvrp.now) (routes_of routes.old)) (fall_of r)) }
    ensures part { IfErr result (λ _.
        IsImprovedPart (instance_of cvrp.now) max_candidates m (routes_of routes.old) (routes_of routes.new)) }
    ensures routes { AreRoutes (instance_of cvrp.now) (routes_of routes.new) }
    ensures cost { routes_cost (instance_of cvrp.now) (routes_of routes.new)
        ≤ routes_cost (instance_of cvrp.now) (routes_of routes.old) }
    ensures kept { instance_of_routes routes.new ≡ instance_of_routes routes.old }
{
    improve_each(alloc, cvrp, &mut routes.lists, max_candidates, m)
}
