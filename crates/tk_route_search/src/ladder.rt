//! The ladder: the cheapest of the savings routes over near lists of several lengths.
ghost use Rattle.std.specs.Prelude.{◌≡◌, ◌≤◌, IfOk, min, pos};
ghost use Rattle.tk_problem.specs.declared.limits.TheConstants.{CANDIDATE_LIMIT};
ghost use Rattle.tk_near.specs.Near.{AreNearLists};
ghost use Rattle.tk_routes.specs.Cvrps.{instance_of};
ghost use Rattle.tk_routes.specs.Instance.{customer_count};
ghost use Rattle.tk_routes.specs.RouteLists.{routes_of};
ghost use Rattle.tk_routes.specs.Routes.{AreRoutes, routes_cost};
ghost use Rattle.tk_route_search.specs.Ladder.{IsLadderChoice, IsSavings};
ghost use Rattle.tk_route_search.specs.Rungs.{savings_of};

use crate::start::cost_of;
use std::alloc::{AllocError, Global};
use tk_near::{Near, near_lists};
use tk_problem::CANDIDATE_LIMIT;
use tk_routes::{Cvrp, Routes, savings};

/// The lengths of the near lists.
const LADDER: [u32; 8] = [3, 5, 8, 12, 20, 32, 50, 100];

/// Savings routes, and their cost.
#[derive(Drop)]
pub(crate) struct Rung<'a> {
    /// The length of the near lists that they were made with.
    pub(crate) candidates: u32,
    pub(crate) routes: Routes<'a>,
    pub(crate) cost: i64,
}

/// The savings routes over near lists of this length, or of all other nodes if these are fewer. `near` contains the
/// longest near lists of the ladder.
fn savings_over<'a>(
    alloc: Global,
    cvrp: &Cvrp<'a>,
    near: &Near,
    most: u32,
) -> Result<Rung<'a>, AllocError>
    requires most { most ≤ CANDIDATE_LIMIT }
    requires near { AreNearLists (instance_of cvrp.now).distance (instance_of cvrp.now).size
        (min CANDIDATE_LIMIT (customer_count (instance_of cvrp.now))) near.now }
    ensures candidates { IfOk result (λ r. r.candidates ≡ min most (customer_count (instance_of cvrp.now))) }
    ensures savings { IfOk result (λ r. IsSavings (instance_of cvrp.now) (savings_of r)) }
    ensures routes { IfOk result (λ r. AreRoutes (instance_of cvrp.now) (routes_of r.routes)) }
    ensures cost { IfOk result (λ r. r.cost ≡ pos (routes_cost (instance_of cvrp.now) (routes_of r.routes))) }
{
    let candidates = most.min(cvrp.customers());
    let shortened = near.shortened(alloc, candidates)?;
    let routes = savings(alloc, cvrp, &shortened)?;
    let cost = cost_of(cvrp, routes.lists());
    Ok(Rung {
        candidates,
        routes,
        cost,
    })
}

/// The cheapest savings routes of the ladder; of several, those of the shortest near lists.
pub(crate) fn cheapest<'a>(alloc: Global, cvrp: &Cvrp<'a>) -> Result<Rung<'a>, AllocError>
    ensures choice { IfOk result (λ r. IsLadderChoice (instance_of cvrp.now) (savings_of r)) }
    ensures routes { IfOk result (λ r. AreRoutes (instance_of cvrp.now) (routes_of r.routes)) }
{
    let near = near_lists(alloc, &cvrp.table(), CANDIDATE_LIMIT.min(cvrp.customers()))?;
    let mut best = savings_over(alloc, cvrp, &near, LADDER[0])?;
    for k in 1..LADDER.len() {
        let next = savings_over(alloc, cvrp, &near, LADDER[k])?;
        if next.cost < best.cost {
            best = next;
        }
    }
    Ok(best)
}
